//! How many cells are placed to elaborate a command by a rule of equality. Each law is the contract of a function that does nothing.

ghost use Rattle.std.specs.Prelude.{◌≡◌, ◌≢◌, ◌+◌, ◌*◌, ℕ, List, length};
ghost use Rattle.elab_resolution.specs.Placed.{PlacesAtMost};
ghost use Rattle.equality_blocks.specs.Commands.{literals_of_command, rule_of_command};
ghost use Rattle.equality_blocks.specs.Made.{IsPlacedFor};
ghost use Rattle.equality_steps.specs.declared.site.Site.{Site};
ghost use Rattle.pair_pool.specs.Trees.{Tree};
ghost use Rattle.pair_pool.specs.Views.{HasListsInOrder, IsOneToOne};
ghost use Rattle.placing_laws.specs.Counts.{AtMost};
ghost use Rattle.placing_laws.specs.Placed.{HaveTermsOf, IsPlacedApart};
ghost use Rattle.rule_model.specs.declared.rules.Rule.TheVariants as Rule;
ghost use Rattle.sym_table.specs.Table.{IsTable};
ghost use Rattle.term_pool.specs.CellCounts.{CountsCells};
ghost use Rattle.term_pool.specs.Placing.{PlacesCellsOf};
ghost use Rattle.term_pool.specs.Views.{TermsView};

use term_pool::trees_of_terms;

/// A law: where only cells are placed that may be placed for a command (`IsPlacedFor`), as the calls promise that elaborate one, there are
/// at most 64 for each of the c distinct cells of its terms, 64 for each of the l literals of it and of its premises' clauses, and 64
/// more. The call does nothing; its contract is the law.
pub fn placed_cells_are_few()
    // Cells of images of anchors' variables are left out: a refl may put any of these in.
    ensures images_apart { (p : Site) (old new : TermsView) (trees : List Tree) (c : ℕ) → IsTable p.symbols.now → HasListsInOrder old.pass →
        HasListsInOrder new.pass → IsOneToOne new.pass → PlacesCellsOf p.symbols.now old.pass new.pass (IsPlacedFor p new) →
        HaveTermsOf p new trees → CountsCells trees c → AtMost (64 * (c + length (literals_of_command p) + 1)) (IsPlacedApart p old new) }
    // By any other rule no image may be placed, and all cells are counted.
    ensures all { (p : Site) (old new : TermsView) (trees : List Tree) (c : ℕ) → IsTable p.symbols.now → HasListsInOrder old.pass →
        HasListsInOrder new.pass → IsOneToOne new.pass → PlacesCellsOf p.symbols.now old.pass new.pass (IsPlacedFor p new) →
        HaveTermsOf p new trees → CountsCells trees c → rule_of_command p ≢ Rule.Refl →
        PlacesAtMost old.pass new.pass (64 * (c + length (literals_of_command p) + 1)) }
{
    trees_of_terms();
}
