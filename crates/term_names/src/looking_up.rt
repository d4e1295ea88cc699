//! What a symbol means where it stands (SMT-LIB 2.6, on binders and on signatures).
ghost use Rattle.std.specs.Prelude.{◌≡◌, ℕ, List, Some, None};
ghost use Rattle.std.specs.List.{list_all};
ghost use Rattle.sym_table.specs.Table.{Table, IsLeaf};
ghost use Rattle.term_model.specs.Terms.{Var};
ghost use Rattle.term_pool.specs.StandsFor.{variable_leaf};
ghost use Rattle.term_pool.specs.Views.{TermsView};
ghost use Rattle.term_names.specs.Heads.{HeadMeans};
ghost use Rattle.term_expansion.specs.Free.{AreFreeLeaves};
ghost use Rattle.term_names.specs.InScope.{IsScope};
ghost use Rattle.term_names.specs.Scope.{known_in};
ghost use Rattle.term_names.specs.Known.{KnownView, IsKnownThere, known_entry};
ghost use Rattle.term_names.specs.LookingUp.{IsFoundMeaning};
ghost use Rattle.term_names.specs.Lookups.{meaning_outside};
ghost use Rattle.problem_text.specs.Names.{Place, Meaning, is_bound, meaning_of};
ghost use Rattle.problem_text.specs.Scripts.{Script};
ghost use Rattle.problem_text.specs.Words.{operator_named};
ghost use Rattle.term_names.specs.Standing.{IsScript};
ghost use Rattle.term_names.specs.declared.heads.Head as head;
ghost use Rattle.term_expansion.specs.SymbolsAndTerms.{SymbolsAndTerms, both};

use crate::heads::Head;
use crate::names::{KnownEntry, Meant, NameTables, Names, Which};
use crate::words::operator_of;
use sym_table::Symbols;
use term_expansion::values::Value;

/// What a name is found to be.
#[derive(Clone, Copy)]
pub enum Found {
    /// A variable in scope: what it stands for.
    Term(Value),
    /// A named term whose free variables are bound here.
    Named(Which),
    Macro(Which),
    /// An operator or a declared function, by its leaf.
    Symbol(u32),
    /// Nothing, or a named term that has a free variable that is not bound here.
    Unknown,
}

/// What a name means where these variables are in scope: the innermost variable of that name, then a named term or a
/// macro, then a function, then an operator.
///
/// Operators are told by their spelling, since nothing that a problem declares or names has the name of one. Costs one
/// look-up, which says all that a name may mean, and for a named term one for each of its free variables.
// A part of its callers, which ask it for each symbol of a text.
#[inline(always)]
pub fn find(tables: &NameTables<'_, '_>, name: &[u8]) -> Found
    ensures { (v : TermsView) (sc : Script) (p : Place) →
        IsScript (both tables.now.symbols.now v) (known_in tables.now.settings.now tables.now.names.now) sc →
        IsScope (both tables.now.symbols.now v) tables.now.names.now.scope p.scope →
        IsFoundMeaning (both tables.now.symbols.now v) (known_in tables.now.settings.now tables.now.names.now) p result (meaning_of p sc name.now) }
{
    let NameTables {
        settings,
        symbols,
        names,
    } = *tables;
    if let Some(op) = operator_of(name) {
        return match names.variable(name) {
            Some(bound) => Found::Term(bound.value),
            None => Found::Symbol(symbols.operator(op)),
        };
    }
    let Some(meant) = names.find(settings, name) else {
        return Found::Unknown;
    };
    match meant {
        Meant::Variable(bound) => Found::Term(bound.value),
        Meant::Entry(entry) => found_of(tables, entry),
    }
}

/// What a name of this entry is found to be, where no variable in scope has it.
// A part of `find` too.
#[inline(always)]
fn found_of(tables: &NameTables<'_, '_>, entry: KnownEntry) -> Found
    requires there { IsKnownThere (known_in tables.now.settings.now tables.now.names.now) entry }
    ensures { (v : TermsView) (sc : Script) (p : Place) (name : List ℕ) →
        IsScript (both tables.now.symbols.now v) (known_in tables.now.settings.now tables.now.names.now) sc →
        IsScope (both tables.now.symbols.now v) tables.now.names.now.scope p.scope →
        known_entry (known_in tables.now.settings.now tables.now.names.now) name ≡ Some entry → operator_named name ≡ None →
        IsFoundMeaning (both tables.now.symbols.now v) (known_in tables.now.settings.now tables.now.names.now) p result (meaning_outside p sc name) }
{
    match entry {
        KnownEntry::Function(leaf) => Found::Symbol(leaf),
        KnownEntry::Reserved => Found::Unknown,
        KnownEntry::Macro(which) => Found::Macro(which),
        KnownEntry::Named(which) => {
            let named = tables.names.named_at(tables.settings, which);
            if are_bound(tables.symbols, tables.names, &named.free) {
                Found::Named(which)
            } else {
                Found::Unknown
            }
        }
    }
}

/// Whether all these variables are bound here, told by the leaves of a named term.
fn are_bound(symbols: &Symbols, names: &Names, leaves: &[u32]) -> bool
    ensures { (v : TermsView) (p : Place) (xs : List Var) → IsScope (both symbols.now v) names.now.scope p.scope → AreFreeLeaves symbols.now leaves.now xs →
        result ≡ list_all (is_bound p.scope) xs }
{
    'leaves: for leaf in leaves {
        if !is_bound_here(symbols, names, *leaf) {
            return false;
        }
    }
    true
}

/// Whether the innermost variable of the leaf's name is this very variable. A leaf that is not there has none.
fn is_bound_here(symbols: &Symbols, names: &Names, leaf: u32) -> bool
    ensures { (v : TermsView) (p : Place) (x : Var) → IsScope (both symbols.now v) names.now.scope p.scope → IsLeaf symbols.now leaf (variable_leaf x) →
        result ≡ is_bound p.scope x }
{
    symbols.leaves_differ();
    if leaf >= symbols.count() {
        return false;
    }
    match names.variable(symbols.name(leaf)) {
        Some(bound) => bound.variable == leaf,
        None => false,
    }
}

/// What is found, as the head of an application. A term takes no arguments.
pub fn head_of(found: Found) -> Option<Head>
    ensures means { (w : SymbolsAndTerms) (k : KnownView) (p : Place) (m : Meaning) → IsFoundMeaning w k p found (Some m) →
        (h : head.Head) × (result ≡ Some h) × HeadMeans w k h m }
    ensures unknown { (w : SymbolsAndTerms) (k : KnownView) (p : Place) → IsFoundMeaning w k p found None → result ≡ None }
{
    match found {
        Found::Term(_) | Found::Named(_) => Some(Head::Fixed),
        Found::Macro(which) => Some(Head::Macro(which)),
        Found::Symbol(leaf) => Some(Head::Symbol(leaf)),
        Found::Unknown => None,
    }
}
