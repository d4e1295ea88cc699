//! Laws about the definitions, each the contract of a function with an empty body.
ghost use Rattle.std.specs.Prelude.{◌≡◌, ◌↔◌, ◌<◌, ◌≤◌, ◌^◌, ℕ, List, [], length, drop, slice_range, decimal, Ok, Some, None};
ghost use Rattle.std.specs.List.{AllPass};
ghost use Rattle.sexpr.specs.declared.causes.Refusal.{Refusal};
ghost use Rattle.sexpr.specs.declared.lexing.Token.{Token};
ghost use Rattle.sexpr.specs.declared.lexing.TokenKind.TheVariants.{Word};
ghost use Rattle.sexpr.specs.Characters.{is_between_bars};
ghost use Rattle.sexpr.specs.Form.{HasForm, IsFormFault};
ghost use Rattle.sexpr.specs.Grammar.{IsSpelling, IsSpelledNext, SkipsTo};
ghost use Rattle.sexpr.specs.Items.{Item, list, Items, IsItem, StandsForItems};
ghost use Rattle.sexpr.specs.Printed.{AreSpelledItems, printed_lines, placed_lines, IsSymbolItem};
ghost use Rattle.sexpr.specs.Spans.{AreAlike, IsListAt};
ghost use Rattle.sexpr.specs.Tokens.{next_token};

/// The tokens of a text are those that the grammar has, and each is as long as it can be, with nothing but white
/// space and comments before it.
pub fn tokens_are_spelled()
    // What is read is spelled so.
    ensures spelled { (text : List ℕ) (at : ℕ) (t : Token) → next_token text at ≡ Ok (Some t) → IsSpelledNext text at t }
    // What is spelled so is read.
    ensures read { (text : List ℕ) (at : ℕ) (t : Token) → IsSpelledNext text at t → t.start < t.end → t.end ≤ length text → next_token text at ≡ Ok (Some t) }
    // The end comes exactly where nothing else is left.
    ensures end { (text : List ℕ) (at : ℕ) → (next_token text at ≡ Ok None) ↔ SkipsTo [] (drop at text) }
{}

/// A text stands for one list of items at most, and tokens begin with one item at most.
pub fn items_are_unique()
    ensures item { (source : List ℕ) (tokens : List Token) (a b : Item) (rest others : List Token) → IsItem source tokens a rest →
        IsItem source tokens b others → (a ≡ b) × (rest ≡ others) }
    ensures text { (source : List ℕ) (a b : Items) → StandsForItems source a → StandsForItems source b → a ≡ b }
{}

/// A text that stands for items has no fault of form, and any other has one fault at most.
pub fn faults_are_unique()
    ensures none { (source : List ℕ) (refusal : Refusal) → HasForm source → IsFormFault source refusal → ⊥ }
    ensures one { (source : List ℕ) (a b : Refusal) → IsFormFault source a → IsFormFault source b → a ≡ b }
{}

/// Lists that stand in the same bytes, in one text or in two, are alike but for their places.
pub fn lists_are_their_bytes()
    ensures { (text other : List ℕ) (at end to stop : ℕ) (is js : Items) → IsListAt text at end is → IsListAt other to stop js →
        slice_range text at end ≡ slice_range other to stop → AreAlike (list at is) (list to js) }
{}

/// Items that are printed with single spaces, each of a text on a line of its own, are read back where they are printed. Symbols
/// are printed so that they have their names, and numerals are words.
pub fn printed_items_are_read_back()
    ensures items { (items : Items) → AreSpelledItems items → StandsForItems (printed_lines items) (placed_lines 0 [] items) }
    ensures form { (items : Items) → AreSpelledItems items → HasForm (printed_lines items) }
    ensures symbol { (name : List ℕ) → AllPass is_between_bars name → IsSymbolItem name }
    ensures numeral { (n : ℕ) → n < 10 ^ 64 → IsSpelling Word (decimal n) }
{}
