//! Laws of items and their nodes. The function does nothing: its contract is the law.
ghost use Rattle.std.specs.Prelude.{List};
ghost use Rattle.sexpr.specs.declared.lexing.Lexer.{Lexer};
ghost use Rattle.sexpr.specs.declared.lexing.Token.{Token};
ghost use Rattle.sexpr.specs.Form.{HasForm};
ghost use Rattle.sexpr.specs.Items.{Item};
ghost use Rattle.sexpr.specs.Source.{source};
ghost use Rattle.text_items.specs.Lexers.{IsFirstOfItem, GoesOnWith};

/// In a text of nested items each token begins an item, unless it closes a list: so a lexer that gave it last
/// stands in that item.
pub fn items_begin_at_tokens()
    ensures { (l : Lexer) (t : Token) → HasForm (source l) → IsFirstOfItem l t → (i : Item) × (rest : List Token) × GoesOnWith l t i rest }
{}
