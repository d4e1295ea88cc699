//! Names among words: those of a list, of the logics and of the operators.
ghost use Rattle.std.specs.Prelude.{◌≡◌, bytes_eq};
ghost use Rattle.std.specs.List.{list_any};
ghost use Rattle.problem_text.specs.Words as spec;
ghost use Rattle.problem_text.specs.Words.{logics, operator_named};

use term_model::Op;

/// Whether a word of the list is the name.
pub fn is_among(words: &[&[u8]], name: &[u8]) -> bool
    ensures { result ≡ list_any (λ word. bytes_eq name.now word.now) words.now }
{
    words.iter().any(|word| name == *word)
}

/// Whether a logic of this name may be set.
pub fn is_logic(name: &[u8]) -> bool
    ensures { result ≡ spec.is_among logics name.now }
{
    is_among(&LOGICS, name)
}

/// The operator of this name.
// A part of its callers, which ask it for each symbol of a text.
#[inline(always)]
pub(crate) fn operator_of(name: &[u8]) -> Option<Op>
    ensures { result ≡ operator_named name.now }
{
    match name {
        b"=" => Some(Op::Equal),
        b"-" => Some(Op::Minus),
        b"+" => Some(Op::Plus),
        b"*" => Some(Op::Times),
        b"<" => Some(Op::Less),
        b">" => Some(Op::Greater),
        b"=>" => Some(Op::Implies),
        b"or" => Some(Op::Or),
        b"<=" => Some(Op::LessEq),
        b">=" => Some(Op::GreaterEq),
        b"div" => Some(Op::Div),
        b"mod" => Some(Op::Mod),
        b"not" => Some(Op::Not),
        b"and" => Some(Op::And),
        b"xor" => Some(Op::Xor),
        b"ite" => Some(Op::Ite),
        b"true" => Some(Op::True),
        b"false" => Some(Op::False),
        b"distinct" => Some(Op::Distinct),
        _ => None,
    }
}

static LOGICS: [&[u8]; 5] = [b"QF_UF", b"QF_LIA", b"QF_UFLIA", b"QF_IDL", b"QF_UFIDL"];
