//! The built-in words.
ghost use Rattle.std.specs.Prelude.{◌≡◌, ◌↔◌, IsTrue, map};
ghost use Rattle.std.specs.List.{list_any};
ghost use Rattle.std.specs.Str.{bytes_eq};
ghost use Rattle.sym_table.specs.Words.{IsBuiltIn, built_in_words};
ghost use Rattle.sym_table.specs.WordLengths.{of_length};

/// Whether nobody may declare, name or bind this name: the symbols of the operators, `let`, `!`, the built-in
/// sorts and the words of what is left out.
///
/// Each name that is read is asked about, so it is compared only with the words that are as long.
pub fn is_built_in(name: &[u8]) -> bool
    ensures { IsTrue result ↔ IsBuiltIn name.now }
{
    is_among(words_of_length(name.len()), name)
}

// The built-in words of so many bytes.
fn words_of_length(length: usize) -> &'static [&'static [u8]]
    ensures { map (λ word. word.now) result.now ≡ of_length length built_in_words }
{
    match length {
        1 => &OF_1,
        2 => &OF_2,
        3 => &OF_3,
        4 => &OF_4,
        5 => &OF_5,
        6 => &OF_6,
        7 => &OF_7,
        8 => &OF_8,
        9 => &OF_9,
        _ => &[],
    }
}

// Whether a word of the list is the name.
fn is_among(words: &[&[u8]], name: &[u8]) -> bool
    ensures { result ≡ list_any (λ word. bytes_eq name.now word.now) words.now }
{
    words.iter().any(|word| name == *word)
}

static OF_1: [&[u8]; 9] = [b"=", b"-", b"+", b"*", b"<", b">", b"!", b"_", b"/"];

static OF_2: [&[u8]; 5] = [b"=>", b"or", b"<=", b">=", b"as"];

static OF_3: [&[u8]; 9] = [
    b"not", b"and", b"xor", b"ite", b"div", b"mod", b"let", b"Int", b"abs",
];

static OF_4: [&[u8]; 2] = [b"true", b"Bool"];

static OF_5: [&[u8]; 2] = [b"false", b"match"];

static OF_6: [&[u8]; 6] = [
    b"forall", b"exists", b"choice", b"lambda", b"to_int", b"is_int",
];

static OF_7: [&[u8]; 1] = [b"to_real"];

static OF_8: [&[u8]; 1] = [b"distinct"];

static OF_9: [&[u8]; 1] = [b"divisible"];
