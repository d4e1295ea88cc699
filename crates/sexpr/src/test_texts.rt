//! Texts with the tokens and the form that the rules of SMT-LIB 2.6, "Lexicon", give them.

/// A text, its tokens with their spans, and its form or the fault of its form.
pub(crate) struct Case {
    pub(crate) text: &'static [u8],
    pub(crate) tokens: &'static str,
    pub(crate) form: &'static str,
}

// The cases stand in several tables, each with a test of its own: to prove a test is dear where it names many constants.

// Brackets, white space and comments, and texts with more than one fault.
pub(crate) const BRACKETS: &[Case] = &[
    Case {
        text: b"",
        tokens: "",
        form: "ok",
    },
    Case {
        text: b"   ",
        tokens: "",
        form: "ok",
    },
    Case {
        text: b"\t\n\r ",
        tokens: "",
        form: "ok",
    },
    Case {
        text: b"(",
        tokens: "O0-1",
        form: "open list 0",
    },
    Case {
        text: b")",
        tokens: "C0-1",
        form: "stray close 0",
    },
    Case {
        text: b"()",
        tokens: "O0-1 C1-2",
        form: "ok",
    },
    Case {
        text: b")(",
        tokens: "C0-1 O1-2",
        form: "stray close 0",
    },
    Case {
        text: b"(()",
        tokens: "O0-1 O1-2 C2-3",
        form: "open list 0",
    },
    Case {
        text: b"()(",
        tokens: "O0-1 C1-2 O2-3",
        form: "open list 2",
    },
    Case {
        text: b"(a b)",
        tokens: "O0-1 W1-2 W3-4 C4-5",
        form: "ok",
    },
    Case {
        text: b"() ((a)",
        tokens: "O0-1 C1-2 O3-4 O4-5 W5-6 C6-7",
        form: "open list 3",
    },
    Case {
        text: b"(a))",
        tokens: "O0-1 W1-2 C2-3 C3-4",
        form: "stray close 3",
    },
    Case {
        text: b"a;b\nc",
        tokens: "W0-1 W4-5",
        form: "ok",
    },
    Case {
        text: b"a;b\rc",
        tokens: "W0-1 W4-5",
        form: "ok",
    },
    Case {
        text: b"a;b",
        tokens: "W0-1",
        form: "ok",
    },
    Case {
        text: b";",
        tokens: "",
        form: "ok",
    },
    Case {
        text: b";(\n)",
        tokens: "C3-4",
        form: "stray close 3",
    },
    Case {
        text: b";\x00\x0B\x0C\x7F\x80\xFF\n(",
        tokens: "O8-9",
        form: "open list 8",
    },
    Case {
        text: b") 01",
        tokens: "C0-1 bad byte 2",
        form: "stray close 0",
    },
    Case {
        text: b"\\ )",
        tokens: "bad byte 0",
        form: "bad byte 0",
    },
    Case {
        text: b"01 )",
        tokens: "bad byte 0",
        form: "bad byte 0",
    },
    Case {
        text: b"( 01",
        tokens: "O0-1 bad byte 2",
        form: "bad byte 2",
    },
    Case {
        text: b"(step t1 (cl",
        tokens: "O0-1 W1-5 W6-8 O9-10 W10-12",
        form: "open list 0",
    },
    Case {
        text: b"(step t1 (cl |p",
        tokens: "O0-1 W1-5 W6-8 O9-10 W10-12 bad byte 13",
        form: "bad byte 13",
    },
    Case {
        text: b"(assume h1 q) (",
        tokens: "O0-1 W1-7 W8-10 W11-12 C12-13 O14-15",
        form: "open list 14",
    },
    Case {
        text: b"(assume h1 01)",
        tokens: "O0-1 W1-7 W8-10 bad byte 11",
        form: "bad byte 11",
    },
];

// Bytes that words have, and bytes that stand in strings, quoted symbols and comments alone.
pub(crate) const BYTES: &[Case] = &[
    Case {
        text: b"\"\x00\x0B\x0C\x7F\x80\xFF\"",
        tokens: "T0-8",
        form: "ok",
    },
    Case {
        text: b"|\x00\x0B\x0C\x7F\x80\xFF|",
        tokens: "Q0-8",
        form: "ok",
    },
    Case {
        text: b"\x00",
        tokens: "bad byte 0",
        form: "bad byte 0",
    },
    Case {
        text: b"a\x0B",
        tokens: "W0-1 bad byte 1",
        form: "bad byte 1",
    },
    Case {
        text: b"a \x0C b",
        tokens: "W0-1 bad byte 2",
        form: "bad byte 2",
    },
    Case {
        text: b"(\x7F)",
        tokens: "O0-1 bad byte 1",
        form: "bad byte 1",
    },
    Case {
        text: b"\x80",
        tokens: "bad byte 0",
        form: "bad byte 0",
    },
    Case {
        text: b"(a)\xFF",
        tokens: "O0-1 W1-2 C2-3 bad byte 3",
        form: "bad byte 3",
    },
    Case {
        text: b"ab\x00cd",
        tokens: "W0-2 bad byte 2",
        form: "bad byte 2",
    },
    Case {
        text: b"\\",
        tokens: "bad byte 0",
        form: "bad byte 0",
    },
    Case {
        text: b"a\\",
        tokens: "W0-1 bad byte 1",
        form: "bad byte 1",
    },
    Case {
        text: b"~!@$%^&*_-+=<>.?/:#",
        tokens: "W0-19",
        form: "ok",
    },
    Case {
        text: b"AZaz09_",
        tokens: "W0-7",
        form: "ok",
    },
    Case {
        text: b"'",
        tokens: "bad byte 0",
        form: "bad byte 0",
    },
    Case {
        text: b"a,b",
        tokens: "W0-1 bad byte 1",
        form: "bad byte 1",
    },
    Case {
        text: b"[x]",
        tokens: "bad byte 0",
        form: "bad byte 0",
    },
    Case {
        text: b"x{",
        tokens: "W0-1 bad byte 1",
        form: "bad byte 1",
    },
    Case {
        text: b"`",
        tokens: "bad byte 0",
        form: "bad byte 0",
    },
];

// Strings and quoted symbols.
pub(crate) const QUOTED: &[Case] = &[
    Case {
        text: b"\"\"",
        tokens: "T0-2",
        form: "ok",
    },
    Case {
        text: b"\"a\"",
        tokens: "T0-3",
        form: "ok",
    },
    Case {
        text: b"\"a\"\"b\"",
        tokens: "T0-6",
        form: "ok",
    },
    Case {
        text: b"\"a\"\"",
        tokens: "bad byte 0",
        form: "bad byte 0",
    },
    Case {
        text: b"\"a\"\"\"",
        tokens: "T0-5",
        form: "ok",
    },
    Case {
        text: b"\"",
        tokens: "bad byte 0",
        form: "bad byte 0",
    },
    Case {
        text: b"x \"a",
        tokens: "W0-1 bad byte 2",
        form: "bad byte 2",
    },
    Case {
        text: b"\"a\"b",
        tokens: "T0-3 W3-4",
        form: "ok",
    },
    Case {
        text: b"\";\"",
        tokens: "T0-3",
        form: "ok",
    },
    Case {
        text: b"\"(\n)\"",
        tokens: "T0-5",
        form: "ok",
    },
    Case {
        text: b"\"a\\\"",
        tokens: "T0-4",
        form: "ok",
    },
    Case {
        text: b"\"a\" \"b\"",
        tokens: "T0-3 T4-7",
        form: "ok",
    },
    Case {
        text: b"||",
        tokens: "Q0-2",
        form: "ok",
    },
    Case {
        text: b"|a b|",
        tokens: "Q0-5",
        form: "ok",
    },
    Case {
        text: b"|a;\"(\n|",
        tokens: "Q0-7",
        form: "ok",
    },
    Case {
        text: b"|a\\b|",
        tokens: "bad byte 2",
        form: "bad byte 2",
    },
    Case {
        text: b"|a\\b",
        tokens: "bad byte 2",
        form: "bad byte 2",
    },
    Case {
        text: b"|ab",
        tokens: "bad byte 0",
        form: "bad byte 0",
    },
    Case {
        text: b"|",
        tokens: "bad byte 0",
        form: "bad byte 0",
    },
    Case {
        text: b"|\\",
        tokens: "bad byte 1",
        form: "bad byte 1",
    },
    Case {
        text: b"(|p",
        tokens: "O0-1 bad byte 1",
        form: "bad byte 1",
    },
    Case {
        text: b"|a|b|c|",
        tokens: "Q0-3 W3-4 Q4-7",
        form: "ok",
    },
    Case {
        text: b"|a||b|",
        tokens: "Q0-3 Q3-6",
        form: "ok",
    },
];

// Words: numerals, decimals, ratios and symbols.
pub(crate) const WORDS: &[Case] = &[
    Case {
        text: b"0",
        tokens: "W0-1",
        form: "ok",
    },
    Case {
        text: b"10",
        tokens: "W0-2",
        form: "ok",
    },
    Case {
        text: b"01",
        tokens: "bad byte 0",
        form: "bad byte 0",
    },
    Case {
        text: b"00",
        tokens: "bad byte 0",
        form: "bad byte 0",
    },
    Case {
        text: b"1.",
        tokens: "bad byte 0",
        form: "bad byte 0",
    },
    Case {
        text: b"1.0",
        tokens: "W0-3",
        form: "ok",
    },
    Case {
        text: b"0.00",
        tokens: "W0-4",
        form: "ok",
    },
    Case {
        text: b"01.5",
        tokens: "bad byte 0",
        form: "bad byte 0",
    },
    Case {
        text: b".5",
        tokens: "W0-2",
        form: "ok",
    },
    Case {
        text: b"1.2.3",
        tokens: "bad byte 0",
        form: "bad byte 0",
    },
    Case {
        text: b"1/2",
        tokens: "W0-3",
        form: "ok",
    },
    Case {
        text: b"0/0",
        tokens: "W0-3",
        form: "ok",
    },
    Case {
        text: b"1/02",
        tokens: "bad byte 0",
        form: "bad byte 0",
    },
    Case {
        text: b"1/",
        tokens: "bad byte 0",
        form: "bad byte 0",
    },
    Case {
        text: b"1/2/3",
        tokens: "bad byte 0",
        form: "bad byte 0",
    },
    Case {
        text: b"1.5/2",
        tokens: "bad byte 0",
        form: "bad byte 0",
    },
    Case {
        text: b"1a",
        tokens: "bad byte 0",
        form: "bad byte 0",
    },
    Case {
        text: b"a1",
        tokens: "W0-2",
        form: "ok",
    },
    Case {
        text: b"-1",
        tokens: "W0-2",
        form: "ok",
    },
    Case {
        text: b"x 007)",
        tokens: "W0-1 bad byte 2",
        form: "bad byte 2",
    },
    Case {
        text: b":k : #b01 #xZZ",
        tokens: "W0-2 W3-4 W5-9 W10-14",
        form: "ok",
    },
];
