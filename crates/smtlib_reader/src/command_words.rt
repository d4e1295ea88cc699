//! The words of commands (SMT-LIB 2.6, "Scripts" and "Commands").
ghost use Rattle.std.specs.Prelude.{◌≡◌};
ghost use Rattle.smtlib_reader.specs.CommandShapes as spec;

use term_names::words::is_among;

/// What a command's word asks for.
#[derive(Clone, Copy)]
pub(crate) enum CommandWord {
    Assert,
    DeclareFun,
    DeclareConst,
    DefineFun,
    DeclareSort,
    SetLogic,
    /// To set an information or an option, which changes nothing here.
    Attribute,
    CheckSat,
    /// To print a proof or an unsatisfiable core, which changes nothing here.
    Question,
    Exit,
    /// A command of the standard that is not read.
    LeftOut,
    /// No command has this word.
    Unknown,
}

/// What the word of this name asks for.
pub(crate) fn word_named(name: &[u8]) -> CommandWord
    ensures { result ≡ spec.script_word_named name.now }
{
    if name == b"assert".as_slice() {
        CommandWord::Assert
    } else if name == b"declare-fun".as_slice() {
        CommandWord::DeclareFun
    } else if name == b"declare-const".as_slice() {
        CommandWord::DeclareConst
    } else if name == b"define-fun".as_slice() {
        CommandWord::DefineFun
    } else if name == b"declare-sort".as_slice() {
        CommandWord::DeclareSort
    } else if name == b"set-logic".as_slice() {
        CommandWord::SetLogic
    } else if is_among(&ATTRIBUTES, name) {
        CommandWord::Attribute
    } else if name == b"check-sat".as_slice() {
        CommandWord::CheckSat
    } else if is_among(&QUESTIONS, name) {
        CommandWord::Question
    } else if name == b"exit".as_slice() {
        CommandWord::Exit
    } else if is_among(&LEFT_OUT, name) {
        CommandWord::LeftOut
    } else {
        CommandWord::Unknown
    }
}

static ATTRIBUTES: [&[u8]; 2] = [b"set-info", b"set-option"];

static QUESTIONS: [&[u8]; 2] = [b"get-proof", b"get-unsat-core"];

static LEFT_OUT: [&[u8]; 18] = [
    b"define-sort",
    b"define-fun-rec",
    b"define-funs-rec",
    b"declare-datatype",
    b"declare-datatypes",
    b"push",
    b"pop",
    b"reset",
    b"reset-assertions",
    b"check-sat-assuming",
    b"get-model",
    b"get-value",
    b"get-assertions",
    b"get-assignment",
    b"get-info",
    b"get-option",
    b"get-unsat-assumptions",
    b"echo",
];
