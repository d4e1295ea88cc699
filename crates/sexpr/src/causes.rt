//! Why a text is refused, and where.
ghost use Rattle.std.specs.Prelude.{◌≡◌};
ghost use Rattle.sexpr.specs.Causes.{text_of_cause};

/// Why a text is refused. The causes are numbered from 1 in this order.
#[derive(Clone, Copy, Debug, PartialEq, Eq)]
pub enum Cause {
    /// A byte that can't stand where it stands in a text of tokens.
    BadByte = 1,
    /// A list that isn't closed.
    OpenList = 2,
    /// A closing bracket where no list is open.
    StrayClose = 3,
    /// A command's word that no command has.
    UnknownCommand = 4,
    /// A command or a term without the shape that it has to have.
    BadCommand = 5,
    /// A name that nothing declares.
    UnknownName = 6,
    /// A name that is taken.
    Repeated = 7,
    /// A term of another sort than its place wants.
    SortMismatch = 8,
    /// A part of the language that the checker leaves out.
    LeftOut = 9,
    /// A number that is too wide.
    WideNumber = 10,
    /// A term that is too high.
    TooHigh = 11,
    /// A premise that names no earlier step.
    NoStep = 12,
    /// An anchor that can't stand where it stands.
    BadAnchor = 13,
}

/// A refused text: why, and the place of the byte that is at fault, counted from 0.
#[derive(Clone, Copy, Debug, PartialEq, Eq)]
pub struct Refusal {
    pub cause: Cause,
    pub at: u64,
}

/// The words that name a cause to the user.
pub fn cause_text(cause: Cause) -> &'static str
    ensures { result.now ≡ text_of_cause cause }
{
    match cause {
        Cause::BadByte => "bad byte",
        Cause::OpenList => "open list",
        Cause::StrayClose => "stray close",
        Cause::UnknownCommand => "unknown command",
        Cause::BadCommand => "bad command",
        Cause::UnknownName => "unknown name",
        Cause::Repeated => "repeated",
        Cause::SortMismatch => "sort mismatch",
        Cause::LeftOut => "left out",
        Cause::WideNumber => "wide number",
        Cause::TooHigh => "too high",
        Cause::NoStep => "no such step",
        Cause::BadAnchor => "bad anchor",
    }
}
