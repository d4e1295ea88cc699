//! A line of a file of cases: its first word says what it is, and the rest stands behind one space.
use crate::case::Measures;
use crate::fault::Fault;

/// What a line is.
#[derive(Clone, Copy, Debug, PartialEq, Eq)]
pub enum Line<'a> {
    /// An empty line, or a comment.
    Blank,
    /// A text gets this name.
    Text(&'a str),
    /// A case of this name begins.
    Case(&'a str),
    /// A text of the case begins.
    Part(Part),
    Field(Field<'a>),
    Piece(Piece<'a>),
}

/// The texts of a case.
#[derive(Clone, Copy, Debug, PartialEq, Eq)]
pub enum Part {
    Problem,
    Proof,
    Output,
}

/// The parts of a case that stand in one line.
#[derive(Clone, Copy, Debug, PartialEq, Eq)]
pub enum Field<'a> {
    Words(&'a str),
    FailingReads(&'a str),
    FailingWrites(&'a str),
    Status(u8),
    Assertions(usize),
    Measures(Measures),
}

/// A piece of a text.
#[derive(Clone, Copy, Debug, PartialEq, Eq)]
pub enum Piece<'a> {
    /// A line with its end.
    Whole(&'a str),
    /// Bytes without a line end.
    Open(&'a str),
    /// The same bytes, so many times.
    Repeated(u32, &'a str),
    /// The same bytes, so many times, each with a number of its own.
    Numbered(Numbers, &'a str),
    /// The text of that name.
    Named(&'a str),
}

/// The numbers below `count`, each once where the two have no divisor but 1: first 0, and then each `step` above the one
/// before, without the multiples of `count`.
#[derive(Clone, Copy, Debug, PartialEq, Eq)]
pub struct Numbers {
    pub count: u32,
    pub step: u32,
}

/// What a line is, without its end.
pub fn line_of(line: &str) -> Result<Line<'_>, Fault> {
    if line.is_empty() || line.starts_with('#') {
        return Ok(Line::Blank);
    }
    let (word, rest) = line.split_once(' ').unwrap_or((line, ""));
    match word {
        "text" => Ok(Line::Text(rest)),
        "case" => Ok(Line::Case(rest)),
        "|" => Ok(Line::Piece(Piece::Whole(rest))),
        "+" => Ok(Line::Piece(Piece::Open(rest))),
        "*" => repeated(rest),
        "%" => numbered(rest),
        "<" => Ok(Line::Piece(Piece::Named(rest))),
        "words" => Ok(Line::Field(Field::Words(rest))),
        "failing-reads" => Ok(Line::Field(Field::FailingReads(rest))),
        "failing-writes" => Ok(Line::Field(Field::FailingWrites(rest))),
        "status" => status(rest),
        "assertions" => assertions(rest),
        "measures" => measures(rest),
        _ => part_of(line),
    }
}

fn part_of(line: &str) -> Result<Line<'_>, Fault> {
    match line {
        "problem" => Ok(Line::Part(Part::Problem)),
        "proof" => Ok(Line::Part(Part::Proof)),
        "output" => Ok(Line::Part(Part::Output)),
        _ => Err(Fault::NoSuchLine),
    }
}

fn repeated(rest: &str) -> Result<Line<'_>, Fault> {
    let (count, text) = rest.split_once(' ').ok_or(Fault::NoSuchLine)?;
    let count = count.parse::<u32>().map_err(|_| Fault::BadNumber)?;
    Ok(Line::Piece(Piece::Repeated(count, text)))
}

fn numbered(rest: &str) -> Result<Line<'_>, Fault> {
    let (count, rest) = rest.split_once(' ').ok_or(Fault::NoSuchLine)?;
    let (step, text) = rest.split_once(' ').ok_or(Fault::NoSuchLine)?;
    let count = count.parse::<u32>().map_err(|_| Fault::BadNumber)?;
    let step = step.parse::<u32>().map_err(|_| Fault::BadNumber)?;
    Ok(Line::Piece(Piece::Numbered(Numbers { count, step }, text)))
}

fn status(rest: &str) -> Result<Line<'_>, Fault> {
    let status = rest.parse::<u8>().map_err(|_| Fault::BadNumber)?;
    Ok(Line::Field(Field::Status(status)))
}

fn assertions(rest: &str) -> Result<Line<'_>, Fault> {
    let count = rest.parse::<usize>().map_err(|_| Fault::BadNumber)?;
    Ok(Line::Field(Field::Assertions(count)))
}

fn measures(rest: &str) -> Result<Line<'_>, Fault> {
    let (height, cells) = rest.split_once(' ').ok_or(Fault::NoSuchLine)?;
    let height = height.parse::<u32>().map_err(|_| Fault::BadNumber)?;
    let cells = cells.parse::<u64>().map_err(|_| Fault::BadNumber)?;
    Ok(Line::Field(Field::Measures(Measures { height, cells })))
}
