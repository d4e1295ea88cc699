//! The lines of a file, one after another, as cases.
use crate::case::Case;
use crate::draft::Draft;
use crate::fault::Fault;
use crate::line::{Line, Numbers, Part, Piece, line_of};
use indexmap::IndexMap;
use std::alloc::Global;
use std::mem;

/// Reads a file of cases line by line. A case ends where the next one, or a text with a name, begins.
#[derive(Drop)]
pub struct Reader {
    alloc: Global,
    named: IndexMap<String, Vec<u8>>,
    section: Section,
    // The text of the section, up to the line that was read last.
    text: Vec<u8>,
    draft: Option<Draft>,
}

// Where the pieces of a text belong.
#[derive(Drop)]
enum Section {
    None,
    Named(String),
    Part(Part),
}

impl Reader {
    pub fn new(alloc: Global) -> Reader {
        Reader {
            alloc,
            named: IndexMap::new(alloc),
            section: Section::None,
            text: Vec::new(alloc),
            draft: None,
        }
    }

    /// Reads a line, and returns the case that ends before it.
    pub fn take(&mut self, line: &str) -> Result<Option<Case>, Fault> {
        match line_of(line)? {
            Line::Blank => Ok(None),
            Line::Piece(piece) => {
                self.add_piece(piece)?;
                Ok(None)
            }
            Line::Part(part) => {
                self.close_section()?;
                self.section = Section::Part(part);
                Ok(None)
            }
            Line::Field(field) => {
                self.close_section()?;
                let draft = self.draft.as_mut().ok_or(Fault::NoCase)?;
                draft.add_field(self.alloc, field)?;
                Ok(None)
            }
            Line::Text(name) => self.begin_text(name),
            Line::Case(name) => self.begin_case(name),
        }
    }

    // Begins a text with a name, and returns the case that ends before it.
    fn begin_text(&mut self, name: &str) -> Result<Option<Case>, Fault> {
        let name = String::from_str(self.alloc, name)?;
        let ended = self.end()?;
        self.section = Section::Named(name);
        Ok(ended)
    }

    // Begins a case, and returns the one that ends before it.
    fn begin_case(&mut self, name: &str) -> Result<Option<Case>, Fault> {
        let name = String::from_str(self.alloc, name)?;
        let ended = self.end()?;
        self.draft = Some(Draft::new(name));
        Ok(ended)
    }

    /// The case that ends here.
    pub fn end(&mut self) -> Result<Option<Case>, Fault> {
        self.close_section()?;
        match self.draft.take() {
            Some(draft) => Ok(Some(draft.finished(self.alloc)?)),
            None => Ok(None),
        }
    }

    fn add_piece(&mut self, piece: Piece<'_>) -> Result<(), Fault> {
        if matches!(&self.section, Section::None) {
            return Err(Fault::NoText);
        }
        match piece {
            Piece::Whole(text) => {
                self.text.extend_from_slice(text.as_bytes())?;
                self.text.push(b'\n')?;
            }
            Piece::Open(text) => self.text.extend_from_slice(text.as_bytes())?,
            Piece::Repeated(count, text) => repeat(&mut self.text, text.as_bytes(), count)?,
            Piece::Numbered(numbers, text) => {
                number(self.alloc, &mut self.text, text.as_bytes(), numbers)?
            }
            Piece::Named(name) => {
                let named = self.named.get(name).ok_or(Fault::NoSuchText)?;
                self.text.extend_from_slice(named)?;
            }
        }
        Ok(())
    }

    // Puts the text of the section in its place.
    fn close_section(&mut self) -> Result<(), Fault> {
        let text = mem::replace(&mut self.text, Vec::new(self.alloc));
        match mem::replace(&mut self.section, Section::None) {
            Section::None => Ok(()),
            Section::Named(name) => match self.named.insert(name, text)? {
                None => Ok(()),
                Some(_) => Err(Fault::TextTwice),
            },
            Section::Part(part) => {
                let draft = self.draft.as_mut().ok_or(Fault::NoCase)?;
                draft.add_text(part, text)
            }
        }
    }
}

// Adds the bytes, so many times.
fn repeat(text: &mut Vec<u8>, bytes: &[u8], count: u32) -> Result<(), Fault> {
    for _ in 0..count {
        text.extend_from_slice(bytes)?;
    }
    Ok(())
}

// Adds the bytes once for each number: `%` stands for the number, and `~` for the one above it.
fn number(alloc: Global, text: &mut Vec<u8>, bytes: &[u8], numbers: Numbers) -> Result<(), Fault> {
    let mut number = 0u32;
    for _ in 0..numbers.count {
        add_numbered(alloc, text, bytes, number)?;
        number = number
            .saturating_add(numbers.step)
            .checked_rem(numbers.count)
            .unwrap_or(0);
    }
    Ok(())
}

fn add_numbered(alloc: Global, text: &mut Vec<u8>, bytes: &[u8], number: u32) -> Result<(), Fault> {
    let above = number.saturating_add(1);
    for byte in bytes {
        match *byte {
            b'%' => text.extend_from_slice(format!(in alloc; "{number}")?.as_bytes())?,
            b'~' => text.extend_from_slice(format!(in alloc; "{above}")?.as_bytes())?,
            byte => text.push(byte)?,
        }
    }
    Ok(())
}
