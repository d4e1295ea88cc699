//! A sink that keeps a text in memory, and never fails.
ghost use Rattle.std.specs.Prelude.{Some};

use file_ports::{OutStop, Sink};

/// A text, which grows as it is written to.
#[derive(Drop)]
pub(crate) struct TextSink {
    pub(crate) text: Vec<u8>,
}

impl Sink for TextSink {
    ghost written = { λ sink. Some sink.text.items };

    ghost faults = { λ sink. 0 };

    fn write(&mut self, piece: &[u8]) -> Result<usize, OutStop> {
        self.text.extend_from_slice(piece)?;
        Ok(piece.len())
    }
}
