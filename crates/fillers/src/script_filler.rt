//! A filler whose replies were handed in.
ghost use Rattle.std.specs.Prelude.{◌≡◌, ◌<◌, ◌+◌, [], length, IfOk, OnErr};
ghost use Rattle.fillers.specs.Books.{reply_at, replies_of, reply_bytes, with_exchange};

use crate::{FillStop, Filler};
use std::alloc::{AllocError, Global};
use std::marker::Model;

/// A filler that gives the replies of a list in their order, whatever it is asked, and no reply after those.
#[derive(Drop)]
pub struct ScriptFiller {
    left: u64,
    replies: Vec<Option<Vec<u8>>>,
    book: Vec<Entry>,
}

// A question that was asked, and the reply to it.
#[derive(Drop)]
struct Entry {
    question: Vec<u8>,
    reply: Option<Vec<u8>>,
}

impl Model for ScriptFiller {
    ghost use Rattle.std.specs.Prelude.{map};
    ghost use Rattle.fillers.specs.Books.{ScriptState, replies_of, reply_bytes};

    ghost Value = { ScriptState };

    ghost view = { λ s. record {
      left = s.left;
      replies = replies_of s.replies.items;
      book = map (λ e. record { question = e.question.items; reply = reply_bytes e.reply }) s.book.items;
    } };
}

impl ScriptFiller {
    /// It may be asked `left` questions, and was asked none. It keeps the allocator of the list, and takes no memory.
    pub fn new(left: u64, replies: Vec<Option<Vec<u8>>>) -> ScriptFiller
        ensures { result ≡ record { left = left; replies = replies_of replies.items; book = [] } }
    {
        ScriptFiller {
            left,
            book: Vec::new(*replies.allocator()),
            replies,
        }
    }
}

// A copy of the reply of a place, where there is one.
fn copy(
    alloc: Global,
    replies: &[Option<Vec<u8>>],
    place: usize,
) -> Result<Option<Vec<u8>>, AllocError>
    ensures { IfOk result (λ reply. reply_bytes reply ≡ reply_at (replies_of replies.now) place) }
{
    match replies.get(place) {
        Some(Some(bytes)) => Ok(Some(bytes.to_vec(alloc)?)),
        _ => Ok(None),
    }
}

impl Filler for ScriptFiller {
    ghost budget = { λ s. s.left };

    ghost book = { λ s. s.book };

    fn left(&self) -> u64
        ensures { result ≡ self.now.left }
    {
        self.left
    }

    fn fill(&mut self, question: &[u8]) -> Result<Option<Vec<u8>>, FillStop>
        requires { 0 < self.old.left }
        ensures budget { IfOk result (λ reply. self.old.left ≡ self.new.left + 1) }
        ensures book { IfOk result (λ reply. self.new.book ≡ with_exchange self.old.book question.now (reply_bytes reply)) }
        ensures budget_kept { OnErr result (self.new.left ≡ self.old.left) }
        ensures book_kept { OnErr result (self.new.book ≡ self.old.book) }

        // The replies come in their order, and none comes after the last one.
        ensures reply { IfOk result (λ reply. reply_bytes reply ≡ reply_at self.old.replies (length self.old.book)) }
        ensures replies { self.new.replies ≡ self.old.replies }
    {
        let alloc = *self.replies.allocator();
        let entry = Entry {
            question: question.to_vec(alloc)?,
            reply: copy(alloc, &self.replies, self.book.len())?,
        };
        let reply = copy(alloc, &self.replies, self.book.len())?;
        self.book.push(entry)?;
        self.left -= 1;
        Ok(reply)
    }
}
