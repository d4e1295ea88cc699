//! What a filler is.
ghost use Rattle.std.specs.Prelude.{◌≡◌, ◌<◌, ◌+◌, ℕ, List, IfOk, OnErr};
ghost use Rattle.fillers.specs.Books.{Exchange, reply_bytes, with_exchange};

use std::alloc::{AllocError, AllocFailed};

/// Why a filler gave no answer: it is out of memory.
#[derive(Clone, Copy, Debug, PartialEq, Eq)]
pub enum FillStop {
    Memory,
}

impl From<AllocError> for FillStop {
    fn from(_: AllocError) -> Self {
        FillStop::Memory
    }
}

impl<T: Drop> From<AllocFailed<T>> for FillStop {
    fn from(_: AllocFailed<T>) -> Self {
        FillStop::Memory
    }
}

/// An object that is asked about holes. A question is an SMT-LIB problem, and a reply is to be an Alethe proof of it; but a
/// filler may reply any bytes, or give no reply.
pub trait Filler: Drop {
    /// How many questions it may still be asked.
    ghost budget: { Self → ℕ };

    /// The questions that it was asked, in their order, each with its reply.
    ghost book: { Self → List Exchange };

    /// How many questions it may still be asked.
    fn left(&self) -> u64
        ensures { result ≡ budget self.now };

    /// Replies to a question, or with nothing. It makes room in its book before it replies: out of memory, it counts as not asked.
    fn fill(&mut self, question: &[u8]) -> Result<Option<Vec<u8>>, FillStop>
        requires { 0 < budget self.old }

        ensures budget { IfOk result (λ reply. budget self.old ≡ budget self.new + 1) }
        ensures book { IfOk result (λ reply. book self.new ≡ with_exchange (book self.old) question.now (reply_bytes reply)) }

        ensures budget_kept { OnErr result (budget self.new ≡ budget self.old) }
        ensures book_kept { OnErr result (book self.new ≡ book self.old) };
}
