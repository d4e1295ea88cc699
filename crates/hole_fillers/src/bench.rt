//! The fillers that are asked about holes, in their order.
ghost use Rattle.std.specs.Prelude.{◌≡◌, ◌≢◌, ◌<◌, ◌≤◌, ◌+◌, ◌==◌, not, ℕ, List, length, filter, slice_get, map, IfSome, IfOk, OnErr};
ghost use Rattle.fillers.specs.Books.{Exchange, reply_bytes, with_exchange};
ghost use Rattle.hole_fillers.specs.Benches.{budget_at, with_budget, spent, seats, IsAsked};

use fillers::{FillStop, Filler};

/// Fillers in their order. A clause sees each as a seat, by what its budget and its book are.
#[derive(Drop)]
pub struct Bench {
    fillers: Vec<Box<dyn Filler>>,
}

// How many questions a filler may still be asked.
fn left(filler: &Box<dyn Filler>) -> u64
    ensures { result ≡ budget filler.now }
{
    filler.left()
}

// Asks a filler.
fn ask(filler: &mut Box<dyn Filler>, question: &[u8]) -> Result<Option<Vec<u8>>, FillStop>
    requires { 0 < budget filler.old }
    ensures budget { IfOk result (λ reply. budget filler.old ≡ budget filler.new + 1) }
    ensures book { IfOk result (λ reply. book filler.new ≡ with_exchange (book filler.old) question.now (reply_bytes reply)) }
    ensures budget_kept { OnErr result (budget filler.new ≡ budget filler.old) }
    ensures book_kept { OnErr result (book filler.new ≡ book filler.old) }
{
    filler.fill(question)
}

// Keeps the fillers that may be asked, in their order.
fn keep_unspent(fillers: &mut Vec<Box<dyn Filler>>)
    ensures fewer { length fillers.new.items ≤ length fillers.old.items }
    ensures kept { fillers.new.items ≡ filter (λ b. not (budget b == 0)) fillers.old.items }
{
    fillers.retain(
        |filler| -> bool
            ensures { result ≡ not (budget filler.now == 0) }
        { left(filler) > 0 },
    );
}

impl Bench {
    /// These fillers, in their order.
    pub fn new(fillers: Vec<Box<dyn Filler>>) -> Bench
        ensures { seats budget book result.fillers.items ≡ seats budget book fillers.items }
    {
        Bench { fillers }
    }

    /// How many fillers there are.
    pub fn count(&self) -> usize
        ensures { result ≡ length (seats budget book self.now.fillers.items) }
    {
        self.fillers.len()
    }

    /// How many questions the filler of a place, from 0, may still be asked.
    pub fn left(&self, i: usize) -> u64
        requires { i < length (seats budget book self.now.fillers.items) }
        ensures { result ≡ budget_at (seats budget book self.now.fillers.items) i }
    {
        left(&self.fillers[i])
    }

    /// Drops every filler that may be asked no more, and returns how many they were. The others keep their order, budgets and books.
    #[tactic(auto, using(crate::proofs::Seats::kept_after, crate::proofs::Seats::spent_seats))]
    pub fn retire(&mut self) -> u64
        ensures kept { seats budget book self.new.fillers.items ≡ with_budget (seats budget book self.old.fillers.items) }
        ensures count { result ≡ spent (seats budget book self.old.fillers.items) }
    {
        let before = self.fillers.len();
        keep_unspent(&mut self.fillers);
        (before - self.fillers.len()) as u64
    }

    /// Asks the filler of a place, from 0, and returns its reply. No other filler changes, and none does where this one is out of memory.
    pub fn ask(&mut self, i: usize, question: &[u8]) -> Result<Option<Vec<u8>>, FillStop>
        requires place { i < length (seats budget book self.old.fillers.items) }
        requires budget { 0 < budget_at (seats budget book self.old.fillers.items) i }
        ensures asked { IfOk result (λ reply. IsAsked (seats budget book self.old.fillers.items) (seats budget book self.new.fillers.items) i
            question.now (reply_bytes reply)) }
        ensures unchanged { OnErr result (seats budget book self.new.fillers.items ≡ seats budget book self.old.fillers.items) }
    {
        ask(&mut self.fillers[i], question)
    }
}
