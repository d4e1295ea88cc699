//! What the letters of a schema stand for.

ghost use Rattle.std.specs.Prelude.{◌≡◌, ◌↔◌, IsTrue, IfNone, IfSome, None};
ghost use Rattle.schema_match.specs.Letters.{slot};
ghost use Rattle.schema_match.specs.Reads.{with_letter};

use pair_pool::Ref;
use rule_model::Letter;

/// The terms that the letters stand for, as far as they are settled.
#[derive(Clone, Copy)]
pub struct Letters {
    a: Option<Ref>,
    b: Option<Ref>,
    c: Option<Ref>,
    d: Option<Ref>,
}

impl Letters {
    /// No letter is settled.
    pub fn new() -> Letters
        ensures { result ≡ record { a = None; b = None; c = None; d = None } }
    {
        Letters {
            a: None,
            b: None,
            c: None,
            d: None,
        }
    }

    /// What a letter stands for, if it is settled.
    pub fn get(&self, letter: Letter) -> Option<Ref>
        ensures { result ≡ slot self.now letter }
    {
        match letter {
            Letter::A => self.a,
            Letter::B => self.b,
            Letter::C => self.c,
            Letter::D => self.d,
        }
    }

    /// Lets a letter stand for a term.
    fn set(&mut self, letter: Letter, r: Ref)
        ensures { self.new ≡ with_letter self.old letter r }
    {
        match letter {
            Letter::A => self.a = Some(r),
            Letter::B => self.b = Some(r),
            Letter::C => self.c = Some(r),
            Letter::D => self.d = Some(r),
        }
    }

    /// Whether a letter may stand for a term: it stands for it already, or for none, and then for this one from now on.
    pub(crate) fn settle(&mut self, letter: Letter, r: Ref) -> bool
        ensures settled { IfSome (slot self.old letter) (λ q. (self.new ≡ self.old) × (IsTrue result ↔ (q ≡ r))) }
        ensures new { IfNone (slot self.old letter) ((self.new ≡ with_letter self.old letter r) × IsTrue result) }
    {
        match self.get(letter) {
            Some(settled) => settled == r,
            None => {
                self.set(letter, r);
                true
            }
        }
    }
}
