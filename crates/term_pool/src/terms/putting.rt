//! Putting terms in for leaves.

ghost use Rattle.std.specs.Prelude.{◌≡◌, ℕ, IfOk, IfErr};
ghost use Rattle.pair_pool.specs.Trees.{Tree};
ghost use Rattle.pair_pool.specs.Views.{IsKnown, Knows};
ghost use Rattle.term_pool.specs.Putting.{Piece, put, IsImageOfPiece, ArePiecesOfLeaves, HasPieceImages, PlacesPiece, LacksRoomForPiece};
ghost use Rattle.term_pool.specs.Views.{KeepsTerms};
ghost use Rattle.term_pool.specs.declared.stop.TermStop.TheVariants as TermStop;

use super::Terms;
use crate::putting::{Image, put};
use crate::stop::TermStop;
use pair_pool::Ref;
use std::alloc::Global;
use std::collections::HashMap;

impl<'a> Terms<'a> {
    /// What a term becomes where these images are put in for leaves, at once; leaves without one stay.
    ///
    /// Where a let's head is no leaf for which something is put in, this is the term with its leaves replaced; what
    /// its lets bind it does not ask. Loads each distinct cell of the term once, looks its two parts up in a table, interns
    /// one cell for each, and takes memory as `height` does. Takes no stack. Refuses where the pool had no room for a cell
    /// of the answer, and when out of memory.
    pub fn with_images(
        &mut self,
        alloc: Global,
        images: &HashMap<u32, Image>,
        r: Ref,
    ) -> Result<Image, TermStop>
        requires known { IsKnown self.old.pass r }
        requires images { HasPieceImages self.old.pass images.now }
        ensures image { IfOk result (λ d. (f : ℕ → Piece) (t : Tree) → ArePiecesOfLeaves self.old.pass images.now f → Knows self.old.pass r t →
            IsImageOfPiece self.new.pass d (put f t)) }

        // It places only cells of its answer's tree, and is refused for lack of room for one.
        ensures placed { (f : ℕ → Piece) → ArePiecesOfLeaves self.old.pass images.now f → PlacesPiece self.old.pass self.new.pass f r }
        ensures full { IfErr result (λ e. e ≡ TermStop.PoolFull → (f : ℕ → Piece) → ArePiecesOfLeaves self.old.pass images.now f →
            LacksRoomForPiece self.old.pass self.new.pass f r) }
        ensures keeps { KeepsTerms self.old self.new }
    {
        put(alloc, self.pool, &mut self.pass, images, r)
    }
}
