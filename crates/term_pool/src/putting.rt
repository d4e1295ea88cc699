//! Putting terms in for leaves: a loop over the cells of a term, parts first.

ghost use Rattle.std.specs.Prelude.{◌≡◌, ℕ, ◌<◌, ◌^◌, List, length, IfOk, IfErr, OnErr};
ghost use Rattle.pair_pool.specs.Trees.{Tree};
ghost use Rattle.pair_pool.specs.Views.{PassView, IsPassOf, IsKnown, Knows};
ghost use Rattle.term_pool.specs.Building.{Interns, Refuses};
ghost use Rattle.term_pool.specs.Images.{joined_image, AreImages};
ghost use Rattle.term_pool.specs.Listings.{tree_of, IsBefore};
ghost use Rattle.term_pool.specs.Putting.{Piece, put, IsImageOfPiece, ArePiecesOfLeaves, HasPieceImages, PlacesPiece, LacksRoomForPiece};
ghost use Rattle.term_pool.specs.Views.{KeepsPass};
ghost use Rattle.term_pool.specs.declared.stop.TermStop.TheVariants as TermStop;

use crate::listing::{Listing, Part};
use crate::lists::pair;
use crate::stop::TermStop;
use pair_pool::{Pass, Pool, PoolFull, Ref};
use std::alloc::Global;
use std::collections::HashMap;

/// A term that is put in for a leaf, or that a term has become, with its height and a mark. What a term becomes is
/// marked as plain where all that is put in is.
#[derive(Clone, Copy)]
pub struct Image {
    pub term: Ref,
    pub height: u64,
    highest: u64,
    pub plain: bool,
}

impl Image {
    /// A term with its height and its mark.
    pub fn new(term: Ref, height: u64, plain: bool) -> Image
        ensures { result ≡ record { term = term; height = height; highest = 0; plain = plain } }
    {
        Image {
            term,
            height,
            highest: 0,
            plain,
        }
    }
}

/// What a part of a cell has become, where the cells up to it have become these: a leaf for which nothing is put in stays.
fn look(images: &HashMap<u32, Image>, made: &[Image], part: Part) -> Image
    requires { IsBefore (length made.now) part }
    ensures { (pass : PassView) (f : ℕ → Piece) (trees : List Tree) → ArePiecesOfLeaves pass images.now f → AreImages pass f made.now trees →
        IsImageOfPiece pass result (put f (tree_of trees part)) }
{
    match part {
        Part::Leaf(k) => match images.get(&k) {
            Some(image) => *image,
            None => Image::new(Ref::leaf(k), 1, true),
        },
        Part::Cell(n) => made[n as usize],
    }
}

/// The cell of what its parts have become.
fn join(pool: &Pool, pass: &mut Pass, first: Image, second: Image) -> Result<Image, PoolFull>
    requires of_pool { IsPassOf pool.now pass.old }
    requires ready { IsKnown pass.old.view first.term × IsKnown pass.old.view second.term × (second.highest < 2 ^ 31) }
    ensures made { IfOk result (λ d. Interns pass.old.view pass.new.view first.term second.term d.term) }
    ensures is { IfOk result (λ d. d ≡ joined_image d.term first second) }
    ensures refused { OnErr result (Refuses pass.old.view pass.new.view first.term second.term) }
    ensures of_pool { IsPassOf pool.now pass.new }
{
    let term = pair(pool, pass, first.term, second.term)?;
    Ok(Image {
        term,
        height: second.highest + 1,
        highest: first.height.max(second.highest),
        plain: first.plain && second.plain,
    })
}

/// What a term becomes where these images are put in for leaves: each of its cells is interned anew, parts first.
pub(crate) fn put(
    alloc: Global,
    pool: &Pool,
    pass: &mut Pass,
    images: &HashMap<u32, Image>,
    r: Ref,
) -> Result<Image, TermStop>
    requires of_pool { IsPassOf pool.now pass.old }
    requires known { IsKnown pass.old.view r }
    requires images { HasPieceImages pass.old.view images.now }
    ensures image { IfOk result (λ d. (f : ℕ → Piece) (t : Tree) → ArePiecesOfLeaves pass.old.view images.now f → Knows pass.old.view r t →
        IsImageOfPiece pass.new.view d (put f t)) }
    ensures placed { (f : ℕ → Piece) → ArePiecesOfLeaves pass.old.view images.now f → PlacesPiece pass.old.view pass.new.view f r }
    ensures full { IfErr result (λ e. e ≡ TermStop.PoolFull → (f : ℕ → Piece) → ArePiecesOfLeaves pass.old.view images.now f →
        LacksRoomForPiece pass.old.view pass.new.view f r) }
    ensures keeps { KeepsPass pass.old.view pass.new.view }
    ensures of_pool { IsPassOf pool.now pass.new }
{
    let mut listing = Listing::new(alloc, pool);
    let whole = listing.add(alloc, pool, pass, r)?;
    let mut made = Vec::new(alloc);
    'cells: for c in &listing.cells {
        pass.one_to_one();
        pass.parts_of_trees();
        pass.lists_in_order();
        let first = look(images, &made, c.first);
        let second = look(images, &made, c.second);
        made.push(join(pool, pass, first, second)?)?;
    }
    Ok(look(images, &made, whole))
}
