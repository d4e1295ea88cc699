//! Putting terms in for the variables of a term without lets.

ghost use Rattle.std.specs.Prelude.{◌≡◌, ◌≢◌, ℕ, true, nat_eq, Some, IfOk, IfErr, OnOk};
ghost use Rattle.std.specs.HashMap.{get};
ghost use Rattle.sym_table.specs.Table.{Table, IsTable};
ghost use Rattle.term_pool.specs.Views.{TermsView, KeepsTerms};
ghost use Rattle.term_expansion.specs.Images.{IsSomeReplacement, IsSomeValue};
ghost use Rattle.term_pool.specs.Placing.{PlacesTerm, LacksRoomFor};
ghost use Rattle.term_expansion.specs.PutFor.{ArePutFor};
ghost use Rattle.rule_model.specs.Replacement.{Replacement, replaced};
ghost use Rattle.problem_text.specs.TypedTerms.{Typed};
ghost use Rattle.term_expansion.specs.Values.{IsValue, IsReplacement};
ghost use Rattle.term_pool.specs.declared.stop.TermStop.TheVariants as TermStop;
ghost use Rattle.term_expansion.specs.SymbolsAndTerms.{both};

use crate::values::{Bound, Value};
use pair_pool::Memory;
use std::alloc::Global;
use std::collections::HashMap;
use sym_table::Symbols;
use term_pool::{Image, TermStop, Terms};

/// Puts in the value of a variable, in the place of what was there.
fn put_image(images: &mut HashMap<u32, Image>, bound: &Bound) -> Result<(), Memory>
    ensures here { OnOk result (get nat_eq images.new bound.now.variable ≡ Some
        (record { term = bound.now.value.term; height = bound.now.value.height; highest = 0; plain = bound.now.value.plain })) }
    ensures others { OnOk result ((k : ℕ) → k ≢ bound.now.variable → get nat_eq images.new k ≡ get nat_eq images.old k) }
{
    let value = &bound.value;
    let image = Image::new(value.term, value.height, value.plain);
    let _ = images.insert(bound.variable, image)?;
    Ok(())
}

/// What a replacement puts in, by leaves. Of two values for one variable the first counts, so the list is gone through
/// from its end.
fn images_of(alloc: Global, replacement: &[Bound]) -> Result<HashMap<u32, Image>, Memory>
    ensures { IfOk result (λ images. (s : Table) (v : TermsView) (q : Replacement) → IsTable s → IsReplacement (both s v) replacement.now q →
        ArePutFor (both s v) images q) }
{
    let mut images = HashMap::new(alloc);
    let mut at = replacement.len();
    'bounds: while at > 0 {
        at -= 1;
        put_image(&mut images, &replacement[at])?;
    }
    Ok(images)
}

/// The term `what`, which has no let, with the terms of a replacement put in for its variables at once.
///
/// Goes through each distinct cell of the term once, and through no cell of what is put in. Takes memory for each of
/// the cells, and for each item of the replacement; where that is empty, the answer is the term, at once. Refuses
/// when out of memory, and where the pool had no room for a cell of the answer.
pub fn put_in_plain(
    alloc: Global,
    symbols: &Symbols,
    terms: &mut Terms<'_>,
    replacement: &[Bound],
    what: Value,
) -> Result<Value, TermStop>
    requires what { IsSomeValue (both symbols.now terms.old) what }
    requires plain { what.plain ≡ true }
    requires replacement { IsSomeReplacement (both symbols.now terms.old) replacement.now }
    ensures value { (t : Typed) (q : Replacement) → IsValue (both symbols.now terms.old) what t →
        IsReplacement (both symbols.now terms.old) replacement.now q →
        IfOk result (λ c. IsValue (both symbols.now terms.new) c (record { tree = replaced q t.tree; sort = t.sort })) }

    // It places only cells of its answer, and is refused for lack of room for one.
    ensures placed { (t : Typed) (q : Replacement) → IsValue (both symbols.now terms.old) what t →
        IsReplacement (both symbols.now terms.old) replacement.now q → PlacesTerm symbols.now terms.old.pass terms.new.pass (replaced q t.tree) }
    ensures full { (t : Typed) (q : Replacement) → IsValue (both symbols.now terms.old) what t →
        IsReplacement (both symbols.now terms.old) replacement.now q →
        IfErr result (λ e. e ≡ TermStop.PoolFull → LacksRoomFor symbols.now terms.new.pass (replaced q t.tree)) }
    ensures keeps { KeepsTerms terms.old terms.new }
{
    symbols.leaves_differ();
    if replacement.is_empty() {
        return Ok(what);
    }
    let images = images_of(alloc, replacement)?;
    match terms.with_images(alloc, &images, what.term) {
        Ok(image) => Ok(Value {
            term: image.term,
            sort: what.sort,
            height: image.height,
            plain: image.plain,
        }),
        Err(stop) => Err(stop),
    }
}
