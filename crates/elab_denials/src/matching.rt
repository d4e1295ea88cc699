//! Two applications of one head whose arguments are linked, by equalities that a clause denies or as they are equal up to flips.

ghost use Rattle.std.specs.Prelude.{◌≡◌, ◌≢◌, ◌↔◌, ◌<◌, [], ◌∷◌, ℕ, List, Option, All, zip, length, slice_index_or, IsTrue, IfOk, IfSome, IfNone};
ghost use Rattle.std.specs.List.{AllZip};
ghost use Rattle.elab_denials.specs.Matching.{AreCrosswise, AreLinkedAt, AreLinkedTerms, AreStraight, HasHead, IsMatchOf, Links};
ghost use Rattle.equality_ways.specs.Tables.{IsSearchable, IsTableOf};
ghost use Rattle.pair_pool.specs.Views.{IsKnown};
ghost use Rattle.rule_model.specs.Congruence.{AreCongruent, HangTogetherDenied, Head, applied};
ghost use Rattle.rule_model.specs.declared.rules.Mode.TheVariants as Mode;
ghost use Rattle.term_model.specs.Flips.{equality};
ghost use Rattle.term_model.specs.Terms.{Term};
ghost use Rattle.term_pool.specs.Reading.{IsLet, arguments_of};
ghost use Rattle.term_pool.specs.Views.{IsTerm, RefersTo, ReferToAll};

use equality_steps::Site;
use equality_ways::{Pair, Table, find};
use pair_pool::{Memory, Ref};
use sym_table::Symbols;
use term_parts::sides_of;
use term_pool::Terms;

/// Two applications of one head, and the pairs of their arguments, which are linked: those at one place, or where `crossed`, those of
/// two equalities, the second one of the left one with the first one of the right one, and the other two.
#[derive(Drop)]
pub(crate) struct Match {
    pub(crate) left: Ref,
    pub(crate) right: Ref,
    pub(crate) pairs: Vec<Pair>,
    pub(crate) crossed: bool,
}

/// The head that two terms have in common.
fn common_head(symbols: &Symbols, terms: &mut Terms<'_>, left: Ref, right: Ref) -> Option<u32>
    requires left { IsTerm symbols.now terms.old left }
    requires right { IsTerm symbols.now terms.old right }
    ensures head { IfSome result (λ k. (t u : Term) → RefersTo symbols.now terms.old left t → RefersTo symbols.now terms.old right u →
        HasHead symbols.now k t × HasHead symbols.now k u) }
    ensures other { IfNone result ((t u : Term) → RefersTo symbols.now terms.old left t → RefersTo symbols.now terms.old right u →
        (head : Head) (ts us : List Term) → t ≡ applied head ts → u ≢ applied head us) }
    ensures same { terms.new ≡ terms.old }
{
    symbols.leaves_differ();
    let Some(head) = terms.head(left) else {
        return None;
    };
    let Some(other) = terms.head(right) else {
        return None;
    };
    if head != other {
        return None;
    }
    Some(head)
}

/// The arguments of an application, in order.
fn arguments_of(at: &Site<'_>, terms: &mut Terms<'_>, r: Ref) -> Result<Vec<Ref>, Memory>
    requires { IsKnown terms.old.pass r }
    ensures arguments { IfOk result (λ list. (t : Term) → RefersTo at.now.symbols.now terms.old r t → (IsLet t → ⊥) →
        ReferToAll at.now.symbols.now terms.old list.items (arguments_of t)) }
    ensures same { terms.new ≡ terms.old }
{
    let mut list = Vec::new(at.alloc);
    terms.arguments(r, &mut list)?;
    Ok(list)
}

/// Whether two terms are the sides of an equality of the table, or equal up to flips.
fn is_linked(
    at: &Site<'_>,
    terms: &mut Terms<'_>,
    table: &Table,
    a: Ref,
    b: Ref,
) -> Result<bool, Memory>
    requires searchable { IsSearchable table.now.entries.items }
    requires left { IsTerm at.now.symbols.now terms.old a }
    requires right { IsTerm at.now.symbols.now terms.old b }
    ensures linked { (sides : List (Option (ℕ × ℕ))) → IsTableOf sides table.now →
        IfOk result (λ yes. IsTrue yes ↔ AreLinkedAt at.now terms.old sides a b) }
    ensures same { terms.new ≡ terms.old }
{
    match find(table, a, b) {
        Some(_) => Ok(true),
        None => {
            let equal = terms.same_up_to_flips(at.alloc, at.symbols, a, b)?;
            Ok(equal)
        }
    }
}

/// The reference at a place.
fn item(list: &[Ref], place: usize) -> Ref
    requires { place < length list.now }
    ensures { (d : ℕ) → slice_index_or list.now place d ≡ result }
{
    list[place]
}

/// The pairs of the items at each place, where all are linked and there are as many of the one list as of the other.
fn linked_pairs(
    at: &Site<'_>,
    terms: &mut Terms<'_>,
    table: &Table,
    lefts: &[Ref],
    rights: &[Ref],
) -> Result<Option<Vec<Pair>>, Memory>
    requires searchable { IsSearchable table.now.entries.items }
    requires lefts { All (IsTerm at.now.symbols.now terms.old) lefts.now }
    requires rights { All (IsTerm at.now.symbols.now terms.old) rights.now }
    ensures pairs { IfOk result (λ found. IfSome found (λ pairs. pairs.items ≡ zip lefts.now rights.now)) }
    ensures linked { (sides : List (Option (ℕ × ℕ))) → IsTableOf sides table.now →
        IfOk result (λ found. IfSome found (λ pairs. AllZip (AreLinkedAt at.now terms.old sides) lefts.now rights.now)) }
    ensures none { (sides : List (Option (ℕ × ℕ))) → IsTableOf sides table.now →
        IfOk result (λ found. IfNone found (¬ AllZip (AreLinkedAt at.now terms.old sides) lefts.now rights.now)) }
    ensures same { terms.new ≡ terms.old }
{
    if lefts.len() != rights.len() {
        return Ok(None);
    }
    let mut pairs = Vec::new(at.alloc);
    'places: for place in 0..lefts.len() {
        let left = item(lefts, place);
        let right = item(rights, place);
        let linked = is_linked(at, terms, table, left, right)?;
        if !linked {
            return Ok(None);
        }
        pairs.push(Pair::new(left, right))?;
    }
    Ok(Some(pairs))
}

/// The pairs of arguments of two applications of one head, where these are linked place by place.
fn straight(
    at: &Site<'_>,
    terms: &mut Terms<'_>,
    table: &Table,
    left: Ref,
    right: Ref,
) -> Result<Option<Vec<Pair>>, Memory>
    requires searchable { IsSearchable table.now.entries.items }
    requires left { IsTerm at.now.symbols.now terms.old left }
    requires right { IsTerm at.now.symbols.now terms.old right }
    ensures straight { (sides : List (Option (ℕ × ℕ))) → IsTableOf sides table.now →
        IfOk result (λ found. IfSome found (λ pairs. AreStraight at.now terms.old sides left right pairs.items)) }
    ensures none { (sides : List (Option (ℕ × ℕ))) → IsTableOf sides table.now →
        IfOk result (λ found. IfNone found ((head : Head) (ts us : List Term) → ts ≢ [] → RefersTo at.now.symbols.now terms.old left (applied head ts) →
        RefersTo at.now.symbols.now terms.old right (applied head us) → ¬ AllZip (AreLinkedTerms at.now terms.old sides) ts us)) }
    ensures same { terms.new ≡ terms.old }
{
    at.symbols.leaves_differ();
    let Some(_head) = common_head(at.symbols, terms, left, right) else {
        return Ok(None);
    };
    let lefts = arguments_of(at, terms, left)?;
    let rights = arguments_of(at, terms, right)?;
    if lefts.is_empty() {
        return Ok(None);
    }
    let found = linked_pairs(at, terms, table, &lefts, &rights)?;
    Ok(found)
}

/// The pairs of the sides of two equalities, where these are linked crosswise.
fn crosswise(
    at: &Site<'_>,
    terms: &mut Terms<'_>,
    table: &Table,
    left: Ref,
    right: Ref,
) -> Result<Option<Vec<Pair>>, Memory>
    requires searchable { IsSearchable table.now.entries.items }
    requires left { IsTerm at.now.symbols.now terms.old left }
    requires right { IsTerm at.now.symbols.now terms.old right }
    ensures crosswise { (sides : List (Option (ℕ × ℕ))) → IsTableOf sides table.now →
        IfOk result (λ found. IfSome found (λ pairs. AreCrosswise at.now terms.old sides left right pairs.items)) }
    ensures none { (sides : List (Option (ℕ × ℕ))) → IsTableOf sides table.now →
        IfOk result (λ found. IfNone found ((a b x y : Term) → RefersTo at.now.symbols.now terms.old left (equality a b) →
        RefersTo at.now.symbols.now terms.old right (equality x y) → AreLinkedTerms at.now terms.old sides b x →
        ¬ AreLinkedTerms at.now terms.old sides a y)) }
    ensures same { terms.new ≡ terms.old }
{
    at.symbols.leaves_differ();
    terms.equal_exactly_where_terms_are();
    let Some(one) = sides_of(at.symbols, terms, left) else {
        return Ok(None);
    };
    let Some(other) = sides_of(at.symbols, terms, right) else {
        return Ok(None);
    };
    let found = linked_pairs(at, terms, table, &[one.1, one.0], &[other.0, other.1])?;
    Ok(found)
}

/// Two terms as applications of one head whose arguments are linked, place by place or crosswise, where they are that.
pub(crate) fn matched(
    at: &Site<'_>,
    terms: &mut Terms<'_>,
    table: &Table,
    left: Ref,
    right: Ref,
) -> Result<Option<Match>, Memory>
    requires searchable { IsSearchable table.now.entries.items }
    requires left { IsTerm at.now.symbols.now terms.old left }
    requires right { IsTerm at.now.symbols.now terms.old right }
    ensures matched { (sides : List (Option (ℕ × ℕ))) → IsTableOf sides table.now →
        IfOk result (λ found. IfSome found (IsMatchOf at.now terms.old sides left right)) }
    ensures none { (sides : List (Option (ℕ × ℕ))) (premises : List (List Term)) (t u : Term) → IsTableOf sides table.now →
        Links at.now terms.old sides premises → RefersTo at.now.symbols.now terms.old left t → RefersTo at.now.symbols.now terms.old right u →
        IfOk result (λ found. IfNone found (¬ AreCongruent (HangTogetherDenied Mode.Check) premises t u)) }
    ensures same { terms.new ≡ terms.old }
{
    at.symbols.leaves_differ();
    terms.equal_exactly_where_terms_are();
    let found = straight(at, terms, table, left, right)?;
    if let Some(pairs) = found {
        return Ok(Some(Match {
            left,
            right,
            pairs,
            crossed: false,
        }));
    }
    let other = crosswise(at, terms, table, left, right)?;
    let Some(pairs) = other else {
        return Ok(None);
    };
    Ok(Some(Match {
        left,
        right,
        pairs,
        crossed: true,
    }))
}
