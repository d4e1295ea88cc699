//! Terms that are equal up to flips are joined.

ghost use Rattle.std.specs.Prelude.{◌≡◌, ◌≢◌, ◌≤◌, ◌+◌, ◌*◌, length, Some, IfOk, IfErr, OnOk};
ghost use Rattle.equality_steps.specs.Blocks.{IsBlockAt};
ghost use Rattle.equality_steps.specs.Given.{AreChained};
ghost use Rattle.equality_steps.specs.Links.{LinkEquates};
ghost use Rattle.equality_steps.specs.Sites.{AreSidesAt};
ghost use Rattle.flip_steps.specs.Memory.{AreForms, IsEquatedBy, IsFormedAs, MeetsWithin, count_of};
ghost use Rattle.flip_steps.specs.Remembering.{GrowsBy};
ghost use Rattle.flip_steps.specs.Stages.{IsEqualityOf, IsMadeFrom, IsMadeToJoin};
ghost use Rattle.flip_steps.specs.Units.{AddsUnits};
ghost use Rattle.term_model.specs.Flips.{EqualUpToFlips};
ghost use Rattle.term_model.specs.Terms.{Term};
ghost use Rattle.term_parts.specs.declared.answers.RuleStop.TheVariants as RuleStop;
ghost use Rattle.term_pool.specs.Placing.{LacksCellOf, PlacesCellsOf};
ghost use Rattle.term_pool.specs.Views.{KeepsTerms, RefersTo};

use crate::exchanging::{are_exchanged, exchange};
use crate::forms::{Formed, Forms};
use crate::walking::find_form;
use equality_steps::{Block, Site, blocks_stay, symm, trans};
use pair_pool::Ref;
use proof_store::Link;
use term_parts::RuleStop;
use term_pool::Terms;

/// Two terms, and what is known of each.
#[derive(Clone, Copy)]
pub(crate) struct Sides {
    pub(crate) a: Ref,
    pub(crate) left: Formed,
    pub(crate) b: Ref,
    pub(crate) right: Formed,
}

/// Adds that the form of a term is equal to it.
fn turn_back(
    at: &Site<'_>,
    terms: &mut Terms<'_>,
    block: &mut Block,
    link: Link,
    r: Ref,
    form: Ref,
) -> Result<Link, RuleStop>
    requires block { IsBlockAt at.now terms.old block.old }
    requires formed { IsFormedAs at.now terms.old block.old r (record { form = form; link = Some link }) }
    ensures linked { IfOk result (λ link. LinkEquates at.now terms.new block.new link form r) }
    ensures grown { OnOk result (GrowsBy at.now terms.new block.old block.new (IsMadeFrom at.now.symbols.now terms.new r) 1) }
    ensures placed { PlacesCellsOf at.now.symbols.now terms.old.pass terms.new.pass (IsMadeFrom at.now.symbols.now terms.new r) }
    ensures full { IfErr result (λ e. e ≡ RuleStop.PoolFull →
        LacksCellOf at.now.symbols.now terms.new.pass (IsMadeFrom at.now.symbols.now terms.new r)) }
    ensures keeps { KeepsTerms terms.old terms.new }
{
    let linked = symm(at, terms, block, link, r, form)?;
    Ok(linked)
}

/// Adds that two terms are equal, by a chain of links.
fn chain(
    at: &Site<'_>,
    terms: &mut Terms<'_>,
    block: &mut Block,
    links: &[Link],
    a: Ref,
    b: Ref,
) -> Result<Link, RuleStop>
    requires block { IsBlockAt at.now terms.old block.old }
    requires chained { AreChained at.now terms.old block.old links.now a b }
    ensures linked { IfOk result (λ link. LinkEquates at.now terms.new block.new link a b) }
    ensures grown { OnOk result (GrowsBy at.now terms.new block.old block.new (IsEqualityOf at.now.symbols.now terms.new a b) 1) }
    ensures placed { PlacesCellsOf at.now.symbols.now terms.old.pass terms.new.pass (IsEqualityOf at.now.symbols.now terms.new a b) }
    ensures full { IfErr result (λ e. e ≡ RuleStop.PoolFull →
        LacksCellOf at.now.symbols.now terms.new.pass (IsEqualityOf at.now.symbols.now terms.new a b)) }
    ensures keeps { KeepsTerms terms.old terms.new }
{
    let linked = trans(at, terms, block, links, a, b)?;
    Ok(linked)
}

/// A link that says that two different terms which have one form are equal, by way of it.
fn meet(
    at: &Site<'_>,
    terms: &mut Terms<'_>,
    block: &mut Block,
    sides: &Sides,
) -> Result<Option<Link>, RuleStop>
    requires block { IsBlockAt at.now terms.old block.old }
    requires left { IsFormedAs at.now terms.old block.old sides.now.a sides.now.left }
    requires right { IsFormedAs at.now terms.old block.old sides.now.b sides.now.right }
    requires one { sides.now.left.form ≡ sides.now.right.form }
    requires apart { sides.now.a ≢ sides.now.b }
    ensures joined { IfOk result (λ link. IsEquatedBy at.now terms.new block.new link sides.now.a sides.now.b) }
    ensures grown { OnOk result (GrowsBy at.now terms.new block.old block.new (IsMadeToJoin at.now.symbols.now terms.new sides.now.a sides.now.b) 2) }
    ensures placed { PlacesCellsOf at.now.symbols.now terms.old.pass terms.new.pass (IsMadeToJoin at.now.symbols.now terms.new sides.now.a sides.now.b) }
    ensures full { IfErr result (λ e. e ≡ RuleStop.PoolFull →
        LacksCellOf at.now.symbols.now terms.new.pass (IsMadeToJoin at.now.symbols.now terms.new sides.now.a sides.now.b)) }
    ensures keeps { KeepsTerms terms.old terms.new }
{
    at.symbols.leaves_differ();
    blocks_stay();
    let Some(back) = sides.right.link else {
        return Ok(sides.left.link);
    };
    let turned = turn_back(at, terms, block, back, sides.b, sides.right.form)?;
    let Some(first) = sides.left.link else {
        return Ok(Some(turned));
    };
    terms.one_to_one();
    let joined = chain(at, terms, block, &[first, turned], sides.a, sides.b)?;
    Ok(Some(joined))
}

impl Forms {
    /// A link that says `(= a b)`, of terms that are equal up to flips: where the order of the two sides of an equality does not count,
    /// at any depth outside lets. None where they are one. The steps that it rests on are added to the block: each term that stands in
    /// a or b outside lets is equal to its form (by `cong`, `eq_symmetric` and `trans`), a and b have one form, and `symm` and `trans`
    /// join them. Of `(= s q)` and `(= q s)` it is one step, by `eq_symmetric`.
    ///
    /// Adds at most three steps for each cell whose form was not remembered, and two more. Makes these equalities and the terms that
    /// they equate, and refuses where the pool has no room for a cell of one, and when out of memory.
    ///
    /// Takes time in proportion to the cells of a and b whose forms were not remembered; of `(= s q)` and `(= q s)` it looks no further
    /// than at the references of s and q.
    pub fn join(
        &mut self,
        at: &Site<'_>,
        terms: &mut Terms<'_>,
        block: &mut Block,
        a: Ref,
        b: Ref,
    ) -> Result<Option<Link>, RuleStop>
        requires block { IsBlockAt at.now terms.old block.old }
        requires forms { AreForms at.now terms.old block.old self.old }
        requires sides { AreSidesAt at.now terms.old a b }
        requires equal { (t u : Term) → RefersTo at.now.symbols.now terms.old a t → RefersTo at.now.symbols.now terms.old b u → EqualUpToFlips t u }
        ensures joined { IfOk result (λ link. IsEquatedBy at.now terms.new block.new link a b) }
        ensures block { OnOk result (IsBlockAt at.now terms.new block.new) }
        ensures forms { OnOk result (AreForms at.now terms.new block.new self.new) }
        ensures units { OnOk result (AddsUnits at.now terms.new block.old block.new (IsMadeToJoin at.now.symbols.now terms.new a b)) }
        ensures few { OnOk result (length block.new + 3 * count_of self.old ≤ length block.old + 3 * count_of self.new + 2) }
        ensures met { OnOk result (MeetsWithin at.now.symbols.now terms.new a b self.old self.new) }

        // It places only cells of what is made to join them, and is refused only for lack of room for one.
        ensures placed { PlacesCellsOf at.now.symbols.now terms.old.pass terms.new.pass (IsMadeToJoin at.now.symbols.now terms.new a b) }
        ensures full { IfErr result (λ e. e ≡ RuleStop.PoolFull →
            LacksCellOf at.now.symbols.now terms.new.pass (IsMadeToJoin at.now.symbols.now terms.new a b)) }
        ensures keeps { KeepsTerms terms.old terms.new }
    {
        blocks_stay();
        if a.number() == b.number() {
            return Ok(None);
        }
        let exchanged = are_exchanged(at, terms, a, b);
        if exchanged {
            let link = exchange(at, terms, block, a, b)?;
            return Ok(Some(link));
        }
        self.join_by_forms(at, terms, block, a, b)
    }

    /// The same of two different terms, by their forms.
    fn join_by_forms(
        &mut self,
        at: &Site<'_>,
        terms: &mut Terms<'_>,
        block: &mut Block,
        a: Ref,
        b: Ref,
    ) -> Result<Option<Link>, RuleStop>
        requires block { IsBlockAt at.now terms.old block.old }
        requires forms { AreForms at.now terms.old block.old self.old }
        requires sides { AreSidesAt at.now terms.old a b }
        requires equal { (t u : Term) → RefersTo at.now.symbols.now terms.old a t → RefersTo at.now.symbols.now terms.old b u → EqualUpToFlips t u }
        requires apart { a ≢ b }
        ensures joined { IfOk result (λ link. IsEquatedBy at.now terms.new block.new link a b) }
        ensures block { OnOk result (IsBlockAt at.now terms.new block.new) }
        ensures forms { OnOk result (AreForms at.now terms.new block.new self.new) }
        ensures units { OnOk result (AddsUnits at.now terms.new block.old block.new (IsMadeToJoin at.now.symbols.now terms.new a b)) }
        ensures few { OnOk result (length block.new + 3 * count_of self.old ≤ length block.old + 3 * count_of self.new + 2) }
        ensures met { OnOk result (MeetsWithin at.now.symbols.now terms.new a b self.old self.new) }
        ensures placed { PlacesCellsOf at.now.symbols.now terms.old.pass terms.new.pass (IsMadeToJoin at.now.symbols.now terms.new a b) }
        ensures full { IfErr result (λ e. e ≡ RuleStop.PoolFull →
            LacksCellOf at.now.symbols.now terms.new.pass (IsMadeToJoin at.now.symbols.now terms.new a b)) }
        ensures keeps { KeepsTerms terms.old terms.new }
    {
        at.symbols.leaves_differ();
        blocks_stay();
        let left = find_form(at, terms, block, self, a)?;
        let right = find_form(at, terms, block, self, b)?;
        terms.one_to_one();
        let sides = Sides { a, left, b, right };
        let joined = meet(at, terms, block, &sides)?;
        Ok(joined)
    }
}
