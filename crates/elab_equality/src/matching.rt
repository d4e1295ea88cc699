//! Equal arguments.

ghost use Rattle.std.specs.Prelude.{◌≡◌, ◌≢◌, ◌+◌, ◌*◌, ◌∷◌, [], ℕ, List, length, IfOk, IfErr, IfSome, IfNone, OnOk};
ghost use Rattle.std.specs.Bool.{OnTrue, OnFalse};
ghost use Rattle.elab_equality.specs.Linked.{ArePremises, EndsIn, IsGiven};
ghost use Rattle.elab_equality.specs.Matching.{AreApplications, AreCrossedArguments, AreLinkedArguments, AreMatchedArguments, IsCrossed, IsMatched};
ghost use Rattle.elab_equality.specs.Work.{IsDone, IsWork};
ghost use Rattle.equality_blocks.specs.Blocks.{IsBlockFor};
ghost use Rattle.equality_blocks.specs.Commands.{IsToElaborate, rule_of_command};
ghost use Rattle.equality_blocks.specs.Made.{IsPlacedFor};
ghost use Rattle.equality_steps.specs.Links.{LinkEquates};
ghost use Rattle.pair_pool.specs.Views.{IsKnown};
ghost use Rattle.rule_model.specs.Congruence.{IsLinked};
ghost use Rattle.rule_model.specs.declared.rules.Rule.TheVariants as Rule;
ghost use Rattle.term_model.specs.Flips.{equality};
ghost use Rattle.term_model.specs.Terms.{Term};
ghost use Rattle.term_parts.specs.declared.answers.RuleStop.TheVariants as RuleStop;
ghost use Rattle.term_pool.specs.Placing.{LacksCellOf, PlacesCellsOf};
ghost use Rattle.term_pool.specs.Reading.{IsLet, arguments_of};
ghost use Rattle.term_pool.specs.Views.{IsTerm, KeepsTerms, RefersTo, ReferToAll};

use crate::given::given;
use crate::work::Work;
use equality_blocks::{commands_stay, sites_of_commands};
use equality_steps::{Block, Site, blocks_stay, equality_of};
use equality_ways::{Table, find};
use pair_pool::{Memory, Ref};
use proof_store::{Link, commands_correspond, terms_correspond};
use term_parts::{RuleStop, sides_of};
use term_pool::Terms;

/// The two sides of the clause, which are applications of one head, and their arguments in order.
#[derive(Drop)]
struct Applications {
    left: Ref,
    right: Ref,
    lefts: Vec<Ref>,
    rights: Vec<Ref>,
}

/// Two applications whose arguments are linked place by place.
#[derive(Clone, Copy)]
struct Matched<'a> {
    left: Ref,
    right: Ref,
    lefts: &'a [Ref],
    rights: &'a [Ref],
}

/// `(= a b)` and `(= c d)`, whose sides are linked crosswise.
#[derive(Clone, Copy)]
struct Crossed {
    left: Ref,
    right: Ref,
    a: Ref,
    b: Ref,
    c: Ref,
    d: Ref,
}

/// The arguments of an application, in order.
fn arguments_of(at: &Site<'_>, terms: &mut Terms<'_>, r: Ref) -> Result<Vec<Ref>, Memory>
    requires { IsKnown terms.old.pass r }
    ensures arguments { IfOk result (λ list. (t : Term) → RefersTo at.now.symbols.now terms.old r t → (IsLet t → ⊥) →
        ReferToAll at.now.symbols.now terms.old list.items (arguments_of t)) }
    ensures same { terms.new ≡ terms.old }
{
    let mut list = Vec::new(at.alloc);
    terms.arguments(r, &mut list)?;
    Ok(list)
}

/// The sides of the clause.
fn read(at: &Site<'_>, terms: &mut Terms<'_>) -> Result<Applications, Memory>
    requires job { IsToElaborate at.now terms.old }
    requires rule { rule_of_command at.now ≡ Rule.Cong }
    ensures read { IfOk result (AreApplications at.now terms.old) }
    ensures same { terms.new ≡ terms.old }
{
    commands_correspond();
    terms_correspond();
    at.symbols.leaves_differ();
    terms.one_to_one();
    let literal = at.proof.clause(at.command)[0];
    let sides = sides_of(at.symbols, terms, literal).unwrap();
    let (left, right) = sides;
    let lefts = arguments_of(at, terms, left)?;
    let rights = arguments_of(at, terms, right)?;
    Ok(Applications {
        left,
        right,
        lefts,
        rights,
    })
}

/// Whether two arguments are equal up to flips, or the sides of a premise.
fn is_linked(
    at: &Site<'_>,
    terms: &mut Terms<'_>,
    given: &Table,
    a: Ref,
    b: Ref,
) -> Result<bool, Memory>
    requires given { IsGiven at.now terms.old given.now }
    requires left { IsTerm at.now.symbols.now terms.old a }
    requires right { IsTerm at.now.symbols.now terms.old b }
    ensures linked { IfOk result (λ yes. OnTrue yes ((ps : List (List Term)) (t u : Term) → ArePremises at.now terms.old ps →
        RefersTo at.now.symbols.now terms.old a t → RefersTo at.now.symbols.now terms.old b u → IsLinked ps t u)) }
    ensures other { IfOk result (λ yes. OnFalse yes ((ps : List (List Term)) (t u : Term) → ArePremises at.now terms.old ps →
        RefersTo at.now.symbols.now terms.old a t → RefersTo at.now.symbols.now terms.old b u → ¬ IsLinked ps t u)) }
    ensures same { terms.new ≡ terms.old }
{
    at.symbols.leaves_differ();
    terms.one_to_one();
    match find(given, a, b) {
        Some(_) => Ok(true),
        None => terms.same_up_to_flips(at.alloc, at.symbols, a, b),
    }
}

/// The two items of a list that has two.
fn two(list: &[Ref]) -> Option<(Ref, Ref)>
    ensures two { IfSome result (λ p. list.now ≡ p.0 ∷ p.1 ∷ []) }
    ensures other { IfNone result ((a b : ℕ) → list.now ≢ a ∷ b ∷ []) }
{
    let [first, second] = list else {
        return None;
    };
    Some((*first, *second))
}

/// Whether arguments are linked place by place. Else they are those of two equalities, linked crosswise.
fn are_matched(
    at: &Site<'_>,
    terms: &mut Terms<'_>,
    given: &Table,
    lefts: &[Ref],
    rights: &[Ref],
) -> Result<bool, Memory>
    requires given { IsGiven at.now terms.old given.now }
    requires linked { AreLinkedArguments at.now terms.old lefts.now rights.now }
    ensures matched { IfOk result (λ yes. OnTrue yes (AreMatchedArguments at.now terms.old lefts.now rights.now)) }
    ensures crossed { IfOk result (λ yes. OnFalse yes (AreCrossedArguments at.now terms.old lefts.now rights.now)) }
    ensures same { terms.new ≡ terms.old }
{
    let Some(left) = two(lefts) else {
        return Ok(true);
    };
    let Some(right) = two(rights) else {
        return Ok(true);
    };
    let first = is_linked(at, terms, given, left.0, right.0)?;
    if !first {
        return Ok(false);
    }
    let second = is_linked(at, terms, given, left.1, right.1)?;
    Ok(second)
}

impl Work {
    /// Adds `(= a b)` of two applications whose arguments are linked place by place.
    fn match_all(
        &mut self,
        at: &Site<'_>,
        terms: &mut Terms<'_>,
        given: &Table,
        x: &Matched<'_>,
    ) -> Result<Link, RuleStop>
        requires work { IsWork at.now terms.old self.old }
        requires given { IsGiven at.now terms.old given.now }
        requires matched { IsMatched at.now terms.old x.now }
        ensures linked { IfOk result (λ new. LinkEquates at.now terms.new self.new.block new x.now.left x.now.right) }
        ensures ends { OnOk result (EndsIn at.now terms.new self.new.block x.now.left x.now.right) }
        ensures done { IsDone at.now terms.old terms.new self.old self.new (2 * length x.now.lefts.now + 1) result }
    {
        at.symbols.leaves_differ();
        let links = self.link_all(at, terms, given, x.lefts, x.rights)?;
        terms.one_to_one();
        let linked = self.cong(at, terms, &links, x.left, x.right)?;
        Ok(linked)
    }

    /// Adds `(= (= a b) (= b a))`, and returns `(= b a)` with the link.
    fn turn(
        &mut self,
        at: &Site<'_>,
        terms: &mut Terms<'_>,
        x: &Crossed,
    ) -> Result<(Ref, Link), RuleStop>
        requires work { IsWork at.now terms.old self.old }
        requires crossed { IsCrossed at.now terms.old x.now }
        ensures turned { IfOk result (λ r. (t u : Term) → RefersTo at.now.symbols.now terms.old x.now.a t →
            RefersTo at.now.symbols.now terms.old x.now.b u → RefersTo at.now.symbols.now terms.new r.0 (equality u t)) }
        ensures linked { IfOk result (λ r. LinkEquates at.now terms.new self.new.block r.1 x.now.left r.0) }
        ensures done { IsDone at.now terms.old terms.new self.old self.new 1 result }
    {
        commands_stay();
        let turned = equality_of(at.symbols, terms, x.b, x.a)?;
        let link = self.exchange(at, terms, x.left, turned)?;
        Ok((turned, link))
    }

    /// Adds `(= (= a b) (= c d))`, by way of `(= b a)`.
    fn cross(
        &mut self,
        at: &Site<'_>,
        terms: &mut Terms<'_>,
        given: &Table,
        x: &Crossed,
    ) -> Result<Link, RuleStop>
        requires work { IsWork at.now terms.old self.old }
        requires given { IsGiven at.now terms.old given.now }
        requires crossed { IsCrossed at.now terms.old x.now }
        ensures ends { OnOk result (EndsIn at.now terms.new self.new.block x.now.left x.now.right) }
        ensures done { IsDone at.now terms.old terms.new self.old self.new 7 result }
    {
        at.symbols.leaves_differ();
        let found = self.turn(at, terms, x)?;
        let (turned, first) = found;
        let lefts = [x.b, x.a];
        let rights = [x.c, x.d];
        let y = Matched {
            left: turned,
            right: x.right,
            lefts: &lefts,
            rights: &rights,
        };
        let second = self.match_all(at, terms, given, &y)?;
        terms.one_to_one();
        let linked = self.trans(at, terms, &[first, second], x.left, x.right)?;
        Ok(linked)
    }

    /// Adds what the clause says.
    fn add(
        &mut self,
        at: &Site<'_>,
        terms: &mut Terms<'_>,
        given: &Table,
        x: &Applications,
    ) -> Result<Link, RuleStop>
        requires job { IsToElaborate at.now terms.old }
        requires rule { rule_of_command at.now ≡ Rule.Cong }
        requires work { IsWork at.now terms.old self.old }
        requires given { IsGiven at.now terms.old given.now }
        requires applications { AreApplications at.now terms.old x.now }
        ensures ends { OnOk result (EndsIn at.now terms.new self.new.block x.now.left x.now.right) }
        ensures done { IsDone at.now terms.old terms.new self.old self.new (2 * length x.now.lefts.items + 3) result }
    {
        at.symbols.leaves_differ();
        terms.one_to_one();
        let matched = are_matched(at, terms, given, &x.lefts, &x.rights)?;
        if matched {
            let y = Matched {
                left: x.left,
                right: x.right,
                lefts: &x.lefts,
                rights: &x.rights,
            };
            return self.match_all(at, terms, given, &y);
        }
        let y = Crossed {
            left: x.left,
            right: x.right,
            a: x.lefts[0],
            b: x.lefts[1],
            c: x.rights[0],
            d: x.rights[1],
        };
        self.cross(at, terms, given, &y)
    }
}

/// The steps in the place of a step by cong: for each place where the arguments differ a premise as it stands, one turned round, or a join.
/// Where the sides of two equalities are linked crosswise, the first equality is turned round before.
pub(crate) fn cong(at: &Site<'_>, terms: &mut Terms<'_>) -> Result<Block, RuleStop>
    requires job { IsToElaborate at.now terms.old }
    requires rule { rule_of_command at.now ≡ Rule.Cong }
    ensures made { IfOk result (λ block. IsBlockFor at.now terms.new block) }
    ensures placed { PlacesCellsOf at.now.symbols.now terms.old.pass terms.new.pass (IsPlacedFor at.now terms.new) }
    ensures full { IfErr result (λ e. e ≡ RuleStop.PoolFull → LacksCellOf at.now.symbols.now terms.new.pass (IsPlacedFor at.now terms.new)) }
    ensures keeps { KeepsTerms terms.old terms.new }
{
    commands_stay();
    sites_of_commands();
    at.symbols.leaves_differ();
    let given = given(at, terms)?;
    let x = read(at, terms)?;
    let mut work = Work::new(at.alloc);
    let _link = work.add(at, terms, &given, &x)?;
    terms.one_to_one();
    terms.parts_of_trees();
    work.forms.are_of_cells();
    Ok(work.block)
}
