//! Premises without pairs of `not`.

ghost use Rattle.std.specs.Prelude.{◌≡◌, ◌≢◌, ◌⊎◌, ◌≤◌, ◌<◌, ◌+◌, ◌*◌, ◌^◌, ◌∷◌, ◌++◌, [], List, length, slice_index_or, All, Contains, IfOk, OnOk};
ghost use Rattle.std.specs.List.{sum_by};
ghost use Rattle.clause_chain.specs.Chaining.{clauses_of};
ghost use Rattle.clause_chain.specs.declared.signed_term.SignedTerm.{SignedTerm};
ghost use Rattle.chain_plan.specs.Carried.{AreSound, IsGoing, KeepsSources};
ghost use Rattle.chain_plan.specs.Lowering.{AreAlike, IsPlain};
ghost use Rattle.chain_plan.specs.Normals.{ArePlainForms, IsPlainForm, IsStanding};
ghost use Rattle.chain_plan.specs.Towers.{AreTowers, IsLiteral, Towers, nots_at, nots_in};
ghost use Rattle.rule_model.specs.declared.rules.Rule.{Rule};

use crate::bridges::make_plain;
use crate::carry::Carry;
use crate::plan::{Planned, Source};
use crate::spellings::Spellings;
use clause_chain::SignedTerm;
use std::alloc::{AllocError, Global};
use std::marker::Model;

/// Adds the resolution that a carried clause comes from.
pub(crate) fn add_resolution(
    alloc: Global,
    steps: &mut Vec<Planned>,
    carry: &Carry,
) -> Result<(), AllocError>
    requires { carry.now.pivots ≢ [] }
    ensures sound { (t : Towers) (given : List (List SignedTerm)) → AreSound t given steps.old.items →
        IsGoing t given steps.old.items carry.now → OnOk result (AreSound t given steps.new.items) }
    ensures kept { OnOk result (KeepsSources steps.old.items steps.new.items) }
    ensures added { OnOk result (steps.new.items ≡ steps.old.items ++ record {
      rule = Rule.Resolution;
      clause = carry.now.list;
      premises = carry.now.sources;
      pivots = carry.now.pivots;
    } ∷ []) }
{
    let step = carry.resolution(alloc)?;
    steps.push(step)?;
    Ok(())
}

/// Takes all pairs of `not`s from the literals of a clause, where the carried clause has them.
fn make_all_plain(
    alloc: Global,
    steps: &mut Vec<Planned>,
    carry: &mut Carry,
    spellings: &Spellings,
    clause: &[SignedTerm],
) -> Result<(), AllocError>
    requires towers { AreTowers spellings.now }
    requires few { length spellings.now.nots < 2 ^ 32 }
    requires literals { All (IsLiteral spellings.now) clause.now }
    requires within { (x : SignedTerm) → Contains carry.old.list x → Contains clause.now x }
    ensures sound { (given : List (List SignedTerm)) → AreSound spellings.now given steps.old.items →
        OnOk result (AreSound spellings.now given steps.new.items) }
    ensures going { (given : List (List SignedTerm)) → IsGoing spellings.now given steps.old.items carry.old →
        OnOk result (IsGoing spellings.now given steps.new.items carry.new) }
    ensures kept { OnOk result (KeepsSources steps.old.items steps.new.items) }
    ensures alike { OnOk result (AreAlike spellings.now carry.old.list carry.new.list) }
    ensures plain { (x : SignedTerm) → OnOk result (Contains carry.new.list x → IsPlain spellings.now x) }
    ensures first { OnOk result (carry.new.pivots ≡ [] → carry.new ≡ carry.old) }
    ensures some { OnOk result ((carry.new ≡ carry.old) ⊎ (2 ≤ sum_by (λ x. nots_at spellings.now x.term) clause.now)) }
    ensures count { OnOk result (2 * length steps.new.items ≤ 2 * length steps.old.items + sum_by (λ x. nots_at spellings.now x.term) clause.now) }
{
    'literals: for literal in clause {
        make_plain(alloc, steps, carry, spellings, literal.term)?;
    }
    Ok(())
}

/// A clause without pairs of `not`, and where it stands.
#[derive(Drop)]
pub(crate) struct Normal {
    source: Source,
    clause: Vec<SignedTerm>,
}

impl Model for Normal {
    ghost use Rattle.chain_plan.specs.Normals.{NormalClause};

    ghost Value = { NormalClause };

    ghost view = { λ n. record { source = n.source; clause = n.clause.items } };
}

impl Normal {
    /// Where it stands.
    pub(crate) fn source(&self) -> Source
        ensures { result ≡ self.now.source }
    {
        self.source
    }

    /// Its literals.
    pub(crate) fn clause(&self) -> &[SignedTerm]
        ensures { result.now ≡ self.now.clause }
    {
        &self.clause
    }
}

/// The given clause at a place, without pairs of `not`: the clause itself, or a resolution of it with instances of not_not.
pub(crate) fn make_normal(
    alloc: Global,
    steps: &mut Vec<Planned>,
    spellings: &Spellings,
    place: u32,
    clause: &[SignedTerm],
) -> Result<Normal, AllocError>
    requires towers { AreTowers spellings.now }
    requires few { length spellings.now.nots < 2 ^ 32 }
    requires literals { All (IsLiteral spellings.now) clause.now }
    ensures sound { (given : List (List SignedTerm)) → AreSound spellings.now given steps.old.items → place < length given →
        slice_index_or given place [] ≡ clause.now → OnOk result (AreSound spellings.now given steps.new.items) }
    ensures stands { (given : List (List SignedTerm)) → place < length given → slice_index_or given place [] ≡ clause.now →
        IfOk result (IsStanding given steps.new.items) }
    ensures form { IfOk result (IsPlainForm spellings.now clause.now) }
    ensures kept { OnOk result (KeepsSources steps.old.items steps.new.items) }
    ensures count { OnOk result (length steps.new.items ≤ length steps.old.items + sum_by (λ x. nots_at spellings.now x.term) clause.now) }
{
    let mut carry = Carry::new(alloc);
    carry.start(Source::Given(place), clause)?;
    make_all_plain(alloc, steps, &mut carry, spellings, clause)?;
    if carry.is_first() {
        let mut copy = Vec::new(alloc);
        copy.extend_from_slice(clause)?;
        return Ok(Normal {
            source: Source::Given(place),
            clause: copy,
        });
    }
    let number = steps.len() as u64;
    add_resolution(alloc, steps, &carry)?;
    let mut list = Vec::new(alloc);
    carry.write(&mut list)?;
    Ok(Normal {
        source: Source::Added(number),
        clause: list,
    })
}

/// The given clauses without pairs of `not`, each at its place.
pub(crate) fn make_all_normal(
    alloc: Global,
    steps: &mut Vec<Planned>,
    spellings: &Spellings,
    given: &[Vec<SignedTerm>],
) -> Result<Vec<Normal>, AllocError>
    requires towers { AreTowers spellings.now }
    requires few { length spellings.now.nots < 2 ^ 32 }
    requires short { length given.now < 2 ^ 32 }
    requires literals { All (λ c. All (IsLiteral spellings.now) c.items) given.now }
    ensures sound { AreSound spellings.now (clauses_of given.now) steps.old.items →
        OnOk result (AreSound spellings.now (clauses_of given.now) steps.new.items) }
    ensures forms { IfOk result (λ ns. ArePlainForms spellings.now (clauses_of given.now) ns.items) }
    ensures stand { IfOk result (λ ns. All (IsStanding (clauses_of given.now) steps.new.items) ns.items) }
    ensures count { OnOk result (length steps.new.items ≤ length steps.old.items + nots_in spellings.now (clauses_of given.now)) }
{
    let mut normals = Vec::new(alloc);
    'clauses: for (place, clause) in given.iter().enumerate() {
        let normal = make_normal(alloc, steps, spellings, place as u32, clause)?;
        normals.push(normal)?;
    }
    Ok(normals)
}
