//! Premises that are unit clauses.

ghost use Rattle.std.specs.Prelude.{◌≡◌, IfNone, IfSome};
ghost use Rattle.schema_match.specs.Premises.{IsOneUnit, IsNoUnit};

use pair_pool::Ref;

/// The literal of the one premise, where there is one and it is a unit clause.
pub fn unit(premises: &[&[Ref]]) -> Option<Ref>
    ensures unit { IfSome result (IsOneUnit premises.now) }
    ensures other { IfNone result (IsNoUnit premises.now) }
{
    let [premise] = premises else {
        return None;
    };
    let [literal] = *premise else {
        return None;
    };
    Some(*literal)
}
