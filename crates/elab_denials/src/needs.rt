//! What an equality needs that a clause denies.

ghost use Rattle.std.specs.Prelude.{◌≡◌, ◌≢◌, ◌↔◌, [], ℕ, List, Option, Contains, IsTrue, drop};
ghost use Rattle.elab_denials.specs.Owing.{IsNeed};
ghost use Rattle.equality_ways.specs.Tables.{IsSearchable, IsTableOf};

use equality_ways::{Pair, Table, find};

/// What a denied equality needs so that it goes, or is a literal of the command's clause.
#[derive(Clone, Copy)]
pub(crate) enum Need {
    /// It is such a literal, or comes again.
    Nothing,
    /// Such a literal is the same turned round.
    Turning,
    /// Its sides are equal.
    Paying,
}

/// Whether two pairs are one.
fn are_one(one: Pair, other: Pair) -> bool
    ensures { IsTrue result ↔ (one ≡ other) }
{
    let (a, b) = one.sides();
    let (c, d) = other.sides();
    a.number() == c.number() && b.number() == d.number()
}

/// Whether a pair is among others.
fn is_among(pair: Pair, pairs: &[Pair]) -> bool
    ensures { IsTrue result ↔ Contains pairs.now pair }
{
    'others: for other in pairs {
        let same = are_one(pair, *other);
        if same {
            return true;
        }
    }
    false
}

/// What the first of the pairs needs.
///
/// It looks through the others only where it needs something.
pub(crate) fn need_of(table: &Table, pairs: &[Pair]) -> Need
    requires some { pairs.now ≢ [] }
    requires searchable { IsSearchable table.now.entries.items }
    ensures need { (sides : List (Option (ℕ × ℕ))) → IsTableOf sides table.now → IsNeed sides pairs.now result }
{
    let pair = pairs[0];
    let (a, b) = pair.sides();
    let rest = &pairs[1..];
    match find(table, a, b) {
        Some(used) => {
            if !used.turned {
                return Need::Nothing;
            }
            let again = is_among(pair, rest);
            if again {
                return Need::Nothing;
            }
            Need::Turning
        }
        None => {
            let again = is_among(pair, rest);
            if again {
                return Need::Nothing;
            }
            Need::Paying
        }
    }
}
