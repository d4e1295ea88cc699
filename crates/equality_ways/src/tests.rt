//! Shortest ways over five equalities, as found by hand.
use super::*;
use pair_pool::{Memory, Ref};
use std::alloc::Global;
use std::test::Fail;

fn pair(left: u32, right: u32) -> Option<Pair> {
    Some(Pair::new(Ref::leaf(left % 64), Ref::leaf(right % 64)))
}

/// The places of a way, each with whether the equality is turned round.
fn spelled(alloc: Global, way: Option<Vec<Used>>) -> Result<Option<Vec<(usize, bool)>>, Memory> {
    let Some(way) = way else {
        return Ok(None);
    };
    let mut places = Vec::new(alloc);
    for used in way.as_slice() {
        places.push((used.place, used.turned))?;
    }
    Ok(Some(places))
}

const STANDS: bool = false;

const TURNED: bool = true;

/// From 0 to 3 there is a way by 1 and 2, which are the first in the list, and a shorter one by 4. From 5 there is none.
const CASES: [(u32, u32, Option<&'static [(usize, bool)]>); 7] = [
    (0, 3, Some(&[(4, STANDS), (5, STANDS)])),
    (3, 0, Some(&[(5, TURNED), (4, TURNED)])),
    (1, 3, Some(&[(2, TURNED), (3, STANDS)])),
    (1, 4, Some(&[(0, TURNED), (4, STANDS)])),
    (2, 2, Some(&[])),
    (5, 5, Some(&[])),
    (0, 5, None),
];

#[test]
fn shortest_ways(rt: HostRuntime) -> Result<(), Fail> {
    let sides = [
        pair(0, 1),
        None,
        pair(2, 1),
        pair(2, 3),
        pair(0, 4),
        pair(4, 3),
    ];
    let table = table_of(rt.alloc(), &sides)?;
    for (from, to, wanted) in CASES {
        let found = way(rt.alloc(), &table, Ref::leaf(from % 64), Ref::leaf(to % 64))?;
        let places = spelled(rt.alloc(), found)?;
        let places = places.as_ref().map(|places| places.as_slice());
        assert_eq!(rt; places, wanted, "from {from} to {to}");
    }
    let found = find(&table, Ref::leaf(4), Ref::leaf(0));
    assert_eq!(rt;
        found.map(|used| (used.place, used.turned)),
        Some((4, TURNED))
    );
    let found = find(&table, Ref::leaf(0), Ref::leaf(3));
    assert!(rt; found.is_none());
    Ok(())
}
