//! Rows whose combinations are worked out by hand.

use crate::{Memory, Row, are_within_limits, seek};
use std::alloc::Global;
use std::process::Abort;
use std::test::Fail;

const BOUND: i64 = 262_144;

/// That the sum is at least the bound.
fn at_least(coefs: [i64; 4], bound: i64) -> Row {
    Row {
        coefs,
        bound,
        equal: false,
    }
}

/// That the sum equals the bound.
fn equals(coefs: [i64; 4], bound: i64) -> Row {
    Row {
        coefs,
        bound,
        equal: true,
    }
}

/// What is found of rows, which have to be within the limits.
fn found(rt: &impl Abort, alloc: Global, rows: &[Row]) -> Result<Option<Vec<i128>>, Memory> {
    assert!(rt; are_within_limits(rows));
    seek(alloc, rows)
}

#[test]
fn refuted(rt: HostRuntime) -> Result<(), Fail> {
    // (<= (+ a 1) a): 0 is at least 1
    let one = [at_least([0, 0, 0, 0], 1)];
    let multipliers = found(&rt, rt.alloc(), &one)?.expect(&rt, "one");
    assert_eq!(rt; multipliers.as_slice(), [1].as_slice());
    // x = 1 and x >= 2: the equality is turned round
    let turned = [equals([1, 0, 0, 0], 1), at_least([1, 0, 0, 0], 2)];
    let multipliers = found(&rt, rt.alloc(), &turned)?.expect(&rt, "turned");
    assert_eq!(rt; multipliers.as_slice(), [-1, 1].as_slice());
    // 2x + 3y >= 7, x <= 1, y <= 1: the sum is at most 5
    let three = [
        at_least([0, 2, 0, 3], 7),
        at_least([0, -1, 0, 0], -1),
        at_least([0, 0, 0, -1], -1),
    ];
    let multipliers = found(&rt, rt.alloc(), &three)?.expect(&rt, "three");
    assert_eq!(rt; multipliers.as_slice(), [1, 2, 3].as_slice());
    // 63 of the first and 64 of the second cancel x, and have 63 * 63 + 64 * 64 y, of which the third has -64
    let greatest = [
        at_least([64, 63, 0, 0], BOUND),
        at_least([-63, 64, 0, 0], BOUND),
        at_least([0, -64, 0, 0], BOUND),
    ];
    let multipliers = found(&rt, rt.alloc(), &greatest)?.expect(&rt, "greatest");
    assert_eq!(rt; multipliers.as_slice(), [4032, 4096, 8065].as_slice());
    Ok(())
}

#[test]
fn not_refuted(rt: HostRuntime) -> Result<(), Fail> {
    assert!(rt; found(&rt, rt.alloc(), &[])?.is_none());
    // 2n = 1 has a solution, though no whole one
    let halves = [at_least([2, 0, 0, 0], 1), at_least([-2, 0, 0, 0], -1)];
    assert!(rt; found(&rt, rt.alloc(), &halves)?.is_none());
    // x >= 2 and x + y = 1
    let open = [at_least([1, 0, 0, 0], 2), equals([1, 1, 0, 0], 1)];
    assert!(rt; found(&rt, rt.alloc(), &open)?.is_none());
    // what makes the columns 0 cannot make bounds under 0 more than 0
    let greatest = [
        at_least([64, 63, 62, 61], -BOUND),
        at_least([64, -61, 63, -62], -BOUND),
        at_least([63, 64, -61, 60], -BOUND),
        at_least([62, -64, -60, -59], -BOUND),
        at_least([-64, 60, 59, -63], -BOUND),
        at_least([-63, -59, 64, 58], -BOUND),
        at_least([-62, 58, -57, -64], -BOUND),
        at_least([-61, -62, -64, 64], -BOUND),
    ];
    assert!(rt; found(&rt, rt.alloc(), &greatest)?.is_none());
    Ok(())
}

#[test]
fn limits(rt: HostRuntime) -> Result<(), Fail> {
    assert!(rt; are_within_limits(&[at_least([64, -64, 0, 0], BOUND); 8]));
    assert!(rt; !are_within_limits(&[at_least([0, 0, 0, 0], 0); 9]));
    assert!(rt; are_within_limits(&[equals([0, 0, 0, 0], -BOUND); 4]));
    assert!(rt; !are_within_limits(&[equals([0, 0, 0, 0], 0); 5]));
    assert!(rt; !are_within_limits(&[at_least([0, 0, 0, 65], 0)]));
    assert!(rt; !are_within_limits(&[at_least([-65, 0, 0, 0], 0)]));
    assert!(rt; !are_within_limits(&[at_least([0, 0, 0, 0], BOUND + 1)]));
    assert!(rt; !are_within_limits(&[at_least([0, 0, 0, 0], -BOUND - 1)]));
    Ok(())
}
