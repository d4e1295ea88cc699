//! A sweep over numbered nodes, from the highest down: each passes its factor on to its parts, so that in the end opaque terms
//! alone have factors.

ghost use Rattle.std.specs.Prelude.{◌≡◌, ◌+◌, ◌<◌, ◌≤◌, ◌^◌, ◌*ℤ◌, ◌+ℤ◌, pos, [], length, slice_index_or, slice_set, unsigned_abs, OnOk, IfOk};
ghost use Rattle.linear_forms.specs.Factors.{added, passed, passed_number, HasRoomToPass};
ghost use Rattle.linear_forms.specs.Sweeps.{state, CanSettle, IsNodeSwept, CanSweep, IsSwept};

use crate::nodes::{Coefficient, Node, Part};
use pair_pool::{Memory, Ref};

/// Adds to a factor.
fn add(factors: &mut [i128], i: usize, n: i128)
    requires there { i < length factors.old }
    requires room { unsigned_abs (slice_index_or factors.old i (pos 0)) + unsigned_abs n < 2 ^ 127 }
    ensures { factors.new ≡ added factors.old i n }
{
    factors[i] += n;
}

/// Passes a factor on to a part.
fn pass_to(factors: &mut [i128], part: Part, factor: i128)
    requires there { part.node < length factors.old }
    requires room { unsigned_abs (slice_index_or factors.old part.node (pos 0)) + unsigned_abs (factor *ℤ part.times) < 2 ^ 127 }
    ensures { factors.new ≡ added factors.old part.node (factor *ℤ part.times) }
{
    add(factors, part.node, factor * part.times);
}

/// Adds so many times a number to the constant.
fn add_times(constant: &mut i128, factor: i128, n: i128)
    requires { unsigned_abs constant.old + unsigned_abs (factor *ℤ n) < 2 ^ 127 }
    ensures { constant.new ≡ constant.old +ℤ factor *ℤ n }
{
    *constant += factor * n;
}

/// Passes a factor on to the parts of its node, or to the constant. An opaque term keeps none of it here.
fn pass_on(node: Node, factor: i128, constant: &mut i128, factors: &mut [i128])
    requires { HasRoomToPass node factor constant.old factors.old }
    ensures factors { factors.new ≡ passed node factor factors.old }
    ensures number { constant.new ≡ passed_number node factor constant.old }
{
    match node {
        Node::Number(n) => add_times(constant, factor, n),
        Node::Opaque(_) => (),
        Node::Multiple(part) => pass_to(factors, part, factor),
        Node::Sum(one, other) => {
            pass_to(factors, one, factor);
            pass_to(factors, other, factor);
        }
    }
}

/// Takes a factor away.
fn take(factors: &mut [i128], k: usize) -> i128
    requires { k < length factors.old }
    ensures factor { result ≡ slice_index_or factors.old k (pos 0) }
    ensures left { factors.new ≡ slice_set factors.old k (pos 0) }
{
    let factor = factors[k];
    factors[k] = 0;
    factor
}

/// Gives a node its turn: what it has is passed on, or found where it is an opaque term.
fn settle(
    nodes: &[Node],
    k: usize,
    factors: &mut [i128],
    constant: &mut i128,
    found: &mut Vec<Coefficient>,
) -> Result<(), Memory>
    requires { CanSettle nodes.now k (state factors.old constant.old found.old.items) }
    ensures { OnOk result (IsNodeSwept nodes.now k (state factors.old constant.old found.old.items) (state factors.new constant.new found.new.items)) }
{
    let factor = take(factors, k);
    if factor == 0 {
        return Ok(());
    }
    match nodes[k] {
        Node::Opaque(term) => found.push(Coefficient {
            term,
            number: factor,
        })?,
        node => pass_on(node, factor, constant, factors),
    }
    Ok(())
}

/// The constant of a sum of multiples of nodes, and the coefficients of its opaque terms, each of which stands once. The nodes'
/// weights bound all numbers. Takes time in proportion to the number of nodes.
pub(crate) fn sweep(
    nodes: &[Node],
    factors: &mut [i128],
    found: &mut Vec<Coefficient>,
) -> Result<i128, Memory>
    requires room { CanSweep nodes.now factors.old }
    requires none { found.old.items ≡ [] }
    ensures { IfOk result (λ constant. IsSwept nodes.now factors.old constant found.new.items) }
{
    let mut constant = 0;
    let mut k = nodes.len();
    'nodes: while k > 0 {
        k -= 1;
        settle(nodes, k, factors, &mut constant, found)?;
    }
    Ok(constant)
}
