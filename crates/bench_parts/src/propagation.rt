//! Unit propagation: `propagation CASE COUNT`, where the case is `wide`, `chain`, `random` or `small`.
ghost use Rattle.std.specs.Prelude.{◌<◌, ◌≤◌, ◌^◌, length, vec_len, All, IsTrue};

use anyhow::{Result, bail};
use rules_resolution::{Lit, follows};
use std::alloc::{AllocError, Global};
use std::rt::Clock;
use std::time::Instant;

const RUNS: u32 = 7;

const SMALL_PROBLEMS: u32 = 1_000;

#[derive(Drop)]
struct Problem {
    premises: Vec<Vec<Lit>>,
    goal: Vec<Lit>,
}

/// The i-th atom's literal. Atoms are spread over all 32-bit numbers.
fn literal(i: u32, negative: bool) -> Lit {
    Lit::Plain {
        atom: i.wrapping_mul(2_654_435_761),
        negative,
    }
}

/// One clause of n literals, and n clauses that each refute one of them.
fn wide(alloc: Global, n: u32) -> Result<Problem, AllocError> {
    let mut all = Vec::new(alloc);
    let mut premises = Vec::new(alloc);
    for i in 0..n {
        all.push(literal(i, false))?;
        premises.push(vec![in alloc; literal(i, true)]?)?;
    }
    premises.push(all)?;
    Ok(Problem {
        premises,
        goal: Vec::new(alloc),
    })
}

/// A chain of n implications, the last first.
fn chain(alloc: Global, n: u32) -> Result<Problem, AllocError> {
    let mut premises = Vec::new(alloc);
    for i in (0..n).rev() {
        premises.push(vec![in alloc; literal(i, true), literal(i.wrapping_add(1), false)]?)?;
    }
    premises.push(vec![in alloc; literal(0, false)]?)?;
    Ok(Problem {
        premises,
        goal: vec![in alloc; literal(n, false)]?,
    })
}

/// The next number of a linear congruential generator.
fn next(state: u64) -> u64 {
    state
        .wrapping_mul(6_364_136_223_846_793_005)
        .wrapping_add(1_442_695_040_888_963_407)
}

/// A clause of ten random literals over n atoms.
fn random_clause(alloc: Global, n: u32, state: &mut u64) -> Result<Vec<Lit>, AllocError> {
    let mut clause = Vec::new(alloc);
    for _ in 0..10 {
        *state = next(*state);
        let i = (*state >> 33) % (n as u64 + 1);
        clause.push(literal(i as u32, (*state >> 32) % 2 == 1))?;
    }
    Ok(clause)
}

/// n clauses of ten random literals each over n atoms, and such a conclusion.
fn random(alloc: Global, n: u32) -> Result<Problem, AllocError> {
    let mut state = 1;
    let mut premises = Vec::new(alloc);
    for _ in 0..n {
        premises.push(random_clause(alloc, n, &mut state)?)?;
    }
    let goal = random_clause(alloc, n, &mut state)?;
    Ok(Problem { premises, goal })
}

/// Three premises of two or three literals, as most steps of real proofs have them.
fn small(alloc: Global, i: u32) -> Result<Problem, AllocError> {
    let first = i.wrapping_mul(4);
    let (a, b) = (first, first.wrapping_add(1));
    let (c, d) = (first.wrapping_add(2), first.wrapping_add(3));
    Ok(Problem {
        premises: vec![in alloc;
            vec![in alloc; literal(a, false), literal(b, false)]?,
            vec![in alloc; literal(a, true), literal(c, false)]?,
            vec![in alloc; literal(b, true), literal(c, false), literal(d, false)]?,
        ]?,
        goal: vec![in alloc; literal(c, false), literal(d, false)]?,
    })
}

/// Whether no clause is too long, and there are not too many, for a call.
fn fits(premises: &[Vec<Lit>]) -> bool
    ensures few { IsTrue result → length premises.now < 2 ^ 32 }
    ensures short { IsTrue result → All (λ clause. vec_len clause < 2 ^ 32) premises.now }
{
    premises.len() < 4_294_967_296 && premises.iter().all(|clause| clause.len() < 4_294_967_296)
}

fn solve(alloc: Global, problem: &Problem) -> Result<bool> {
    let premises = problem.premises.as_slice();
    if !fits(premises) {
        bail!("too large");
    }
    match follows(alloc, premises, problem.goal.as_slice()) {
        Ok(found) => Ok(found.is_some()),
        Err(_) => bail!("out of memory"),
    }
}

/// How many of the calls find that the conclusion follows: one call for each problem, `calls` in all.
fn solve_all(alloc: Global, problems: &[Problem], calls: u32) -> Result<u32> {
    let mut found = 0u32;
    let mut at = 0;
    for _ in 0..calls {
        if at >= problems.len() {
            at = 0;
        }
        if let Some(problem) = problems.get(at) {
            if solve(alloc, problem)? {
                found = found.wrapping_add(1);
            }
            at += 1;
        }
    }
    Ok(found)
}

fn problems_of(alloc: Global, case: &str, count: u32) -> Result<Vec<Problem>> {
    let mut problems = Vec::new(alloc);
    match case {
        "wide" => problems.push(wide(alloc, count)?)?,
        "chain" => problems.push(chain(alloc, count)?)?,
        "random" => problems.push(random(alloc, count)?)?,
        "small" => {
            for i in 0..SMALL_PROBLEMS {
                problems.push(small(alloc, i)?)?;
            }
        }
        _ => bail!("no such case"),
    }
    Ok(problems)
}

/// Runs a case, and prints how many calls found that the conclusion follows.
pub fn run<R: AllocGlobal + Clock + Print>(
    rt: &R,
    case: &str,
    count: u32,
    timed: bool,
) -> Result<()> {
    let problems = problems_of(rt.alloc(), case, count)?;
    run_on(rt, &problems, case, count, timed)
}

// The same of problems that are made.
fn run_on<R: AllocGlobal + Clock + Print>(
    rt: &R,
    problems: &[Problem],
    case: &str,
    count: u32,
    timed: bool,
) -> Result<()> {
    let calls = if case == "small" { count } else { 1 };
    let found = solve_all(rt.alloc(), problems, calls)?;
    println!(rt; "{case} {count}: {found} of {calls} follow")?;
    if timed {
        let mut least = u128::MAX;
        for _ in 0..RUNS {
            let start = Instant::now(rt)?;
            solve_all(rt.alloc(), problems, calls)?;
            least = least.min(start.elapsed(rt)?.as_nanos());
        }
        println!(rt; "{least} ns")?;
    }
    Ok(())
}
