use super::*;
use fillers::{Filler, ScriptFiller};
use std::alloc::AllocError;
use std::test::Fail;

/// The place that is asked, its budget before, the reply, and the budgets of both behind it.
const CASES: [(usize, u64, Option<&[u8]>, [u64; 2]); 3] = [
    (1, 2, Some(b"two"), [1, 1]),
    (0, 1, Some(b"one"), [0, 1]),
    (1, 1, None, [0, 0]),
];

#[test]
fn one_filler_is_asked(rt: HostRuntime) -> Result<(), Fail> {
    let alloc = rt.alloc();
    let first = vec![in alloc; Some(b"one".to_vec(alloc)?)]?;
    let second = vec![in alloc; Some(b"two".to_vec(alloc)?)]?;
    let mut fillers: Vec<Box<dyn Filler>> = Vec::new(alloc);
    fillers.push(Box::new(alloc, ScriptFiller::new(1, first))?)?;
    fillers.push(Box::new(alloc, ScriptFiller::new(2, second))?)?;
    let mut bench = Bench::new(fillers);
    assert_eq!(rt; bench.count(), 2);
    for (place, left, wanted, behind) in CASES {
        assert!(rt; place < bench.count());
        let budget = bench.left(place);
        assert_eq!(rt; budget, left);
        assert!(rt; budget > 0);
        let Ok(reply) = bench.ask(place, b"question") else {
            return Err(AllocError.into());
        };
        let reply = reply.as_ref().map(|bytes| bytes.as_slice());
        assert_eq!(rt; reply, wanted);
        assert!(rt; bench.count() == 2);
        assert_eq!(rt; [bench.left(0), bench.left(1)], behind);
    }
    assert_eq!(rt; bench.retire(), 2);
    assert_eq!(rt; bench.count(), 0);
    drop(bench);
    Ok(())
}
