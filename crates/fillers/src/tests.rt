use super::*;
use std::alloc::{AllocError, Global};
use std::test::Fail;

fn some(alloc: Global, bytes: &[u8]) -> Result<Option<Vec<u8>>, AllocError> {
    Ok(Some(bytes.to_vec(alloc)?))
}

/// Each question with the budget before it and the reply to it. The script has three replies, of which the second is none.
const CASES: [(u64, &[u8], Option<&[u8]>); 4] = [
    (5, b"first", Some(b"one")),
    (4, b"second", None),
    (3, b"", Some(b"")),
    (2, b"fourth", None),
];

#[test]
fn replies_come_in_their_order(rt: HostRuntime) -> Result<(), Fail> {
    let alloc = rt.alloc();
    let replies = vec![in alloc; some(alloc, b"one")?, None, some(alloc, b"")?]?;
    let mut filler = ScriptFiller::new(5, replies);
    for (left, question, wanted) in CASES {
        assert_eq!(rt; filler.left(), left);
        let Ok(reply) = filler.fill(question) else {
            return Err(AllocError.into());
        };
        let reply = reply.as_ref().map(|bytes| bytes.as_slice());
        assert_eq!(rt; reply, wanted);
    }
    assert_eq!(rt; filler.left(), 1);
    drop(filler);
    Ok(())
}
