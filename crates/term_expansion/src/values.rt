//! Terms as they are read: a reference into the pool, and what is kept beside it.

use pair_pool::Ref;
use term_model::Sort;

/// A term with its sort and its height. Where it is plain, no let stands in it.
// A value is copied eight bytes at a time, also as part of an option or a result, where it stands behind a tag. The height
// takes eight bytes, so that each of these copies begins and ends where a field does, wherever the value stands: else the
// processor would wait for fields that were just written one by one.
#[derive(Clone, Copy)]
pub struct Value {
    pub height: u64,
    pub sort: Sort,
    pub term: Ref,
    pub plain: bool,
}

/// A variable, told by its leaf, and what it stands for.
#[derive(Clone, Copy)]
pub struct Bound {
    pub variable: u32,
    pub value: Value,
}
