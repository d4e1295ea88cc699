//! What a seat at the claimer's word knows. No value of it is made.

use std::collections::LinkedList;

pub struct Drawer {
    pub count: u64,
    pub shares: u64,
    pub steps: u64,
    pub past: u64,
    pub ended: bool,
    pub numbers: LinkedList<u64>,
}
