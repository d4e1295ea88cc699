//! What a judgement of lines keeps from call to call.

use linear_forms::{Coefficient as Found, LinearForms};
use scaled_sums::Coefficient;
use std::alloc::Global;

/// Memory that is kept from call to call, so that lines take none once it has grown. What it holds counts for nothing between
/// calls.
#[derive(Drop)]
pub struct Scratch {
    /// For forms and weights of terms, which others may use between calls.
    pub forms: LinearForms,
    pub(crate) found: Vec<Found>,
    pub(crate) form: Vec<Coefficient>,
    pub(crate) sum: Vec<Coefficient>,
}

impl Scratch {
    /// Memory that holds nothing yet.
    pub fn new(alloc: Global) -> Scratch {
        Scratch {
            forms: LinearForms::new(alloc),
            found: Vec::new(alloc),
            form: Vec::new(alloc),
            sum: Vec::new(alloc),
        }
    }
}
