// The gate that lets every chunk pass.
use crate::Gate;

/// Both calls do nothing.
#[derive(Clone, Copy)]
pub struct OpenGate;

impl Gate for OpenGate {
    fn enter(&self, _k: u64) {}

    fn leave(&self, _k: u64) {}
}
