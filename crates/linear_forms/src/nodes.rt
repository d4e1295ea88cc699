//! Numbered nodes: what a term or a list of terms is as a sum of multiples of lower ones.

use pair_pool::Ref;

/// So many times the node of this number.
#[derive(Clone, Copy)]
pub(crate) struct Part {
    pub(crate) times: i128,
    pub(crate) node: usize,
}

/// What stands at a number.
#[derive(Clone, Copy)]
pub(crate) enum Node {
    /// A whole number.
    Number(i128),
    /// An opaque term.
    Opaque(Ref),
    /// A multiple of one node.
    Multiple(Part),
    /// A sum of multiples of two nodes.
    Sum(Part, Part),
}

/// What terms are as the factors of a product.
#[derive(Clone, Copy)]
pub(crate) enum Factors {
    /// Constants alone, with their product.
    Constants(i128),
    /// One that is no constant: so many times its node.
    Single(Part),
    /// More than one that is no constant.
    Many,
}

/// What is known of a list of terms, or of one term as a list.
#[derive(Clone, Copy)]
pub(crate) struct Info {
    /// The weights' sum, or 2^127 where it is more.
    pub(crate) sum: u128,
    /// The weights' product, or 2^127 where it is more.
    pub(crate) product: u128,
    /// The terms as factors. Where their product is too wide no number stands in it.
    pub(crate) factors: Factors,
}

/// An opaque term of a linear form with its coefficient.
#[derive(Clone, Copy)]
pub struct Coefficient {
    /// The term.
    pub term: Ref,
    /// Its coefficient.
    pub number: i128,
}
