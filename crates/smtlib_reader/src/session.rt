//! A problem that is being read.

use crate::parameters::Parameter;
use pair_pool::Ref;
use term_model::Sort;
use term_reader::reader::Reader;

/// What was read of a problem.
#[derive(Drop)]
pub(crate) struct Session {
    pub(crate) reader: Reader,
    pub(crate) assertions: Vec<Ref>,
    pub(crate) has_logic: bool,
    /// Whether a check stands before.
    pub(crate) is_checked: bool,
    /// Room for the sorts and the parameters of a declaration.
    pub(crate) sorts: Vec<Sort>,
    pub(crate) parameters: Vec<Parameter>,
}
