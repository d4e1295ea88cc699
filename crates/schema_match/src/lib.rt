//! Terms matched against patterns: schemas of rules as data with one matcher.
//!
//! A pattern stands in a table as its parts in prefix order, and is matched by one pass over them with a stack of terms:
//! in time in proportion to the parts, and to the arguments of the terms that are read by an operator. Nothing here
//! places a cell. Lists of up to 16 references take no memory.
#![tactic(auto)]

mod applications;
mod arguments;
mod equations;
mod instances;
mod letters;
mod matching;
mod part;
mod premises;
mod scratch;
mod signs;
mod stack;

pub use applications::over;
pub use arguments::{load_arguments, read_arguments};
pub use equations::equation;
pub use instances::{SchemaParts, is_instance, is_instance_of_one};
pub use letters::Letters;
pub use matching::{fits, fits_with};
pub use part::Part;
pub use premises::unit;
pub use scratch::{Scratch, Slot, pop, push, slot_of};
pub use signs::{Sign, unsigned};
