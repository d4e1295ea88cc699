//! The commands of an Alethe proof, one by one, each told by the nodes of one top item (Alethe, "The Proof Format").
//!
//! They stand by themselves or in one list, perhaps behind the answer of the solver. So a text of any length is read one
//! command at a time, also where all stand in one list.
//!
//! What a command is, or which fault of its shape is its first, is defined in `alethe_text`, on nested items. Here the same is
//! told from the flat nodes of `text_items`: [`command_of`] returns where the parts of a command stand, down to its terms and
//! sorts, or the refusal; [`next_attribute`] and [`next_argument`] step over what stands in it. Nothing is copied, and no
//! nesting of a text takes stack.
//!
//! - `items`: going behind the answer and into the list, the next command, and what stands behind the list.
//! - `commands`: assumes, steps and anchors. `attributes`: the rule of a step, its premises, arguments and what it discharges.
//!   `usual`: the attributes that most steps have. `arguments`: the arguments of an anchor. `command_shapes`: what an item is,
//!   and the faults of shape.
//!
//! What a contract sees: `specs/TextItems` (`HasCommandItems`, which items stand from a place in the text on), and
//! `specs/CommandNodes`, which command, attribute or argument nodes say.
#![tactic(auto)]

pub mod arguments;
pub mod attributes;
pub mod command_shapes;
pub mod commands;
mod items;
mod usual;

pub use arguments::{AnchorArgument, argument_at, next_argument};
pub use attributes::{StepAttribute, next_attribute, rule_word};
pub use command_shapes::{is_spelled, is_symbol};
pub use commands::{Command, command_of};
pub use items::{enter_list, excess, next_item, skip_answer};
