//! The items of a text as a flat list of nodes, and the shapes of items.
//!
//! A text's words, strings and lists (`sexpr`) are read into a list of nodes, one for each token that is no closing
//! bracket. A list stands before what is in it, and each node says where the item after its own begins; so an item is a
//! range of nodes, the items of a list are walked without what is in them, and no depth of a text takes stack.
//!
//! - `nodes`: reading an item into nodes, and a text with its nodes ([`ItemText`](nodes::ItemText)). `children`: taking the
//!   items of a list one by one. `shapes`: what an item is, and the first fault of lists of pairs. `keywords`: the first fault
//!   of a list of attributes. `one_pass`: lists of attributes that have none. `numerals`: the values of numerals. `refusals`: a
//!   cause with its place.
//! - `item_laws`: where a token stands, an item begins.
//!
//! What a contract sees: `specs/ItemsAt` (`item_at` and `items_at`, the item at a node and the items of a range as functions of
//! a text's nodes), `Stepping` (items one after another), `Nesting` (what nodes always keep), and `Lexers` (where a lexer
//! stands among the items of a text). `Spelling`, `ItemShapes` and `Keywords` are definitions that other definitions are
//! built on.
#![tactic(auto)]

pub mod children;
pub mod item_laws;
pub mod keywords;
pub mod nodes;
pub mod numerals;
mod one_pass;
pub mod refusals;
pub mod shapes;

pub use item_laws::items_begin_at_tokens;
