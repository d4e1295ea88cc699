//! The command `generate`: what the check of the generator's two texts comes to, with how many commands and cells they have.
//!
//! - `standing`: the terms that stand in two texts that were read. `summarizing`: from two texts to their summary. `generating`: the
//!   generator's texts. `printing`: how a summary is printed. `laws`: terms have one number of cells.
#![tactic(auto)]

mod generating;
mod laws;
mod printing;
mod standing;
mod summarizing;

pub use generating::{Generated, generate};
pub use laws::cells_are_counted_once;
pub use printing::text_of_summary;
pub use summarizing::Summary;
