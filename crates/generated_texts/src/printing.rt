//! How a summary is printed.
ghost use Rattle.std.specs.Prelude.{◌≡◌, IfOk};
ghost use Rattle.generated_texts.specs.Summaries.{text_of_summary};

use crate::summarizing::Summary;
use judged_texts::text_of_judgement;
use std::alloc::{AllocError, Global};

/// The whole text of a summary: a line for the commands, one for the cells, and the lines of the judgement.
pub fn text_of_summary(alloc: Global, summary: &Summary) -> Result<Vec<u8>, AllocError>
    ensures { IfOk result (λ v. v.items ≡ text_of_summary summary.now) }
{
    let steps = summary.steps.to_string(alloc)?;
    let cells = summary.cells.to_string(alloc)?;
    let judgement = text_of_judgement(alloc, &summary.judgement)?;
    let mut text = Vec::from_slice(alloc, b"steps ")?;
    text.extend_from_slice(steps.as_bytes())?;
    text.extend_from_slice(b"\ncells ")?;
    text.extend_from_slice(cells.as_bytes())?;
    text.extend_from_slice(b"\n")?;
    text.extend_from_slice(&judgement)?;
    Ok(text)
}
