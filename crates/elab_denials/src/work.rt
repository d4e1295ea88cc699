//! What is built for a command.

ghost use Rattle.std.specs.Prelude.{◌≡◌, []};
ghost use Rattle.elab_denials.specs.Working.{IsWork};
ghost use Rattle.equality_steps.specs.declared.site.Site.{Site};
ghost use Rattle.equality_steps.specs.Sites.{IsSite};
ghost use Rattle.flip_steps.specs.Memory.{count_of};
ghost use Rattle.term_pool.specs.Views.{TermsView};

use equality_steps::{Block, blocks_stay};
use flip_steps::Forms;
use std::alloc::Global;

/// Steps that are added for a command, and the forms of its terms as far as they are known.
#[derive(Drop)]
pub(crate) struct Work {
    pub(crate) block: Block,
    pub(crate) forms: Forms,
}

impl Work {
    /// No steps, and no forms.
    pub(crate) fn new(alloc: Global) -> Work
        ensures block { result.block ≡ [] }
        ensures count { count_of result.forms ≡ 0 }
        ensures work { (p : Site) (v : TermsView) → IsSite p v → IsWork p v result }
    {
        blocks_stay();
        Work {
            block: Block::new(alloc),
            forms: Forms::new(alloc),
        }
    }
}
