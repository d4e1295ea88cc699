//! How a step stands by its id (Alethe specification, "Subproofs"): it closes the innermost scope, or nothing.
ghost use Rattle.std.specs.Prelude.{◌≡◌, ◌≢◌, ◌<◌, ◌+◌, ◌++◌, ◌∷◌, [], List, true, false, Some, None, IfSome, IfNone};
ghost use Rattle.rule_model.specs.RuleNames.{IsSymbolName};
ghost use Rattle.sym_table.specs.Table.{Table};
ghost use Rattle.term_pool.specs.Views.{TermsView};
ghost use Rattle.alethe_text.specs.States.{ProofState};
ghost use Rattle.alethe_reader.specs.Ids.{IsIdFound};
ghost use Rattle.alethe_reader.specs.Judging.{is_named};
ghost use Rattle.alethe_reader.specs.Sessions.{IsWritten};
ghost use Rattle.alethe_reader.specs.Standing.{IsStanding};
ghost use Rattle.alethe_reader.specs.declared.session.OpenAnchor.{OpenAnchor};
ghost use Rattle.term_expansion.specs.SymbolsAndTerms.{both};

use crate::ids::Found;
use crate::judging::{Named, cause_of};
use crate::premises::Reach;
use crate::session::{OpenAnchor, Session};
use sexpr::{Cause, Refusal};
use text_items::refusals::refused;

/// How a step stands: which ids its premises may have, and those that it discharges, and the anchor whose scope it closes.
#[derive(Clone, Copy)]
pub(crate) struct Standing {
    pub(crate) premises: Reach,
    pub(crate) discharges: Reach,
    pub(crate) closes: Option<OpenAnchor>,
}

/// Judges the id of a step, by what it was found to be. One with the id of the innermost open anchor closes its scope; any
/// other may have neither the id of an open anchor nor that of a visible command.
pub(crate) fn standing_at(
    session: &Session<'_>,
    id: Named<'_>,
    found: Option<Found>,
) -> Result<Standing, Refusal>
    requires { IsIdFound session.now.ids.used id.name.now found }
    ensures { (s : Table) (v : TermsView) (p : ProofState) → IsSymbolName id.entry.name.now → IsWritten (both s v) session.now p →
        IsStanding session.now.ids.used p (is_named id.entry) result }
{
    let Some(found) = found else {
        return Ok(standing_here(session.ids.len()));
    };
    match closed_by(&session.anchors, found) {
        Some(anchor) => Ok(closing(anchor, session.ids.len())),
        None => Err(refused(cause_of(Cause::BadAnchor, found.role), id.place)),
    }
}

/// The innermost anchor, where its id is in use at this place.
fn closed_by(anchors: &[OpenAnchor], found: Found) -> Option<OpenAnchor>
    ensures some { IfSome result (λ a. (front : List OpenAnchor) × (anchors.now ≡ front ++ a ∷ []) × (a.ids ≡ found.place)) }
    ensures none { IfNone result ((front : List OpenAnchor) (a : OpenAnchor) → anchors.now ≡ front ++ a ∷ [] → a.ids ≢ found.place) }
{
    if anchors.is_empty() {
        return None;
    }
    let anchor = anchors[anchors.len() - 1];
    if anchor.ids == found.place {
        Some(anchor)
    } else {
        None
    }
}

/// A step that closes nothing has as premises all commands that are visible, and discharges nothing.
fn standing_here(len: usize) -> Standing
    ensures { result ≡ record {
      premises = record { first = 0; end = len; takes_steps = true };
      discharges = record { first = 0; end = 0; takes_steps = false };
      closes = None;
    } }
{
    Standing {
        premises: Reach {
            first: 0,
            end: len,
            takes_steps: true,
        },
        discharges: Reach {
            first: 0,
            end: 0,
            takes_steps: false,
        },
        closes: None,
    }
}

/// A step that closes a scope has as premises the commands that are visible where its anchor stands, and discharges assumes
/// behind it.
fn closing(anchor: OpenAnchor, len: usize) -> Standing
    requires { anchor.ids < len }
    ensures { result ≡ record {
      premises = record { first = 0; end = anchor.ids; takes_steps = true };
      discharges = record { first = anchor.ids + 1; end = len; takes_steps = false };
      closes = Some anchor;
    } }
{
    Standing {
        premises: Reach {
            first: 0,
            end: anchor.ids,
            takes_steps: true,
        },
        discharges: Reach {
            first: anchor.ids + 1,
            end: len,
            takes_steps: false,
        },
        closes: Some(anchor),
    }
}
