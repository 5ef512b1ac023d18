//! A capture, audited and drawn.

ghost use Rattle.std.specs.Prelude.{◌≡◌, IfOk, IfSome, List, None, option_map};
ghost use Rattle.std.specs.String.{string_bytes};
ghost use Rattle.capture_form.specs.Rules.{RuleSet};
ghost use Rattle.svg_text.specs.Drawn.{IsSvg};
ghost use Rattle.trace_events.specs.Event.{Event};
ghost use Rattle.audit_core.specs.Verdict.{AnswersRead, AreRefused};
ghost use Rattle.credit_levels.specs.declared.pick.Pick as picks;
ghost use Rattle.credit_chart.specs.Curves.{HasCurves};
ghost use Rattle.credit_levels.specs.Levels.{AreOf, levels_of};
ghost use Rattle.credit_levels.specs.Drawn.{Draws, DrawsTaken, title_on};

use crate::levels::Levels;
use crate::pick::{Pick, PickedLink};
use crate::title::title_on;
use crate::watching::Watching;
use audit_core::{Verdict, audit_watched, audit_watched_forgetting};
use credit_chart::draw_levels;
use std::alloc::{AllocError, Global};
use std::io::Read;

/// What was drawn of a capture, and what it is worth.
#[derive(Debug, Drop)]
pub struct Drawn {
    /// The document; none where no link that is picked opened in the records that were taken.
    pub text: Option<String>,
    /// What the auditor says of the capture.
    pub verdict: Verdict,
}

/// Audits the capture that is read, and draws under this title what stood behind each record that was taken, of the link that is
/// picked.
///
/// # Errors
///
/// Memory was refused to draw it.
pub fn draw_credit<R: Read>(
    alloc: Global,
    title: &str,
    pick: Pick<'_>,
    input: R,
) -> Result<Drawn, AllocError>
where
    R: Drop,
    // The verdict is that of the auditor, on all octets that the reader is known to give.
    ensures answers { IfOk result (λ drawn. IfSome (R.remaining input) (λ octets. AnswersRead octets drawn.verdict)) }
    // What is drawn is an SVG.
    ensures document { IfOk result (λ drawn. IfSome drawn.text (λ text. IsSvg (string_bytes text))) }
    // It has the levels of just the records that were taken, of the first link of a consumer that is picked, under a title that says
    // where this stands; and there is none just where no such link opened.
    ensures curves { IfOk result (λ drawn. IfSome (R.remaining input) (λ octets. DrawsTaken title.now pick.entry octets drawn.verdict (option_map string_bytes drawn.text))) }
{
    let mut watching = Watching::new(alloc, pick);
    let verdict = audit_watched(alloc, input, &mut watching);
    let text = draw_taken(alloc, title, watching.levels())?;
    Ok(Drawn { text, verdict })
}

/// The same as `draw_credit`, in memory that does not grow with a lawful capture. `None` where a record breaks a clause: the same
/// octets are then to be read once more from their start, by `draw_credit`.
///
/// # Errors
///
/// Memory was refused to draw it.
pub fn draw_credit_forgetting<R: Read>(
    alloc: Global,
    title: &str,
    pick: Pick<'_>,
    input: R,
) -> Result<Option<Drawn>, AllocError>
where
    R: Drop,
    ensures answers { IfOk result (λ sure. IfSome sure (λ drawn. IfSome (R.remaining input) (λ octets. AnswersRead octets drawn.verdict))) }
    ensures refused { IfOk result (λ sure. sure ≡ None → IfSome (R.remaining input) AreRefused) }
    ensures document { IfOk result (λ sure. IfSome sure (λ drawn. IfSome drawn.text (λ text. IsSvg (string_bytes text)))) }
    ensures curves { IfOk result (λ sure. IfSome sure (λ drawn. IfSome (R.remaining input) (λ octets. DrawsTaken title.now pick.entry octets drawn.verdict (option_map string_bytes drawn.text)))) }
{
    let mut watching = Watching::new(alloc, pick);
    let Some(verdict) = audit_watched_forgetting(alloc, input, &mut watching) else {
        return Ok(None);
    };
    let text = draw_taken(alloc, title, watching.levels())?;
    Ok(Some(Drawn { text, verdict }))
}

/// Draws the levels of the records so far, if a link is picked.
#[tactic(auto, using(crate::proofs::SeenAs::drawn_at, crate::proofs::SeenAs::undrawn))]
fn draw_taken(alloc: Global, title: &str, levels: &Levels<'_>) -> Result<Option<String>, AllocError>
    ensures document { IfOk result (λ drawn. IfSome drawn (λ text. IsSvg (string_bytes text))) }
    ensures curves { IfOk result (λ drawn. (pick : picks.Pick) (rules : RuleSet) (history : List Event) → AreOf pick rules levels.now history →
        Draws title.now pick rules history (option_map string_bytes drawn)) }
{
    match levels.place() {
        Some(place) => Ok(Some(draw_at(alloc, title, levels, place)?)),
        None => Ok(None),
    }
}

/// Draws them, of the link that stands at this place.
fn draw_at(
    alloc: Global,
    title: &str,
    levels: &Levels<'_>,
    place: PickedLink,
) -> Result<String, AllocError>
    ensures document { IfOk result (λ text. IsSvg (string_bytes text)) }
    ensures curves { IfOk result (λ text. (pick : picks.Pick) (rules : RuleSet) (history : List Event) → AreOf pick rules levels.now history →
        HasCurves (title_on title.now place) (levels_of pick rules history) (string_bytes text)) }
{
    let words = title_on(alloc, title, place)?;
    draw_levels(alloc, words.as_str(), levels.levels())
}
