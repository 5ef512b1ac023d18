//! The records that are asked for, as a chart.

ghost use Rattle.std.specs.Prelude.{◌≡◌, ℕ, List, [], false, None, IfOk, IfSome};
ghost use Rattle.std.specs.String.{string_bytes};
ghost use Rattle.capture_form.specs.Laws.{records_behind};
ghost use Rattle.capture_form.specs.Reader.{fault_of, left_of, offset_of};
ghost use Rattle.capture_form.specs.Reading.{reading};
ghost use Rattle.capture_view.specs.declared.choice.Choice.{Choice};
ghost use Rattle.capture_words.specs.Shown.{EndsRecords, EndsText};
ghost use Rattle.capture_words.specs.Taken.{TakesAll};
ghost use Rattle.svg_text.specs.Drawn.{IsSvg};
ghost use Rattle.capture_chart.specs.Marks.{marking};
ghost use Rattle.show_program.specs.Charts.{DrawsAsked, DrawsMarked, HasAsked};

use crate::asked::Asked;
use capture_chart::{Chart, ChartFault, Marks, Outcomes};
use capture_form::Reader;
use capture_view::{Choice, RecordView, view_of};
use capture_words::Ending;
use std::alloc::{AllocError, Global};
use std::io::Read;

/// The records that are asked for, with an arrow each.
#[derive(Drop)]
struct Charted<'a> {
    asked: Asked<'a>,
    /// The numbers of those that have one whichever are asked for.
    also: &'a [u64],
    /// The deliveries whose outcomes are to be told.
    outcomes: Outcomes,
    chart: Chart,
    /// More were asked for than a chart may have.
    is_full: bool,
}

/// A chart, drawn.
#[derive(Debug, Drop)]
pub struct Drawn {
    /// The document.
    pub text: String,
    /// How the reading of the capture ended.
    pub ending: Ending,
}

/// Why there is no chart.
#[derive(Clone, Copy, Debug, PartialEq, Eq)]
pub enum NoChart {
    /// More records are asked for than it may have.
    TooMany,
    /// Memory was refused to draw it.
    Memory,
}

impl<'a> Charted<'a> {
    ghost use Rattle.std.specs.Prelude.{◌≡◌, ◌∷◌, ◌++◌, [], ℕ, List, false, OnOk, if◌then◌else◌};
    ghost use Rattle.show_program.specs.Asked.{is_drawn};
    ghost use Rattle.capture_view.specs.declared.choice.Choice.{Choice};
    ghost use Rattle.capture_view.specs.Viewed.{viewed};
    ghost use Rattle.capture_words.specs.Taken.{TakesOneMore};
    ghost use Rattle.capture_chart.specs.Shown.{arrows_of, shown_of};

    /// Those for which `choice` asks, and those with these numbers; no record was taken yet.
    fn new(alloc: Global, choice: Choice<'a>, also: &'a [u64]) -> Charted<'a>
        ensures { HasAsked choice.entry also.entry.now result [] }
    {
        let asked = Asked::new(alloc, choice);
        let outcomes = Outcomes::new(alloc);
        let chart = Chart::new(alloc);
        Charted {
            asked,
            also,
            outcomes,
            chart,
            is_full: false,
        }
    }

    /// Takes one record more. After an error an arrow may be missing.
    fn take(&mut self, view: &RecordView<'_>) -> Result<(), AllocError>
        ensures { OnOk result ((choice : Choice) (also : List ℕ) → TakesOneMore (HasAsked choice also) self.old self.new (viewed view.now)) }
    {
        let is_asked = self.asked.take(view)?;
        let told = self.outcomes.take(view)?;
        let is_drawn = self.is_drawn(view, is_asked);
        self.add(view, told, is_drawn)?;
        Ok(())
    }

    /// Whether a record has an arrow, by whether it is asked for.
    fn is_drawn(&self, view: &RecordView<'_>, is_asked: bool) -> bool
        ensures { result ≡ is_drawn self.now.also.now view.now.number is_asked }
    {
        is_asked || self.also.contains(&view.number)
    }

    /// Adds the arrow of a record that has one, and tells the outcome of the delivery that begins in this record, or notes that it
    /// would be one too many.
    fn add(
        &mut self,
        view: &RecordView<'_>,
        told: Option<u64>,
        is_drawn: bool,
    ) -> Result<(), AllocError>
        ensures asked { self.new.asked ≡ self.old.asked }
        ensures also { self.new.also ≡ self.old.also }
        ensures outcomes { self.new.outcomes ≡ self.old.outcomes }
        ensures few { OnOk result (self.new.is_full ≡ false → self.old.is_full ≡ false) }
        ensures arrows { OnOk result (self.new.is_full ≡ false → arrows_of self.new.chart ≡ (if is_drawn then arrows_of self.old.chart ++ shown_of (viewed view.now) told ∷ [] else arrows_of self.old.chart)) }
    {
        if !is_drawn {
            return Ok(());
        }
        if self.is_full {
            return Ok(());
        }
        let (link, has_session) = (self.asked.link_of(view), self.asked.has_session_of(view));
        match self.chart.take(view, link, has_session, told) {
            Ok(()) => Ok(()),
            Err(ChartFault::Full) => {
                self.is_full = true;
                Ok(())
            }
            Err(ChartFault::Memory) => Err(AllocError),
        }
    }
}

/// The chart of the records that are asked for, of the capture that is read, under this title. All of it is read; where it
/// has a fault the chart is that of the whole records in front of it.
///
/// # Errors
///
/// More records are asked for than a chart may have, or it could not be drawn.
pub fn draw_capture<R: Read>(
    alloc: Global,
    title: &str,
    choice: Choice<'_>,
    input: R,
) -> Result<Drawn, NoChart>
where
    R: Drop,
    // The ending is that of the octets, read as the text of a capture.
    ensures ending { IfOk result (λ drawn. IfSome (R.remaining input) (λ octets. EndsText octets drawn.ending)) }
    // What is drawn is an SVG.
    ensures document { IfOk result (λ drawn. IsSvg (string_bytes drawn.text)) }
    // Under the title it has the arrows of the records that are asked for, in order, each once, and none of them is marked. To an
    // arrow whose record tells an outcome comes a line from the delivery's, where that is asked for too.
    ensures arrows { IfOk result (λ drawn. DrawsAsked title.now choice.entry (R.remaining input) drawn.ending (string_bytes drawn.text)) }
{
    let marks = Marks {
        refused: None,
        compared: &[],
    };
    draw_marked(alloc, title, choice, &[], marks, input)
}

/// The chart of the records that are asked for, and of those with these numbers, of the capture that is read, with these marks. All
/// of it is read; where it has a fault the chart is that of the whole records in front of it.
///
/// # Errors
///
/// There are more of these records than a chart may have, or it could not be drawn.
pub fn draw_marked<R: Read>(
    alloc: Global,
    title: &str,
    choice: Choice<'_>,
    also: &[u64],
    marks: Marks<'_>,
    input: R,
) -> Result<Drawn, NoChart>
where
    R: Drop,
    ensures ending { IfOk result (λ drawn. IfSome (R.remaining input) (λ octets. EndsText octets drawn.ending)) }
    ensures document { IfOk result (λ drawn. IsSvg (string_bytes drawn.text)) }
    // Under the title it has the arrows of these records, in order, each once, with these marks.
    ensures arrows { IfOk result (λ drawn. DrawsMarked title.now (marking marks.entry) choice.entry also.now (R.remaining input) drawn.ending (string_bytes drawn.text)) }
{
    let mut charted = Charted::new(alloc, choice, also);
    draw_read(alloc, title, marks, input, &mut charted)
}

/// The same, with a chart that has taken no record yet.
///
/// It borrows that: owned here, its drop would be proved on each way out.
fn draw_read<R: Read>(
    alloc: Global,
    title: &str,
    marks: Marks<'_>,
    input: R,
    charted: &mut Charted<'_>,
) -> Result<Drawn, NoChart>
where
    R: Drop,
    ensures ending { IfOk result (λ drawn. IfSome (R.remaining input) (λ octets. EndsText octets drawn.ending)) }
    ensures document { IfOk result (λ drawn. IsSvg (string_bytes drawn.text)) }
    ensures arrows { (choice : Choice) (also : List ℕ) → HasAsked choice also charted.old []
        → IfOk result (λ drawn. DrawsMarked title.now (marking marks.entry) choice also (R.remaining input) drawn.ending (string_bytes drawn.text)) }
{
    let ending = read_all(alloc, input, charted);
    if charted.is_full {
        return Err(NoChart::TooMany);
    }
    match charted.chart.draw(title, marks) {
        Ok(text) => Ok(Drawn { text, ending }),
        Err(_) => Err(NoChart::Memory),
    }
}

/// Takes the records of the capture that is read, and says how its reading ended.
fn read_all<R: Read>(alloc: Global, input: R, charted: &mut Charted<'_>) -> Ending
where
    R: Drop,
    ensures ending { IfSome (R.remaining input) (λ octets. EndsText octets result) }
    ensures taken { IfSome (R.remaining input) (λ octets. TakesAll (HasAsked charted.old.asked.choice charted.old.also.now) (reading octets).records result charted.old charted.new) }
{
    match Reader::start(alloc, input) {
        Ok((_, mut records)) => take_records(&mut records, charted),
        Err(fault) => Ending::from(fault),
    }
}

/// Takes the records that are read.
///
/// It borrows their reader: owned here, its drop would be proved on each way out of the loop.
fn take_records<R: Read>(records: &mut Reader<R>, charted: &mut Charted<'_>) -> Ending
    requires { fault_of records.old ≡ None }
    ensures ending { IfSome (left_of R.remaining records.old) (λ left. EndsRecords (offset_of records.old) left result) }
    ensures taken { IfSome (left_of R.remaining records.old) (λ left. TakesAll (HasAsked charted.old.asked.choice charted.old.also.now) (records_behind (offset_of records.old) left).records result charted.old charted.new) }
{
    for number in 0..u64::MAX {
        match records.next_record() {
            Ok(Some(entry)) => {
                let Ok(()) = charted.take(&view_of(number, &entry)) else {
                    return Ending::NoMemory;
                };
            }
            Ok(None) => return Ending::Whole,
            Err(fault) => return Ending::from(fault),
        }
    }
    // A reader gives fewer records.
    Ending::Unreadable(0)
}
