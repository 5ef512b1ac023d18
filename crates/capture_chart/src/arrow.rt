//! An arrow of a chart.

use crate::label::label_of;
use crate::marks::Mark;
use crate::topic::{Course, Topic, course_of, topic_of};
use capture_view::{LinkTold, RecordView};
use capture_words::Page;
use itoa::Buffer;
use pairing_cert::Note;
use std::alloc::{AllocError, Global};

/// How many characters of a text of the capture stand in an arrow's words.
const WIDTH: usize = 40;

/// What is shown of a record.
#[derive(Debug, Drop)]
pub struct Arrow {
    /// The number of the record.
    pub number: u64,
    pub connection: u32,
    pub course: Course,
    pub topic: Topic,
    /// The record of the first transfer of the delivery that is carried.
    pub carried: Option<u64>,
    /// The record of the first transfer of the delivery whose outcome is told.
    pub told: Option<u64>,
    /// The line of the record.
    pub words: String,
    /// What stands beside the arrow: the number of the record, its performative, and the fields that matter most.
    pub label: String,
}

impl Arrow {
    ghost use Rattle.std.specs.Prelude.{◌≡◌, IfOk, OnOk, ◌++◌};
    ghost use Rattle.std.specs.String.{string_bytes};
    ghost use Rattle.capture_view.specs.Viewed.{viewed};
    ghost use Rattle.capture_chart.specs.Shown.{shown, shown_of, title_text};

    /// The arrow of a record, whose frame names this link, or stands on a session that has begun, and which tells the outcome of
    /// the delivery that begins in this record.
    pub(crate) fn new(
        alloc: Global,
        view: &RecordView<'_>,
        link: Option<LinkTold<'_>>,
        has_session: bool,
        told: Option<u64>,
    ) -> Result<Arrow, AllocError>
        ensures { IfOk result (λ arrow. shown arrow ≡ shown_of (viewed view.now) told) }
    {
        let mut page = Page::new(alloc, Some(WIDTH));
        page.put_record(view, link, has_session)?;
        let words = String::from_str(alloc, page.text().trim())?;
        Ok(Arrow {
            number: view.number,
            connection: view.connection,
            course: course_of(view.happened),
            topic: topic_of(view.happened),
            carried: carried_by(view.note),
            told,
            words,
            label: label_of(alloc, view)?,
        })
    }

    /// What the arrow is called under this mark.
    pub(crate) fn title(&self, alloc: Global, mark: Mark) -> Result<String, AllocError>
        ensures { IfOk result (λ title. string_bytes title ≡ title_text mark (shown self.now)) }
    {
        let mut digits = Buffer::new();
        let mut title = String::from_str(alloc, digits.format(self.number))?;
        title.push_str(" connection ")?;
        let mut digits = Buffer::new();
        title.push_str(digits.format(self.connection))?;
        title.push_str(self.course.words())?;
        title.push_str(self.topic.words())?;
        title.push_str(mark.words())?;
        Ok(title)
    }
}

impl Arrow {
    ghost use Rattle.std.specs.Prelude.{◌≡◌, IfOk};
    ghost use Rattle.std.specs.String.{string_bytes};
    ghost use Rattle.capture_chart.specs.Shown.{shown, told_text};

    /// What the line to it from the delivery that begins in this record is called.
    pub(crate) fn told_title(&self, alloc: Global, number: u64) -> Result<String, AllocError>
        ensures { IfOk result (λ title. string_bytes title ≡ told_text number (shown self.now)) }
    {
        let mut digits = Buffer::new();
        let mut words = String::from_str(alloc, digits.format(self.number))?;
        words.push_str(" tells the outcome of ")?;
        let mut digits = Buffer::new();
        words.push_str(digits.format(number))?;
        Ok(words)
    }
}

ghost use Rattle.std.specs.Prelude.{◌≡◌};
ghost use Rattle.capture_chart.specs.Shown as shown;

fn carried_by(note: Note) -> Option<u64>
    ensures { result ≡ shown.carried_by note }
{
    match note {
        Note::Pair(number) => Some(number),
        Note::None | Note::Told(_) => None,
    }
}
