//! A line for each record that is asked for.

use crate::asked::Asked;
use capture_form::RuleSet;
use capture_view::{Choice, RecordView};
use capture_words::{Page, View};
use std::alloc::{AllocError, Global};

/// How many records there are lines of.
#[derive(Clone, Copy, Debug, PartialEq, Eq)]
enum Shown {
    /// No record was read.
    NoRecord,
    /// Records were read, of which none was asked for.
    NoLine,
    Some,
}

/// The records that are asked for, in lines.
#[derive(Drop)]
pub struct Lines<'a> {
    asked: Asked<'a>,
    shown: Shown,
}

impl<'a> Lines<'a> {
    /// Shows the records that `choice` asks for.
    pub fn new(alloc: Global, choice: Choice<'a>) -> Lines<'a> {
        Lines {
            asked: Asked::new(alloc, choice),
            shown: Shown::NoRecord,
        }
    }

    /// Appends the line of a record.
    fn put(&self, view: &RecordView<'_>, page: &mut Page) -> Result<(), AllocError> {
        let link = self.asked.link_of(view);
        page.put_record(view, link, self.asked.has_session_of(view))
    }
}

impl View for Lines<'_> {
    ghost use Rattle.capture_view.specs.Tables.{StandsFor};

    ghost agrees = { λ lines past. StandsFor lines.asked.names past };

    /// Rules have no line.
    fn begin(&self, _rules: &RuleSet, _page: &mut Page) -> Result<(), AllocError> {
        Ok(())
    }

    fn take(&mut self, view: &RecordView<'_>, page: &mut Page) -> Result<(), AllocError> {
        let is_asked = self.asked.take(view)?;
        if is_asked {
            self.put(view, page)?;
        }
        self.shown = match (is_asked, self.shown) {
            (true, _) => Shown::Some,
            (false, Shown::NoRecord) => Shown::NoLine,
            (false, shown) => shown,
        };
        Ok(())
    }

    /// Says so where there was no record, or none that is asked for.
    fn end(&self, page: &mut Page) -> Result<(), AllocError> {
        match self.shown {
            Shown::NoRecord => page.put("no records\n"),
            Shown::NoLine => page.put("no such records\n"),
            Shown::Some => Ok(()),
        }
    }
}
