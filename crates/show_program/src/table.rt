//! One table of all records.

use capture_form::RuleSet;
use capture_view::RecordView;
use capture_words::{Page, Summary, View};
use std::alloc::{AllocError, Global};

/// What the records so far come to.
#[derive(Drop)]
pub struct Table {
    summary: Summary,
}

impl Table {
    pub fn new(alloc: Global) -> Table {
        Table {
            summary: Summary::new(alloc),
        }
    }
}

impl View for Table {
    ghost use Rattle.std.specs.Prelude.{◌≡◌};
    ghost use Rattle.capture_view.specs.Totals.{counted};
    ghost use Rattle.capture_words.specs.Summary.{totals_of};

    ghost agrees = { λ table past. totals_of table.summary ≡ counted past };

    fn begin(&self, rules: &RuleSet, page: &mut Page) -> Result<(), AllocError> {
        page.put_rules(rules)
    }

    fn take(&mut self, view: &RecordView<'_>, _page: &mut Page) -> Result<(), AllocError> {
        self.summary.take(view)
    }

    fn end(&self, page: &mut Page) -> Result<(), AllocError> {
        self.summary.put(page)
    }
}
