//! What is kept of the records that were taken, to explain the one that is refused.

use crate::explain_refused;
use audit_core::{Ledger, Watcher};
use capture_form::{Record, RuleSet};
use capture_view::{Names, view_of};
use capture_words::Page;
use refusal_words::{Compared, Explained, Origins, compared_with};
use std::alloc::{AllocError, Global};
use trace_events::ReadRecord;

/// At how many characters the texts and octets of the refused record's line are cut.
const WIDTH: usize = 32;

/// The links by name, and where windows and credits come from, of the records that were taken; and what is said of the one
/// that was refused.
#[derive(Drop)]
pub(crate) struct Explaining {
    // How many records were taken.
    taken: u64,
    names: Names,
    origins: Origins,
    line: Page,
    reason: String,
    compared: Option<Compared>,
}

impl Explaining {
    ghost use Rattle.std.specs.Prelude.{[]};
    ghost use Rattle.refusal_showing.specs.Seen.{HasSeen};

    /// Nothing was taken yet. It takes no memory.
    pub(crate) fn new(alloc: Global) -> Explaining
        ensures { HasSeen result [] }
    {
        Explaining {
            taken: 0,
            names: Names::new(alloc),
            origins: Origins::new(alloc),
            line: Page::new(alloc, Some(WIDTH)),
            reason: String::new(alloc),
            compared: None,
        }
    }

    /// The line of the record that was refused; empty where none was.
    pub(crate) fn line(&self) -> &str {
        self.line.text()
    }

    /// Why it was refused, in some lines; empty where none was.
    pub(crate) fn reason(&self) -> &str {
        self.reason.as_str()
    }

    /// The records that it was compared with; none where no record was refused.
    pub(crate) fn compared(&self) -> Option<Compared> {
        self.compared
    }
}

impl Watcher for Explaining {
    ghost use Rattle.refusal_showing.specs.Seen.{HasExplained, HasSeen};

    ghost saw = { λ first explaining rules records. HasSeen explaining records };

    ghost saw_refused = { λ first explaining rules records entry. HasExplained explaining rules records entry };

    fn taken(
        &mut self,
        _ledger: &Ledger,
        _rules: &RuleSet,
        entry: &Record,
    ) -> Result<(), AllocError> {
        let view = view_of(self.taken, entry);
        self.names.take(&view)?;
        self.origins.take(&view)?;
        self.taken = self.taken.saturating_add(1);
        Ok(())
    }

    fn refused(
        &mut self,
        ledger: &Ledger,
        rules: &RuleSet,
        entry: &Record,
    ) -> Result<(), AllocError> {
        let view = view_of(self.taken, entry);
        self.names.take(&view)?;
        let (link, has_session) = (self.names.named_by(&view), self.names.has_session_of(&view));
        self.line.put_record(&view, link, has_session)?;
        self.compared = write_reason(ledger, rules, entry, &self.origins, &mut self.reason)?;
        Ok(())
    }
}

/// Writes why the ledger does not take the record, in some lines behind this text, and gives the records that it is compared with;
/// none where it breaks no clause.
fn write_reason<'x>(
    ledger: &'x Ledger,
    rules: &RuleSet,
    entry: &'x Record,
    origins: &Origins,
    text: &mut String,
) -> Result<Option<Compared>, AllocError> {
    let entry = ReadRecord::of(entry);
    let Some(reason) = explain_refused(ledger, rules, &entry) else {
        return Ok(None);
    };
    let explained = Explained {
        reason: &reason,
        origins,
    };
    writeln!(text, "{explained}")?;
    Ok(Some(compared_with(&reason, origins)))
}
