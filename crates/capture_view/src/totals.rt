//! Counters over records.

use crate::rows::TotalsByRow;
use crate::{Happened, RecordView, Said};
use amqp_perf::Performative;

/// How many records, by what happened, how many of them are transfers, how many octets their payloads have, and how many
/// tell an outcome, by its row. Each number stops at 18446744073709551615.
#[derive(Clone, Copy, Debug, PartialEq, Eq)]
pub struct Totals {
    pub records: u64,
    pub opened: u64,
    pub inputs: u64,
    pub outputs: u64,
    pub lost: u64,
    pub broken: u64,
    pub transfers_in: u64,
    pub transfers_out: u64,
    /// The octets of the payloads that clients sent.
    pub octets_in: u64,
    /// The octets of the payloads that were written.
    pub octets_out: u64,
    /// The frames that were written with a note that tells a row.
    pub told: TotalsByRow,
}

impl Totals {
    ghost use Rattle.std.specs.Prelude.{◌≡◌, []};
    ghost use Rattle.capture_view.specs.Viewed.{viewed};
    ghost use Rattle.capture_view.specs.Totals.{CountsOneMore, counted, plus, share};

    /// Of no records.
    pub fn new() -> Totals
        ensures { result ≡ counted [] }
    {
        Totals {
            records: 0,
            opened: 0,
            inputs: 0,
            outputs: 0,
            lost: 0,
            broken: 0,
            transfers_in: 0,
            transfers_out: 0,
            octets_in: 0,
            octets_out: 0,
            told: TotalsByRow::new(),
        }
    }

    /// Counts one record more.
    pub fn take(&mut self, view: &RecordView<'_>)
        ensures { CountsOneMore self.old self.new (viewed view.now) }
    {
        *self = self.plus(Totals::of(view));
    }

    /// Those of one record alone.
    fn of(view: &RecordView<'_>) -> Totals
        ensures { result ≡ share (viewed view.now) }
    {
        let mut totals = Totals::new();
        totals.records = 1;
        match view.happened {
            Happened::Opened => totals.opened = 1,
            Happened::In(said) => {
                totals.inputs = 1;
                totals.transfers_in = transfers(said);
                totals.octets_in = octets(said);
            }
            Happened::Out(said) => {
                totals.outputs = 1;
                totals.transfers_out = transfers(said);
                totals.octets_out = octets(said);
                totals.told = TotalsByRow::of(view.note);
            }
            Happened::Lost => totals.lost = 1,
            Happened::Broken => totals.broken = 1,
        }
        totals
    }

    /// The sums, which stop at the largest number.
    fn plus(&self, other: Totals) -> Totals
        ensures { result ≡ plus self.now other }
    {
        Totals {
            records: self.records.saturating_add(other.records),
            opened: self.opened.saturating_add(other.opened),
            inputs: self.inputs.saturating_add(other.inputs),
            outputs: self.outputs.saturating_add(other.outputs),
            lost: self.lost.saturating_add(other.lost),
            broken: self.broken.saturating_add(other.broken),
            transfers_in: self.transfers_in.saturating_add(other.transfers_in),
            transfers_out: self.transfers_out.saturating_add(other.transfers_out),
            octets_in: self.octets_in.saturating_add(other.octets_in),
            octets_out: self.octets_out.saturating_add(other.octets_out),
            told: self.told.plus(other.told),
        }
    }
}

ghost use Rattle.std.specs.Prelude.{◌≡◌};
ghost use Rattle.capture_view.specs.Saying.{saying};
ghost use Rattle.capture_view.specs.Shares.{octets, transfers};

/// 1 where a transfer is said.
fn transfers(said: Said<'_>) -> u64
    ensures { result ≡ transfers (saying said.entry) }
{
    match said {
        Said::Says {
            performative: Performative::Transfer(_),
            ..
        } => 1,
        _ => 0,
    }
}

/// How many octets stand behind a transfer.
fn octets(said: Said<'_>) -> u64
    ensures { result ≡ octets (saying said.entry) }
{
    match said {
        Said::Says {
            performative: Performative::Transfer(_),
            rest,
            ..
        } => rest.len() as u64,
        _ => 0,
    }
}
