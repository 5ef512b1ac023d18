//! Where columns and values stand, in pixels.

ghost use Rattle.std.specs.Prelude.{◌≡◌, ◌<◌, ◌≤◌, List, Option, length};
ghost use Rattle.svg_text.specs.Numbers.{most};
ghost use Rattle.credit_chart.specs.Places as spec;

use crate::level::Quantity;

/// The most columns.
pub(crate) const COLUMNS: usize = 1000;
/// The place of the first column.
pub(crate) const LEFT: u32 = 40;
/// The place behind the last one.
pub(crate) const RIGHT: u32 = 1040;
/// The place of the title above all panels.
pub(crate) const ABOVE: u32 = 24;
/// The place of the words below all panels.
pub(crate) const BELOW: u32 = 830;
/// How wide and how high a document is.
pub(crate) const WIDTH: u32 = 1080;

pub(crate) const HEIGHT: u32 = 850;

/// Where the lowest value of a panel stands.
pub(crate) fn bottom_of(quantity: Quantity) -> u32
    ensures { result ≡ spec.bottom_of quantity }
{
    match quantity {
        Quantity::Credit => 200,
        Quantity::Window => 380,
        Quantity::Waiting => 560,
        Quantity::Unsettled => 740,
        Quantity::Draining => 800,
    }
}

/// How far above that the highest one stands.
pub(crate) fn height_of(quantity: Quantity) -> u32
    ensures { result ≡ spec.height_of quantity }
{
    match quantity {
        Quantity::Credit | Quantity::Window | Quantity::Waiting | Quantity::Unsettled => 130,
        Quantity::Draining => 10,
    }
}

/// How the columns of a document stand for its records.
#[derive(Clone, Copy, Debug)]
pub(crate) struct Scale {
    /// For how many records each stands.
    pub span: usize,
    /// How many there are; the last may stand for none.
    pub count: usize,
    /// From one to the next.
    pub step: u32,
}

/// The columns of this many records, where each stands for so many.
pub(crate) fn scale_of(records: usize, span: usize) -> Scale
    ensures computed { span ≡ spec.span_of records → result ≡ spec.scale_of records }
    ensures few { span ≡ spec.span_of records → result.count ≤ COLUMNS }
{
    let count = records.checked_div(span).unwrap_or(0).saturating_add(1);
    Scale {
        span,
        count,
        step: narrowed(COLUMNS / count),
    }
}

/// The place of a column, by its number.
pub(crate) fn place_of(scale: Scale, column: usize) -> u32
    ensures { result ≡ spec.place_of scale column }
{
    LEFT.saturating_add(scale.step.saturating_mul(narrowed(column)))
}

/// It stops at the largest number.
fn narrowed(number: usize) -> u32
    ensures { result ≡ most number }
{
    u32::try_from(number).unwrap_or(u32::MAX)
}

/// Where a value stands, if this is the highest one.
pub(crate) fn row_of(quantity: Quantity, top: u32, value: u32) -> u32
    requires { 0 < top }
    ensures { result ≡ spec.row_of quantity top value }
{
    let rise = u64::from(value) * u64::from(height_of(quantity)) / u64::from(top);
    let rise = u32::try_from(rise).unwrap_or(u32::MAX);
    bottom_of(quantity).saturating_sub(rise)
}
