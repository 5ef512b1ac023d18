//! Where lanes and rows stand, in pixels.

ghost use Rattle.std.specs.Prelude.{◌≡◌, IfOk, OnOk, map};
ghost use Rattle.capture_chart.specs.Marks.{marking};
ghost use Rattle.capture_chart.specs.Shown.{shown};
ghost use Rattle.capture_chart.specs.Places as spec;

use crate::arrow::Arrow;
use crate::marks::{Mark, Marks};
use std::alloc::{AllocError, Global};

/// The place of the router's lane. The labels of arrows stand beside it, in front of the lanes of connections.
pub(crate) const ROUTER: u32 = 60;
/// The place of the first lane of a connection.
pub(crate) const FIRST_LANE: u32 = 360;
/// From one lane to the next, which has room for the name of a connection.
pub(crate) const LANE: u32 = 160;
/// The place of the first row.
pub(crate) const TOP: u32 = 60;
/// From one row to the next.
pub(crate) const ROW: u32 = 28;

/// Where an arrow stands, and how it is marked.
#[derive(Clone, Copy, Debug)]
pub(crate) struct ArrowPlace {
    /// Of its connection's lane.
    pub lane: u32,
    pub row: u32,
    /// Where the delivery that is carried comes in, if it is shown: its lane and its row.
    pub carried: Option<(u32, u32)>,
    /// The same of the delivery whose outcome is told.
    pub told: Option<(u32, u32)>,
    pub mark: Mark,
}

/// The place of a row of arrows.
pub(crate) fn row_place(row: usize) -> u32
    ensures { result ≡ spec.row_place row }
{
    count_place(TOP, ROW, row)
}

/// The place of a lane of a connection, by its number.
pub(crate) fn lane_place(lane: usize) -> u32
    ensures { result ≡ spec.lane_place lane }
{
    count_place(FIRST_LANE, LANE, lane)
}

/// It stops at the largest number.
fn count_place(first: u32, step: u32, count: usize) -> u32
    ensures { result ≡ spec.count_place first step count }
{
    let count = u32::try_from(count).unwrap_or(u32::MAX);
    first.saturating_add(step.saturating_mul(count))
}

/// The place of a connection's lane, where it has one.
pub(crate) fn connection_place(lanes: &[u32], connection: u32) -> u32
    ensures { result ≡ spec.connection_place lanes.now connection }
{
    for (lane, other) in lanes.iter().enumerate() {
        if *other == connection {
            return lane_place(lane);
        }
    }
    ROUTER
}

/// The place between two others.
pub(crate) fn between(one: u32, other: u32) -> u32
    ensures { result ≡ spec.between one other }
{
    one / 2 + other / 2
}

/// Where an arrow of a chart stands, by its row, and how it is marked.
pub(crate) fn place_at(
    marks: Marks<'_>,
    lanes: &[u32],
    arrows: &[Arrow],
    row: usize,
    arrow: &Arrow,
) -> ArrowPlace
    ensures { result ≡ spec.place_at (marking marks.entry) lanes.now (map shown arrows.now) row (shown arrow.now) }
{
    ArrowPlace {
        lane: connection_place(lanes, arrow.connection),
        row: row_place(row),
        carried: record_place(lanes, arrows, arrow.carried),
        told: record_place(lanes, arrows, arrow.told),
        mark: marks.mark_of(arrow.number),
    }
}

/// Where the arrow of a record stands, if a record is named and has one.
fn record_place(lanes: &[u32], arrows: &[Arrow], number: Option<u64>) -> Option<(u32, u32)>
    ensures { result ≡ spec.record_place lanes.now (map shown arrows.now) number }
{
    match number {
        Some(number) => found_place(lanes, arrows, number),
        None => None,
    }
}

/// Where the arrow of a record stands, if there is one.
fn found_place(lanes: &[u32], arrows: &[Arrow], number: u64) -> Option<(u32, u32)>
    ensures { result ≡ spec.found_place lanes.now number 0 (map shown arrows.now) }
{
    for (row, arrow) in arrows.iter().enumerate() {
        if arrow.number == number {
            return Some((connection_place(lanes, arrow.connection), row_place(row)));
        }
    }
    None
}

/// The connections of arrows, each once, in the order in which they come.
pub(crate) fn lanes_of(alloc: Global, arrows: &[Arrow]) -> Result<Vec<u32>, AllocError>
    ensures { IfOk result (λ lanes. lanes.items ≡ spec.lanes_of (map shown arrows.now)) }
{
    let mut lanes = Vec::new(alloc);
    for arrow in arrows {
        add_lane(&mut lanes, arrow.connection)?;
    }
    Ok(lanes)
}

/// Adds the lane of a connection, if it has none.
fn add_lane(lanes: &mut Vec<u32>, connection: u32) -> Result<(), AllocError>
    ensures { OnOk result (lanes.new.items ≡ spec.with_lane lanes.old.items connection) }
{
    if lanes.contains(&connection) {
        return Ok(());
    }
    lanes.push(connection)?;
    Ok(())
}
