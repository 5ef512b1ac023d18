//! A step for a record of an inbox.

ghost use Rattle.std.specs.Prelude.{◌≡◌, ◌∷◌, [], true, IfOk, MatchOption, OnErr, All};
ghost use Rattle.route_items.specs.Inputs.{is_output};
ghost use Rattle.route_items.specs.Items.{connection_of, what_of};
ghost use Rattle.daemon_server.specs.Stepping.{HasStepped, IsInput};

use crate::recording::RecordingCore;
use capture_form::{Record, What};
use pairing_cert::Note;
use route_core::Dues;
use route_items::{Item, StepFault};
use std::alloc::Global;
use std::io::Write;

/// The core takes the item that the record tells, and gives the records of the step, of which the first is equal to this and owns
/// its octets too.
///
/// # Errors
///
/// As `RecordingCore::step_record`, and `Memory` where another owner of the octets is refused; then nothing has changed.
pub fn step_entry<D: Dues + Drop, W: Write + Drop>(
    core: &mut RecordingCore<D, W>,
    entry: &Record,
) -> Result<Vec<Record>, StepFault>
    requires input { IsInput entry.now }
    // It is the next input, and the records that are given stand behind those so far.
    ensures stepped { IfOk result (λ given. HasStepped (entry.now ∷ []) core.old core.new given.items) }
    ensures unchanged { OnErr result (core.new.journal ≡ core.old.journal) }
{
    let Ok(what) = entry.what.clone() else {
        return Err(StepFault::Memory);
    };
    let Some(item) = item_of(entry.connection, &entry.what) else {
        unreachable!()
    };
    let copy = Record {
        connection: entry.connection,
        what,
        note: Note::None,
    };
    core.step_record(item, copy)
}

/// The core takes the items that the records of an inbox tell, in order, and gives the records of all these steps.
///
/// # Errors
///
/// As `step_entry`, at the first that is not taken, and `Memory` where room for the records is refused. Those before it were taken.
pub fn step_inbox<D: Dues + Drop, W: Write + Drop>(
    alloc: Global,
    core: &mut RecordingCore<D, W>,
    inbox: &[Record],
) -> Result<Vec<Record>, StepFault>
    requires inputs { All IsInput inbox.now }
    // They are the next inputs, and the records that are given stand behind those so far.
    ensures stepped { IfOk result (λ given. HasStepped inbox.now core.old core.new given.items) }
{
    let mut given = Vec::new(alloc);
    for entry in inbox {
        let mut more = step_entry(core, entry)?;
        if given.append(&mut more).is_err() {
            return Err(StepFault::Memory);
        }
    }
    Ok(given)
}

/// The item that happened so on the connection: none where a frame was written.
fn item_of(connection: u32, what: &What) -> Option<Item<'_>>
    ensures { MatchOption result (is_output what.now ≡ true) (λ item. (connection_of item ≡ connection) × (what_of item ≡ what.now)) }
{
    match what {
        What::Opened => Some(Item::Opened(connection)),
        What::In(frame) => Some(Item::In(connection, frame.octets())),
        What::Broken => Some(Item::Broken(connection)),
        What::Lost => Some(Item::Lost(connection)),
        What::Out(_) => None,
    }
}
