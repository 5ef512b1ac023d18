//! Records from a reader, written as packets.

ghost use Rattle.std.specs.Prelude.{◌≡◌, [], IfOk, OnErr, None};
ghost use Rattle.capture_form.specs.Reader.{fault_of, left_of, offset_of};
ghost use Rattle.capture_packets.specs.Writer.{IsBehind, writer_of};
ghost use Rattle.capture_packets.specs.Packed.{PacksRecords, PacksText, StopsRecords, StopsText};

use crate::{PacketFault, PacketWriter};
use capture_form::Reader;
use capture_words::Ending;
use std::alloc::Global;
use std::io::{Read, Write};

/// The packets could not be written.
#[derive(Clone, Copy, Debug, PartialEq, Eq)]
pub struct NotPacked;

/// Writes the packets of the capture that is read, as one pcapng file that begins behind what the writer holds, flushes
/// the writer, and gives it back with how the reading ended. In front of a fault of the capture stand the packets of the
/// whole records that were read: a file of its own.
///
/// # Errors
///
/// The writer failed, was interrupted or took no octet. The first octets of the packets stand.
pub fn pack_capture<R: Read, W: Write>(
    alloc: Global,
    input: R,
    out: W,
) -> (W, Result<Ending, NotPacked>)
where
    R: Drop,
    ensures packs { IfOk result.1 (PacksText (R.remaining input) (W.contents out) (W.contents result.0)) }
    ensures stops { OnErr result.1 (StopsText (R.remaining input) (W.contents out) (W.contents result.0)) }
{
    let mut packets = PacketWriter::new(alloc, out);
    let packed = pack_text(alloc, input, &mut packets);
    let mut written = packets.into_writer();
    match written.flush() {
        Ok(()) => (written, packed),
        Err(_) => (written, Err(NotPacked)),
    }
}

/// Writes the packets of the text that is read.
fn pack_text<R: Read, W: Write>(
    alloc: Global,
    input: R,
    packets: &mut PacketWriter<W>,
) -> Result<Ending, NotPacked>
where
    R: Drop,
    requires { IsBehind packets.old [] }
    ensures packs { IfOk result (PacksText (R.remaining input) (W.contents (writer_of packets.old)) (W.contents (writer_of packets.new))) }
    ensures stops { OnErr result (StopsText (R.remaining input) (W.contents (writer_of packets.old)) (W.contents (writer_of packets.new))) }
{
    match packets.start() {
        Ok(()) => {}
        Err(_) => return Err(NotPacked),
    }
    match Reader::start(alloc, input) {
        Ok((_, records)) => pack_records(records, packets),
        Err(fault) => Ok(Ending::from(fault)),
    }
}

/// Writes the packets of the records that are read, behind the head of the file.
fn pack_records<R: Read, W: Write>(
    records: Reader<R>,
    packets: &mut PacketWriter<W>,
) -> Result<Ending, NotPacked>
where
    R: Drop,
    requires open { fault_of records ≡ None }
    requires begun { IsBehind packets.old [] }
    ensures packs { IfOk result (PacksRecords (offset_of records) (left_of R.remaining records) (W.contents (writer_of packets.old)) (W.contents (writer_of packets.new))) }
    ensures stops { OnErr result (StopsRecords (offset_of records) (left_of R.remaining records) (W.contents (writer_of packets.old)) (W.contents (writer_of packets.new))) }
{
    let mut records = records;
    for number in 0..u64::MAX {
        match records.next_record() {
            Ok(Some(entry)) => match packets.put(number, &entry) {
                Ok(()) => {}
                Err(PacketFault::Memory) => return Ok(Ending::NoMemory),
                Err(PacketFault::Write(_)) => return Err(NotPacked),
            },
            Ok(None) => return Ok(Ending::Whole),
            Err(fault) => return Ok(Ending::from(fault)),
        }
    }
    // A reader gives fewer records.
    Ok(Ending::Unreadable(0))
}
