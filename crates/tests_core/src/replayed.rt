//! Runs the inputs of worked captures through the router's core, and compares what it records with what stands there.
//!
//! The captures are the files `replayed/NAME.cap`. For each, in the order of their names, the program prints the name and
//! `same`, where the core made just these octets of the capture's inputs and rules, or from which octet on it made others; and
//! the auditor's verdict of what the core holds, which it accepts whatever came in. A core's own capture has form Two; it is
//! compared in the form of the file. `README.md` says which of them a core can't have written.
//!
//! Where memory is refused to the core, the capture has to be what it was before that input, the front of what stands there,
//! and the core has to take nothing more.

ghost use Rattle.std.specs.Prelude.{IfOk, IfSome};
ghost use Rattle.std.specs.List.{AllByRecursion};
ghost use Rattle.route_items.specs.Items.{IsShort};

use crate::WRONG;
use crate::auditing::audit_core_text;
use crate::cores::{LIMIT, text_in_form};
use crate::names::is_wanted;
use address_table::Rules;
use audit_core::Verdict;
use capture_form::{Capture, Reading, Record, What, read_whole_records};
use kit_cases::names_in;
use route_core::Core;
use route_items::{Item, StepFault};
use std::alloc::{AllocError, Global};
use std::{fs, io};

/// What came of the inputs of a capture.
#[derive(Clone, Copy)]
enum Replayed {
    /// The octets are no capture, or memory was refused while they were read.
    Unread,
    /// The core made the capture. The auditor says this of what it holds.
    Same(Verdict),
    /// It made another, from this octet on, of which the auditor says this.
    Other(usize, Verdict),
    /// It took no such rules, or not the input of this place.
    Refused(usize),
    /// Memory was refused at the input of this place, and the capture is as before it.
    Stopped(usize),
    /// Memory was refused at the input of this place, and something else is left than has to be.
    Damaged(usize),
}

/// What a core answers to items, and to one that may come behind them.
#[derive(Clone, Copy)]
struct Answers {
    ran: Result<(), (usize, StepFault)>,
    again: Result<(), StepFault>,
}

/// Runs the inputs of the captures of these names, or of all, and prints what came of them; the status.
pub(crate) fn replay_all(rt: &HostRuntime, words: &[String]) -> io::Result<u8> {
    let names = names_in(rt, "replayed", ".cap")?;
    replay_each(rt, names.as_slice(), words)
}

/// The same of those of these names that the words ask for.
///
/// It borrows the names: owned here, their drop would be proved on each way out.
fn replay_each(rt: &HostRuntime, names: &[String], words: &[String]) -> io::Result<u8> {
    let mut status = 0;
    for name in names {
        if is_wanted(words, name.as_str()) && !runs(rt, name.as_str())? {
            status = WRONG;
        }
    }
    Ok(status)
}

/// Runs the inputs of the capture of this name, prints what came of them, and answers whether that is as it has to be.
fn runs(rt: &HostRuntime, name: &str) -> io::Result<bool> {
    let replayed = replay_file(rt, name)?;
    tell(rt, name, &replayed)?;
    Ok(is_run(&replayed))
}

/// What comes of the inputs of the capture of this name.
fn replay_file(rt: &HostRuntime, name: &str) -> io::Result<Replayed> {
    let octets = fs::read(rt, format!(in rt.alloc(); "replayed/{name}.cap")?)?;
    Ok(replay(rt.alloc(), octets.as_slice())?)
}

/// Prints what came of the inputs of the capture of this name.
fn tell(rt: &HostRuntime, name: &str, replayed: &Replayed) -> io::Result<()> {
    match replayed {
        Replayed::Unread => println!(rt; "{name}: not read"),
        Replayed::Same(verdict) => println!(rt; "{name}: same; {verdict}"),
        Replayed::Other(octet, verdict) => {
            println!(rt; "{name}: other from octet {octet}; {verdict}")
        }
        Replayed::Refused(input) => println!(rt; "{name}: input {input} is refused"),
        Replayed::Stopped(input) => println!(rt; "{name}: no memory at input {input}"),
        Replayed::Damaged(input) => println!(rt; "{name}: damaged at input {input}"),
    }
}

/// Whether the core took all inputs, or as many as there was memory for, and the auditor accepts what it made of them, be it
/// this capture or another.
fn is_run(replayed: &Replayed) -> bool {
    matches!(
        replayed,
        Replayed::Same(Verdict::Accepted(_))
            | Replayed::Other(_, Verdict::Accepted(_))
            | Replayed::Stopped(_)
    )
}

/// What comes of the inputs of a capture's whole records.
fn replay(alloc: Global, octets: &[u8]) -> Result<Replayed, AllocError> {
    let Reading { capture, fault } = read_whole_records(alloc, octets);
    match fault {
        Some(_) => Ok(Replayed::Unread),
        None => replay_capture(alloc, &capture, octets),
    }
}

/// The same of a capture that was read whole from these octets.
///
/// It borrows the capture, as the functions below borrow what it owns: owned by one, the drops of all would be proved on each of
/// its ways out.
fn replay_capture(alloc: Global, capture: &Capture, octets: &[u8]) -> Result<Replayed, AllocError> {
    match rules_of(alloc, capture)? {
        Some(rules) => replay_by(alloc, &rules, capture, octets),
        None => Ok(Replayed::Refused(0)),
    }
}

/// The same, by the rules of the capture.
fn replay_by(
    alloc: Global,
    rules: &Rules,
    capture: &Capture,
    octets: &[u8],
) -> Result<Replayed, AllocError> {
    let mut core = Core::new(alloc, rules, LIMIT)?;
    replay_over(alloc, &mut core, rules, capture, octets)
}

/// The same, over a core that has no records.
fn replay_over(
    alloc: Global,
    core: &mut Core,
    rules: &Rules,
    capture: &Capture,
    octets: &[u8],
) -> Result<Replayed, AllocError> {
    let Answers { ran, again } = run_inputs(alloc, core, capture)?;
    let verdict = audit_core_text(alloc, core);
    let text = text_in_form(alloc, rules, capture, core.capture())?;
    let made = match &text {
        Some(text) => text.as_slice(),
        None => &[],
    };
    match ran {
        Ok(()) => Ok(compared(made, octets, verdict?)),
        Err((place, StepFault::Memory)) => {
            let is_front = text.is_some() && octets.starts_with(made);
            let is_kept = is_front && again == Err(StepFault::Failed);
            stopped(alloc, core.capture(), place, is_kept)
        }
        Err((place, _)) => Ok(Replayed::Refused(place)),
    }
}

/// Runs the inputs of a capture, and then one that may come where not all were taken.
fn run_inputs(alloc: Global, core: &mut Core, capture: &Capture) -> Result<Answers, AllocError> {
    let items = inputs_of(alloc, capture)?;
    Ok(run(core, items.as_slice()))
}

/// Runs the items, and then one that may come where not all were taken.
fn run(core: &mut Core, items: &[Item<'_>]) -> Answers
    requires { AllByRecursion IsShort items.now }
{
    let ran = core.run(items);
    let again = if ran.is_ok() {
        Ok(())
    } else {
        core.step(Item::Opened(u32::MAX))
    };
    Answers { ran, again }
}

/// What came of it where memory was refused at the input of this place: whether just the inputs before it stand in what was made,
/// and all else is kept too.
fn stopped(
    alloc: Global,
    made: &Capture,
    place: usize,
    is_kept: bool,
) -> Result<Replayed, AllocError> {
    let count = inputs_of(alloc, made)?.len();
    Ok(if is_kept && count == place {
        Replayed::Stopped(place)
    } else {
        Replayed::Damaged(place)
    })
}

/// The rules of the capture, unless a router does not take them.
fn rules_of(alloc: Global, capture: &Capture) -> Result<Option<Rules>, AllocError> {
    let known = capture.rules();
    let Ok(rules) = Rules::new(known.copied(alloc)?.into_list()) else {
        return Ok(None);
    };
    Ok(Some(if known.serves_anonymous() {
        rules.with_anonymous()
    } else {
        rules
    }))
}

/// What happened to the router, in order.
#[tactic(auto, using(crate::proofs::Shorts::short_push))]
fn inputs_of(alloc: Global, capture: &Capture) -> Result<Vec<Item<'_>>, AllocError>
    ensures { IfOk result (λ items. AllByRecursion IsShort items.items) }
{
    let mut items = Vec::new(alloc);
    for entry in capture.records() {
        if let Some(item) = item_of(entry) {
            items.push(item)?;
        }
    }
    Ok(items)
}

/// What happened to the router, if the record tells that.
fn item_of(entry: &Record) -> Option<Item<'_>>
    ensures { IfSome result IsShort }
{
    let connection = entry.connection;
    match &entry.what {
        What::Opened => Some(Item::Opened(connection)),
        What::In(frame) => Some(Item::In(connection, frame.octets())),
        What::Broken => Some(Item::Broken(connection)),
        What::Lost => Some(Item::Lost(connection)),
        What::Out(_) => None,
    }
}

/// Whether both are the same, or where the first octet stands that is not, with what the auditor says of what was made.
fn compared(made: &[u8], wanted: &[u8], verdict: Verdict) -> Replayed {
    let alike = made
        .iter()
        .zip(wanted)
        .take_while(|pair| pair.0 == pair.1)
        .count();
    if made.len() == wanted.len() && alike == made.len() {
        Replayed::Same(verdict)
    } else {
        Replayed::Other(alike, verdict)
    }
}
