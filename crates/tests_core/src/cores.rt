//! Cores: their rules, what is done to them, the text of what they made, and what the auditor says of it.

use address_table::Rules;
use capture_form::{Capture, Distribution, append, append_head};
use flow_counts::MAX_FRAME_SIZE;
use kit_gates::one_rule;
use kit_talks::Deed;
use route_core::Core;
use route_items::{Item, StepFault};
use std::alloc::{AllocError, Global};
use std::io;
use std::io::ErrorKind;

/// As many records as a core may have, where nothing else is said.
pub(crate) const LIMIT: u64 = 1_000_000;

/// No rules.
pub(crate) fn no_rules(alloc: Global) -> Result<Rules, AllocError> {
    Rules::new(Vec::new(alloc)).ok().ok_or(AllocError)
}

/// A core without rules.
///
/// # Errors
///
/// Where memory is refused.
pub(crate) fn core_without_rules(alloc: Global) -> Result<Core, AllocError> {
    Core::new(alloc, &no_rules(alloc)?, LIMIT)
}

/// A core of one rule.
///
/// # Errors
///
/// Where the rule is not taken, or memory is refused.
pub(crate) fn core_of_rule(
    alloc: Global,
    distribution: Distribution,
    prefix: &str,
    limit: u64,
) -> io::Result<Core> {
    let Ok(rules) = Rules::new(one_rule(alloc, distribution, prefix)?) else {
        return Err(io::Error::from(ErrorKind::InvalidInput));
    };
    Ok(Core::new(alloc, &rules, limit)?)
}

/// The text of what a core of these rules made, but in the form of a known capture: a core's own has form Two. There is none
/// where one of both has other rules.
///
/// # Errors
///
/// Where memory is refused.
pub(crate) fn text_in_form(
    alloc: Global,
    rules: &Rules,
    known: &Capture,
    made: &Capture,
) -> Result<Option<Vec<u8>>, AllocError> {
    if !rules.are_of(known) || !rules.are_of(made) {
        return Ok(None);
    }
    let mut text = Vec::new(alloc);
    let mut is_whole = append_head(&mut text, known.rules()).is_ok();
    for entry in made.records() {
        is_whole = is_whole && append(&mut text, entry).is_ok();
    }
    if is_whole {
        Ok(Some(text))
    } else {
        Err(AllocError)
    }
}

/// Does this to a core. A frame that no router is given, by its length, is as one on a connection that is not there.
///
/// # Errors
///
/// As `Core::step`.
pub(crate) fn done(core: &mut Core, deed: &Deed) -> Result<(), StepFault> {
    match deed {
        Deed::Opened(connection) => core.step(Item::Opened(*connection)),
        Deed::In(connection, frame) => {
            if frame.len() > MAX_FRAME_SIZE as usize {
                return Err(StepFault::UnknownConn);
            }
            core.step(Item::In(*connection, frame.as_slice()))
        }
        Deed::Broken(connection) => core.step(Item::Broken(*connection)),
        Deed::Lost(connection) => core.step(Item::Lost(*connection)),
    }
}
