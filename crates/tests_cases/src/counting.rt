//! The counters of a session, a link or an address.
//!
//! Behind the words of a case stands what came of it, as Rust's `Debug` writes it, worked out by hand from the standard and the
//! numbers of the profile. The modules, in reading order:
//!
//! - `words`: the words of a case
//! - `deliveries`, `windows`, `credits`, `addresses`, `groups`, `notes`: the subjects

mod addresses;
mod credits;
mod deliveries;
mod groups;
mod notes;
mod windows;
mod words;

use addresses::Addresses;
use credits::Credits;
use deliveries::Deliveries;
use groups::Keyed;
use kit_cases::tell_cases;
use notes::Notes;
use std::io;
use windows::Windows;

/// Tells what comes of the cases of each subject.
pub fn tell_counters(rt: &HostRuntime) -> io::Result<()> {
    let alloc = rt.alloc();
    tell_cases(rt, "deliveries", Deliveries::new(alloc))?;
    tell_cases(rt, "windows", Windows::new(alloc))?;
    tell_cases(rt, "credits", Credits::new(alloc))?;
    tell_cases(rt, "addresses", Addresses::new(alloc))?;
    tell_cases(rt, "groups", Keyed::new(alloc))?;
    tell_cases(rt, "notes", Notes::new(alloc))
}
