//! Judges small captures, each of which tells a right reading of the law from a likely wrong one, and says why some of them
//! are refused.
//!
//! The captures are the files `NAME.cap` of the folder that the program runs in. For each, in the order of their names, it
//! prints the name and the line of its verdict, and whether an auditor that forgets has another one. Of those that the file `told`
//! there names, one on a line, it prints behind this what `amqp_show --why` says: the line of the verdict, and the reason in words.
//! `README.md` says what each capture tells apart.
//!
//! Each is also damaged, by the choices of a seed, and at the end it is told how many of these captures the auditor and the
//! plain checker judge alike (`damaged`).

ghost use Rattle.std.specs.Prelude.{◌≡◌, ◌++◌, IfOk, codes, string_bytes};
ghost use Rattle.audit_core.specs.Report.{line_of};
ghost use Rattle.audit_core.specs.Verdict.{Answers};
ghost use Rattle.audit_core.specs.declared.verdict.Verdict.{Verdict};

mod damaged;

use audit_core::{Verdict, audit_bytes, audit_forgetting};
use damaged::Damage;
use kit_cases::names_in;
use refusal_showing::explain_capture;
use std::alloc::{AllocError, Global};
use std::{fs, io};

/// Tells of all captures what `tell_each` does. Each is damaged so often, by the choices of this seed.
pub fn judge_all(rt: &HostRuntime, often: u32, seed: u32) -> io::Result<()> {
    let names = names_in(rt, ".", ".cap")?;
    tell_captures(
        rt,
        names.as_slice(),
        &mut Damage::new(u64::from(seed), often),
    )
}

/// The same of the captures of these names.
///
/// It borrows the names and the damage: owned together, their drops would be proved on each way out.
fn tell_captures(rt: &HostRuntime, names: &[String], damage: &mut Damage) -> io::Result<()> {
    let told = fs::read_to_string(rt, "told")?;
    tell_each(rt, names, told.as_str(), damage)
}

/// Writes the verdicts of captures, the reasons of those of which they are told, and how those are judged that come of damage
/// to them.
fn tell_each(
    rt: &HostRuntime,
    names: &[String],
    told: &str,
    damage: &mut Damage,
) -> io::Result<()> {
    for name in names {
        tell_capture(rt, name.as_str(), told, damage)?;
    }
    println!(rt; "{damage}")
}

/// Reads a capture, writes its verdict, and the reason where it is told, and damages it.
fn tell_capture(rt: &HostRuntime, name: &str, told: &str, damage: &mut Damage) -> io::Result<()> {
    let octets = fs::read(rt, format!(in rt.alloc(); "{name}.cap")?)?;
    tell_octets(rt, name, octets.as_slice(), told, damage)
}

/// The same of a capture of these octets. The reason is told where one of the lines names the capture.
fn tell_octets(
    rt: &HostRuntime,
    name: &str,
    octets: &[u8],
    told: &str,
    damage: &mut Damage,
) -> io::Result<()> {
    rt.println(line_on(rt.alloc(), name, octets)?)?;
    if !is_judged_alike(rt.alloc(), octets) {
        rt.println("not so by an auditor that forgets")?;
    }
    if told.lines().any(|line| line == name) {
        tell_reason(rt, octets)?;
    }
    Ok(damage.judge_damaged(rt.alloc(), octets)?)
}

/// An auditor that forgets has the verdict of one that keeps all; of a record that breaks a clause it has none.
fn is_judged_alike(alloc: Global, octets: &[u8]) -> bool {
    let verdict = audit_bytes(alloc, octets);
    match audit_forgetting(alloc, octets) {
        Some(sure) => sure == verdict,
        None => matches!(verdict, Verdict::Refused(_, _)),
    }
}

/// Writes the line of the verdict of these octets, and why they are refused or are no capture.
fn tell_reason(rt: &HostRuntime, octets: &[u8]) -> io::Result<()> {
    match explain_capture(rt.alloc(), octets, &mut rt.stdout()) {
        Ok(_) => Ok(()),
        Err(_) => rt.println("not written"),
    }
}

/// The name of a capture, and the line of the verdict of its octets.
fn line_on(alloc: Global, name: &str, octets: &[u8]) -> Result<String, AllocError>
    ensures { IfOk result (λ line. (verdict : Verdict) × Answers octets.now verdict
        × string_bytes line ≡ name.now ++ (codes ": " ++ line_of verdict)) }
{
    let verdict = audit_bytes(alloc, octets);
    format!(in alloc; "{name}: {verdict}")
}
