//! Plays scenarios through the router's core, and compares what it writes with what they tell.
//!
//! The scenarios are the files `played/NAME.talk`. Each begins with the rule that it shows. For each, in the order of their
//! names, the program prints the name and `as told`, where the core wrote just the records that stand there, in order, or
//! where it did not. The auditor has to accept each capture; else its verdict is printed too. `README.md` says how a scenario
//! is written.
//!
//! - `asked`: what the auditor's tables answer, in words
//! - `talk`: a scenario, line by line

mod asked;
mod talk;

use crate::WRONG;
use crate::cores::LIMIT;
use crate::names::is_wanted;
use address_table::Rules;
use audit_core::Verdict;
use capture_form::{Distribution, Rule};
use kit_cases::names_in;
use kit_gates::{audited, put_rule};
use kit_talks::{Difference, Words};
use route_core::Core;
use std::alloc::{AllocError, Global};
use std::{fs, io};
use talk::play;

/// What came of a scenario.
enum Played {
    /// Its rules are not taken.
    NoRules,
    /// It was played: where the core did otherwise, and what the auditor says of the capture.
    Through(Vec<Difference>, Verdict),
}

/// Plays the scenarios of these names, or all, and prints what came of them; the status.
pub(crate) fn play_all(rt: &HostRuntime, words: &[String]) -> io::Result<u8> {
    let names = names_in(rt, "played", ".talk")?;
    play_each(rt, names.as_slice(), words)
}

/// The same of those of these names that the words ask for.
///
/// It borrows the names: owned here, their drop would be proved on each way out.
fn play_each(rt: &HostRuntime, names: &[String], words: &[String]) -> io::Result<u8> {
    let mut status = 0;
    for name in names {
        if is_wanted(words, name.as_str()) && !is_as_told(rt, name.as_str())? {
            status = WRONG;
        }
    }
    Ok(status)
}

/// Plays a scenario, and prints what came of it: whether all was as it tells, and the auditor accepts the capture.
fn is_as_told(rt: &HostRuntime, name: &str) -> io::Result<bool> {
    match play_file(rt, name)? {
        Played::Through(differences, verdict) => tell(rt, name, differences.as_slice(), verdict),
        Played::NoRules => {
            println!(rt; "{name}: its rules are not taken")?;
            Ok(false)
        }
    }
}

/// Prints where the core did otherwise than a scenario tells, and what the auditor says of the capture: whether nothing is wrong.
///
/// It borrows the differences: owned here, their drop would be proved on each way out.
fn tell(
    rt: &HostRuntime,
    name: &str,
    differences: &[Difference],
    verdict: Verdict,
) -> io::Result<bool> {
    if differences.is_empty() {
        println!(rt; "{name}: as told")?;
    }
    for Difference { line, what } in differences {
        println!(rt; "{name}: line {line}: {what}")?;
    }
    let Verdict::Accepted(_) = verdict else {
        println!(rt; "{name}: the auditor says {verdict}")?;
        return Ok(false);
    };
    Ok(differences.is_empty())
}

/// What comes of the scenario of this name.
fn play_file(rt: &HostRuntime, name: &str) -> io::Result<Played> {
    let text = fs::read_to_string(rt, format!(in rt.alloc(); "played/{name}.talk")?)?;
    Ok(play_text(rt.alloc(), text.as_str())?)
}

/// What comes of a scenario.
fn play_text(alloc: Global, text: &str) -> Result<Played, AllocError> {
    let lines: Vec<&str> = text.split('\n').collect(alloc)?;
    play_lines(alloc, lines.as_slice())
}

/// What comes of a scenario's lines.
fn play_lines(alloc: Global, lines: &[&str]) -> Result<Played, AllocError> {
    match rules_of(alloc, lines)? {
        Some(rules) => play_by(alloc, &rules, lines),
        None => Ok(Played::NoRules),
    }
}

/// The same, by the rules that they give.
///
/// It borrows the rules, and the function below the core: owned together, their drops would be proved on each way out.
fn play_by(alloc: Global, rules: &Rules, lines: &[&str]) -> Result<Played, AllocError> {
    let mut core = Core::new(alloc, rules, limit_of(alloc, lines)?)?;
    play_over(alloc, &mut core, lines)
}

/// The same, over a core that has no records.
fn play_over(alloc: Global, core: &mut Core, lines: &[&str]) -> Result<Played, AllocError> {
    let differences = play(alloc, core, lines)?;
    let verdict = audited(alloc, core.capture())?;
    Ok(Played::Through(differences, verdict))
}

/// The rules that the lines give; none where one of them names no distribution, or a router does not take them.
fn rules_of(alloc: Global, lines: &[&str]) -> Result<Option<Rules>, AllocError> {
    let mut rules = Vec::new(alloc);
    Ok(if put_rules(&mut rules, lines)? {
        Rules::new(rules).ok()
    } else {
        None
    })
}

/// Puts the rules that the lines give, and answers whether each of them names a distribution.
fn put_rules(rules: &mut Vec<Rule>, lines: &[&str]) -> Result<bool, AllocError> {
    for line in lines {
        if !put_line(rules, line)? {
            return Ok(false);
        }
    }
    Ok(true)
}

/// Puts the rule that a line gives, if it gives one; whether it is none that names no distribution.
fn put_line(rules: &mut Vec<Rule>, line: &str) -> Result<bool, AllocError> {
    let words = Words::of(*rules.allocator(), line)?;
    put_told(rules, &words)
}

/// The same of a line in words: `rule DISTRIBUTION PREFIX`.
fn put_told(rules: &mut Vec<Rule>, line: &Words<'_>) -> Result<bool, AllocError> {
    if line.at(0) != "rule" {
        return Ok(true);
    }
    let distribution = match line.at(1) {
        "closest" => Distribution::Closest,
        "balanced" => Distribution::Balanced,
        "multicast" => Distribution::Multicast,
        _ => return Ok(false),
    };
    put_rule(rules, distribution, line.at(2))?;
    Ok(true)
}

/// As many records as the core may have: the line `limit NUMBER` tells it.
fn limit_of(alloc: Global, lines: &[&str]) -> Result<u64, AllocError> {
    for line in lines {
        let words = Words::of(alloc, line)?;
        if words.at(0) == "limit" {
            return Ok(words.at(1).parse::<u64>().unwrap_or(LIMIT));
        }
    }
    Ok(LIMIT)
}
