//! The rules of a run, and what the auditor says of its capture.

use address_table::Rules;
use audit_core::{Verdict, audit_bytes};
use capture_form::{Capture, Distribution, Rule, write_capture};
use std::alloc::{AllocError, Global};
use std::fmt;

/// Which rules a run has.
#[derive(Clone, Copy)]
pub enum RunRules {
    /// None.
    Plain,
    /// One: `q` is closest.
    Closest,
    /// One: `q` is multicast.
    Multicast,
    /// None, and anonymous senders are served.
    Anonymous,
}

/// These rules.
///
/// # Errors
///
/// Where memory is refused.
pub fn rules(alloc: Global, of: RunRules) -> Result<Rules, AllocError> {
    let list = match of {
        RunRules::Plain | RunRules::Anonymous => Vec::new(alloc),
        RunRules::Closest => one_rule(alloc, Distribution::Closest, "q")?,
        RunRules::Multicast => one_rule(alloc, Distribution::Multicast, "q")?,
    };
    let rules = Rules::new(list).ok().ok_or(AllocError)?;
    Ok(match of {
        RunRules::Plain | RunRules::Closest | RunRules::Multicast => rules,
        RunRules::Anonymous => rules.with_anonymous(),
    })
}

/// This one rule.
///
/// # Errors
///
/// Where memory is refused.
pub fn one_rule(
    alloc: Global,
    distribution: Distribution,
    prefix: &str,
) -> Result<Vec<Rule>, AllocError> {
    let mut rules = Vec::new(alloc);
    put_rule(&mut rules, distribution, prefix)?;
    Ok(rules)
}

/// Puts a rule behind the others.
///
/// # Errors
///
/// Where memory is refused.
pub fn put_rule(
    rules: &mut Vec<Rule>,
    distribution: Distribution,
    prefix: &str,
) -> Result<(), AllocError> {
    let prefix = String::from_str(*rules.allocator(), prefix)?;
    rules.push(Rule {
        distribution,
        prefix,
    })?;
    Ok(())
}

/// What the auditor says of a capture.
///
/// # Errors
///
/// Where the memory for its text is refused.
pub fn audited(alloc: Global, capture: &Capture) -> Result<Verdict, AllocError> {
    let text = write_capture(alloc, capture)?;
    Ok(audit_bytes(alloc, text.as_slice()))
}

/// A verdict, in the words of these runs.
#[derive(Clone, Copy)]
pub struct Told(pub Verdict);

impl fmt::Display for Told {
    fn fmt<W: fmt::Write>(&self, f: &mut fmt::Formatter<W>) -> fmt::Result {
        match &self.0 {
            Verdict::Accepted(tally) => write!(
                f,
                "accepted records={} deliveries={} outcomes={}",
                tally.records, tally.deliveries, tally.outcomes
            ),
            _ => f.write_str("not accepted"),
        }
    }
}
