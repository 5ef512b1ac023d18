//! What stands in front of the records of a capture.

use crate::page::Page;
use capture_form::{Distribution, Form, Rule, RuleSet};
use std::alloc::AllocError;

impl Page {
    /// Appends the form of a capture's text and the rules of its router, a line each.
    pub fn put_rules(&mut self, rules: &RuleSet) -> Result<(), AllocError> {
        self.put(form_told(rules.form()))?;
        self.put("\nrules ")?;
        self.put_number(rules.list().len() as u64)?;
        for (place, rule) in rules.list().iter().enumerate() {
            self.put(if place == 0 { ": " } else { ", " })?;
            self.put_rule(rule)?;
        }
        self.put("\n")
    }

    /// Appends a rule, as it is written among the words of a router.
    fn put_rule(&mut self, rule: &Rule) -> Result<(), AllocError> {
        self.put(distribution_told(rule.distribution))?;
        self.put_text(rule.prefix.as_str())
    }
}

/// The form of a text, and whether it says that a sender may attach to a target without address.
fn form_told(form: Form) -> &'static str {
    match form {
        Form::One => "form One",
        Form::Two { anonymous: false } => "form Two, anonymous senders not served",
        Form::Two { anonymous: true } => "form Two, anonymous senders served",
    }
}

/// The word of a distribution, in front of an address.
fn distribution_told(distribution: Distribution) -> &'static str {
    match distribution {
        Distribution::Closest => "closest:",
        Distribution::Balanced => "balanced:",
        Distribution::Multicast => "multicast:",
    }
}
