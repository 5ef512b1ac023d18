//! What the words behind the fourth say: rules, and whether anonymous senders are served.

ghost use Rattle.std.specs.Prelude.{◌≡◌, ◌⊎◌, map, Any, IfOk, IfErr, MatchOption};
ghost use Rattle.router_words.specs.RuleWords.{
  SaysNothing,
  SpellsNoRule,
  ask_anonymous,
  is_anonymous,
  named_distribution,
  rule_word,
  rule_text,
  spelling_words,
};

use crate::fault::WordsFault;
use capture_form::{Distribution, Rule};
use std::alloc::Global;

/// Whether one of these words is `anonymous`.
#[tactic(auto, using(crate::proofs::RuleWordLemmas::asked_with))]
pub fn ask_anonymous(words: &[&str]) -> bool
    ensures { result ≡ ask_anonymous (map (λ word. word.now) words.now) }
{
    let mut asked = false;
    for word in words {
        if is_anonymous(word) {
            asked = true;
        }
    }
    asked
}

/// The rules of these words, in their order; `anonymous` is none.
pub fn rules_in(alloc: Global, words: &[&str]) -> Result<Vec<Rule>, WordsFault>
    ensures ok { IfOk result (λ rules. map rule_text rules.items ≡ spelling_words (map (λ word. word.now) words.now)) }
    ensures bad { result ≡ Err WordsFault.BadRule → Any (λ word. SaysNothing word.now) words.now }
    ensures others { IfErr result (λ fault. (fault ≡ WordsFault.BadRule) ⊎ (fault ≡ WordsFault.NoMemory)) }
{
    let mut rules = Vec::new(alloc);
    for word in words {
        if is_anonymous(word) {
            continue;
        }
        let Some((distribution, prefix)) = rule_in(word) else {
            return Err(WordsFault::BadRule);
        };
        let prefix = String::from_str(alloc, prefix)?;
        rules.push(Rule {
            distribution,
            prefix,
        })?;
    }
    Ok(rules)
}

/// Whether the word is `anonymous`.
fn is_anonymous(word: &str) -> bool
    ensures { result ≡ is_anonymous word.now }
{
    word == "anonymous"
}

/// The rule that the word spells: the name of a distribution, a colon and the prefix, which may be empty.
fn rule_in(word: &str) -> Option<(Distribution, &str)>
    ensures { MatchOption result (SpellsNoRule word.now) (λ rule. rule_word rule.0 rule.1.now ≡ word.now) }
{
    let (name, prefix) = word.split_once(':')?;
    let distribution = distribution_named(name)?;
    Some((distribution, prefix))
}

/// The distribution of this name.
fn distribution_named(name: &str) -> Option<Distribution>
    ensures { result ≡ named_distribution name.now }
{
    if name == "closest" {
        Some(Distribution::Closest)
    } else if name == "balanced" {
        Some(Distribution::Balanced)
    } else if name == "multicast" {
        Some(Distribution::Multicast)
    } else {
        None
    }
}
