//! The names of what there is to be run.

/// Whether the words have the name, or there are none.
pub(crate) fn is_wanted(words: &[String], name: &str) -> bool {
    words.is_empty() || words.iter().any(|word| word.as_str() == name)
}
