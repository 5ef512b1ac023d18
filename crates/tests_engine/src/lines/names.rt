//! Octets by their names.

use std::alloc::{AllocError, Global};

/// Names of octets, in the order in which they were given.
#[derive(Drop)]
pub(crate) struct Names {
    names: Vec<Named>,
}

#[derive(Drop)]
struct Named {
    name: String,
    octets: Vec<u8>,
}

impl Names {
    /// No names.
    pub(crate) fn new(alloc: Global) -> Names {
        Names {
            names: Vec::new(alloc),
        }
    }

    /// The octets that the hexadecimal digits tell have this name.
    pub(crate) fn give(&mut self, name: &str, digits: &str) -> Result<(), AllocError> {
        let alloc = *self.names.allocator();
        self.names.push(Named {
            name: String::from_str(alloc, name)?,
            octets: octets_of_digits(alloc, digits)?,
        })?;
        Ok(())
    }

    /// The octets of the names, one behind the other.
    pub(crate) fn octets_of(&self, names: &[&str]) -> Result<Vec<u8>, AllocError> {
        let mut octets = Vec::new(*self.names.allocator());
        for name in names {
            let named = self.names.iter().find(|named| named.name.as_str() == *name);
            octets.extend_from_slice(match named {
                Some(named) => named.octets.as_slice(),
                None => b"no such name",
            })?;
        }
        Ok(octets)
    }

    /// The octets in names: the first that fits, again and again, and digits from where none does. A sign for no octets.
    pub(crate) fn of(&self, octets: &[u8]) -> Result<String, AllocError> {
        let mut text = String::new(*self.names.allocator());
        let mut rest = octets;
        for _ in 0..octets.len() {
            let Some(named) = self.first_of(rest) else {
                break;
            };
            rest = rest.get(named.octets.len()..).unwrap_or(&[]);
            put_word(&mut text, named.name.as_str())?;
        }
        if octets.is_empty() || !rest.is_empty() {
            put_word(
                &mut text,
                digits_of(*self.names.allocator(), rest)?.as_str(),
            )?;
        }
        Ok(text)
    }

    /// The first name of which the octets stand there.
    fn first_of(&self, octets: &[u8]) -> Option<&Named> {
        self.names.iter().find(|named| !octets.is_empty()
            && octets.starts_with(named.octets.as_slice()))
    }
}

/// A word behind those that stand there.
pub(crate) fn put_word(text: &mut String, word: &str) -> Result<(), AllocError> {
    if !text.is_empty() {
        text.push_str(" ")?;
    }
    text.push_str(word)
}

/// The octets of hexadecimal digits, two for each.
fn octets_of_digits(alloc: Global, digits: &str) -> Result<Vec<u8>, AllocError> {
    let mut octets = Vec::new(alloc);
    for pair in digits.as_bytes().chunks(2) {
        let digits = str::from_utf8(pair).unwrap_or("");
        octets.push(u8::from_str_radix(digits, 16).unwrap_or(0))?;
    }
    Ok(octets)
}

/// Octets in hexadecimal digits, or a sign for none.
fn digits_of(alloc: Global, octets: &[u8]) -> Result<String, AllocError> {
    if octets.is_empty() {
        return "-".to_string(alloc);
    }
    let mut digits = String::new(alloc);
    for octet in octets {
        digits.push_str(format!(in alloc; "{octet:02x}")?.as_str())?;
    }
    Ok(digits)
}
