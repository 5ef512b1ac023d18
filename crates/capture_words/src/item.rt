//! Texts, octets and numbers as they stand in a line.

use crate::page::Page;
use std::alloc::AllocError;

/// The digits of octets.
const DIGITS: [&str; 16] = [
    "0", "1", "2", "3", "4", "5", "6", "7", "8", "9", "a", "b", "c", "d", "e", "f",
];

impl Page {
    /// Appends words as they are.
    pub fn put(&mut self, words: &str) -> Result<(), AllocError> {
        self.text.push_str(words)
    }

    /// Appends a text of the capture: bare where all its characters are visible ones of ASCII, else in quotes, with those
    /// written out that may not be shown. It is cut at the page's width, with `..` behind.
    pub fn put_text(&mut self, text: &str) -> Result<(), AllocError> {
        let is_bare = !text.is_empty() && text.chars().all(is_plain);
        if !is_bare {
            self.put("\"")?;
        }
        let mut left = self.width.unwrap_or(usize::MAX);
        let mut is_cut = false;
        for character in text.chars() {
            if left == 0 {
                is_cut = true;
                break;
            }
            left -= 1;
            self.put_character(character)?;
        }
        if !is_bare {
            self.put("\"")?;
        }
        if is_cut { self.put("..") } else { Ok(()) }
    }

    fn put_character(&mut self, character: char) -> Result<(), AllocError> {
        if character == ' ' || is_plain(character) || character.is_alphanumeric() {
            return self.text.push(character);
        }
        write!(self.text, "\\u{{{:x}}}", u32::from(character))
    }

    /// Appends octets, two digits for each, cut at the page's width, with `..` behind; `""` where there are none.
    pub fn put_octets(&mut self, octets: &[u8]) -> Result<(), AllocError> {
        if octets.is_empty() {
            return self.put("\"\"");
        }
        let most = self.width.map_or(usize::MAX, |width| width / 2);
        for octet in octets.iter().take(most) {
            self.put(DIGITS[usize::from(*octet >> 4)])?;
            self.put(DIGITS[usize::from(*octet & 15)])?;
        }
        if most < octets.len() {
            self.put("..")
        } else {
            Ok(())
        }
    }

    /// Appends a number.
    pub fn put_number(&mut self, number: u64) -> Result<(), AllocError> {
        write!(self.text, "{number}")
    }

    /// Appends a number at the right end of a column of 11 characters, and wider where it has more digits.
    pub fn put_column(&mut self, number: u64) -> Result<(), AllocError> {
        write!(self.text, "{number:>11}")
    }
}

/// Whether a character is a visible one of ASCII, and neither a quote nor a backslash.
fn is_plain(character: char) -> bool {
    character.is_ascii_graphic() && character != '"' && character != '\\'
}
