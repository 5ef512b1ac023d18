//! What the curves of a link are called.

ghost use Rattle.std.specs.Prelude.{◌≡◌, ◌++◌, decimal, IfOk, OnOk};
ghost use Rattle.std.specs.String.{string_bytes};
ghost use Rattle.credit_levels.specs.Drawn.{title_on};

use crate::pick::PickedLink;
use itoa::Buffer;
use std::alloc::{AllocError, Global};

/// The title of a capture, with where the link stands.
pub(crate) fn title_on(alloc: Global, title: &str, place: PickedLink) -> Result<String, AllocError>
    ensures { IfOk result (λ words. string_bytes words ≡ title_on title.now place) }
{
    let mut words = String::from_str(alloc, title)?;
    put(&mut words, ": link opened in record ", place.number)?;
    put(&mut words, ", connection ", u64::from(place.connection))?;
    put(&mut words, ", channel ", u64::from(place.channel))?;
    put(&mut words, ", handle ", u64::from(place.handle))?;
    Ok(words)
}

/// Appends a text and a number.
fn put(words: &mut String, text: &str, number: u64) -> Result<(), AllocError>
    ensures { OnOk result (string_bytes words.new ≡ string_bytes words.old ++ (text.now ++ decimal number)) }
{
    let mut digits = Buffer::new();
    words.push_str(text)?;
    words.push_str(digits.format(number))
}
