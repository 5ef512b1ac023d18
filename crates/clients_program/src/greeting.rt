//! A message, by its number, which counts from 1.

ghost use Rattle.std.specs.Prelude.{◌≡◌, ◌+◌, ◌<◌, ◌≤◌, ◌^◌, ◌++◌, ℕ, List, Some, length, IfOk, IsUtf8, OnOk, string_bytes};
ghost use Rattle.std.specs.Option.{option_copied};
ghost use Rattle.clients_program.specs.Greeting.{greeting_text, section_octets, text_said, decision, word_of, message_octets};

use crate::said;
use amqp_frames::put_frame;
use amqp_perf::Outcome;
use amqp_types::{Value, put_str, put_ulong};
use std::alloc::{AllocError, Global};

/// What stands in front of the descriptor of a described value (part 1, 1.2).
const DESCRIBED: u8 = 0x00;

/// The descriptor of a message's section that is one value (part 3, 3.2.8).
const AMQP_VALUE: u64 = 0x77;

/// The text of the message.
#[tactic(auto, using(crate::proofs::Greetings::greeting_short))]
pub fn text_of(alloc: Global, number: u8) -> Result<String, AllocError>
    ensures text { IfOk result (λ text. string_bytes text ≡ greeting_text number) }
    ensures short { length (greeting_text number) ≤ 20 }
{
    format!(in alloc; "greeting {number}")
}

/// Appends the section of a message that is this text.
pub fn put_section(out: &mut Vec<u8>, text: &str) -> Result<(), AllocError>
    requires { length text.now < 2 ^ 32 }
    ensures { OnOk result (out.new.items ≡ out.old.items ++ section_octets text.now) }
{
    out.push(DESCRIBED)?;
    put_ulong(out, AMQP_VALUE)?;
    put_str(out, text)
}

/// The text that a message is, if it is one section with a text.
#[tactic(auto, using(crate::proofs::Greetings::section_again))]
pub fn text_in(message: &[u8]) -> Option<&str>
    ensures exact { option_copied result ≡ text_said message.now }
    // It is the text of a section that was written.
    ensures again { (text : List ℕ) → IsUtf8 text → length text < 2 ^ 32 → text_said (section_octets text) ≡ Some text }
{
    let Ok((section, [])) = Value::read(message) else {
        return None;
    };
    if section.descriptor()?.as_ulong()? != AMQP_VALUE {
        return None;
    }
    section.described()?.as_str()
}

/// The delivery-id of the message, on either link.
pub fn id_of(number: u8) -> u32
    requires { 0 < number }
    ensures { result + 1 ≡ number }
{
    u32::from(number - 1)
}

/// Appends the frame that sends the message.
pub fn put_message(out: &mut Vec<u8>, number: u8) -> Result<(), AllocError>
    requires { 0 < number }
    ensures { OnOk result (out.new.items ≡ out.old.items ++ message_octets number) }
{
    let alloc = *out.allocator();
    let text = text_of(alloc, number)?;
    let mut section = Vec::new(alloc);
    put_section(&mut section, &text)?;
    let id = id_of(number);
    put_frame(
        out,
        said::CHANNEL,
        &said::transfer(id, &id.to_be_bytes()),
        &section,
    )
}

/// How the consumer decides the message: it rejects each third.
pub fn decision_of(number: u8) -> Outcome
    ensures { result ≡ decision number }
{
    if number % 3 == 0 {
        Outcome::Rejected
    } else {
        Outcome::Accepted
    }
}

/// The outcome in a word.
pub fn word(outcome: Outcome) -> &'static str
    ensures { result.now ≡ word_of outcome }
{
    match outcome {
        Outcome::Accepted => "accepted",
        Outcome::Rejected => "rejected",
        Outcome::Released => "released",
        Outcome::Modified => "modified",
    }
}
