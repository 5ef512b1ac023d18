//! What stands beside a packet in words: the number of the record, and its note.

ghost use Rattle.std.specs.Prelude.{◌≡◌, ◌+◌, ◌≤◌, ◌++◌, decimal, OnOk, vec_len};
ghost use Rattle.capture_packets.specs.Comment.{comment_text, what_told, note_told, why_told};

use capture_form::{Record, What};
use itoa::Buffer;
use pairing_cert::{Note, Why};
use std::alloc::AllocError;

fn why_words(why: Why) -> &'static [u8]
    ensures { result.now ≡ why_told why }
{
    match why {
        Why::C => b"C, the consumer's",
        Why::Z => b"Z, the consumer's, shortened",
        Why::S => b"S, sent to a pre-settled link",
        Why::L => b"L, the consumer's link is over",
        Why::N => b"N, no consumer",
        Why::M => b"M, multicast",
    }
}

fn push_number(comment: &mut Vec<u8>, number: u64) -> Result<(), AllocError>
    ensures text { OnOk result (comment.new.items ≡ comment.old.items ++ decimal number) }
    ensures short { OnOk result (vec_len comment.new ≤ vec_len comment.old + 40) }
{
    let mut digits = Buffer::new();
    comment.extend_from_slice(digits.format(number).as_bytes())
}

fn push_note(comment: &mut Vec<u8>, note: Note) -> Result<(), AllocError>
    ensures text { OnOk result (comment.new.items ≡ comment.old.items ++ note_told note) }
    ensures short { OnOk result (vec_len comment.new ≤ vec_len comment.old + 60) }
{
    match note {
        Note::None => Ok(()),
        Note::Pair(number) => {
            comment.extend_from_slice(b", carries record ")?;
            push_number(comment, number)?;
            Ok(())
        }
        Note::Told(why) => {
            comment.extend_from_slice(b", outcome row ")?;
            comment.extend_from_slice(why_words(why))?;
            Ok(())
        }
    }
}

/// What is told of a record behind its number.
fn push_told(comment: &mut Vec<u8>, entry: &Record) -> Result<(), AllocError>
    ensures text { OnOk result (comment.new.items ≡ comment.old.items ++ what_told entry.now.what entry.now.note) }
    ensures short { OnOk result (vec_len comment.new ≤ vec_len comment.old + 60) }
{
    match &entry.what {
        What::Opened => comment.extend_from_slice(
            b", opened: the client's AMQP header was accepted",
        ),
        What::In(_) => Ok(()),
        What::Out(_) => push_note(comment, entry.note),
        What::Lost => comment.extend_from_slice(b", lost: the device ended or failed"),
        What::Broken => {
            comment.extend_from_slice(b", broken: the client's octets stopped being frames")
        }
    }
}

/// Appends the comment of the record of this number.
///
/// # Errors
///
/// Memory was refused; then only some of it stands.
#[tactic(auto, unfolding(crate::specs::Comment::comment_text))]
pub fn push_comment(comment: &mut Vec<u8>, number: u64, entry: &Record) -> Result<(), AllocError>
    ensures text { OnOk result (comment.new.items ≡ comment.old.items ++ comment_text number entry.now) }
    ensures short { OnOk result (vec_len comment.new ≤ vec_len comment.old + 110) }
{
    comment.extend_from_slice(b"record ")?;
    push_number(comment, number)?;
    push_told(comment, entry)?;
    Ok(())
}
