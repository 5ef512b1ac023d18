//! What the words of the command line ask for.
ghost use Rattle.std.specs.Prelude.{◌≡◌, IfOk};
ghost use Rattle.clap.specs.Words.{app_of};
ghost use Rattle.audit_program.specs.Words.{bare_command, command_line};

use clap::{Command, Error, value_parser};
use program_ends::{InputSource, asking, file, flag};
use std::alloc::{AllocError, Global};
use std::convert::AsStr;

/// Where a capture ends.
#[derive(Clone, Copy, Debug, PartialEq, Eq)]
pub(crate) enum End {
    /// Where no more of it is there.
    First,
    /// Where nothing has come for so many seconds.
    Idle(u64),
    /// Nowhere: more may always come.
    Never,
}

impl End {
    ghost use Rattle.std.specs.Prelude.{◌≡◌};
    ghost use Rattle.audit_program.specs.Words.{end_asked};

    /// The end that is asked for, by whether the capture is to be followed, and for how many seconds.
    fn of_words(is_followed: bool, idle: Option<u64>) -> End
        ensures { result ≡ end_asked is_followed idle }
    {
        match (is_followed, idle) {
            (_, Some(seconds)) => End::Idle(seconds),
            (true, None) => End::Never,
            (false, None) => End::First,
        }
    }
}

/// What is asked for.
#[derive(Clone, Copy, Debug)]
pub(crate) struct Words<'a> {
    /// Where the capture is read from.
    pub source: InputSource<'a>,
    pub end: End,
}

impl<'a> Words<'a> {
    ghost use Rattle.std.specs.Prelude.{map};
    ghost use Rattle.audit_program.specs.Words.{AnswersWords, AsksToFollow};

    /// Reads the words behind the program's name. An error is a mistake in the words, a request for help or, as
    /// `OutOfMemory`, refused memory.
    pub(crate) fn read<S: AsStr>(alloc: Global, words: &'a [S]) -> Result<Words<'a>, Error>
        ensures plain { AnswersWords (map S.text words.entry.now) result }
        ensures followed { AsksToFollow (map S.text words.entry.now) result }
    {
        let matches = command_line(alloc)?.try_get_matches_from(words)?;
        let source = InputSource::of_word(matches.get_str("FILE"));
        let is_followed = matches.get_flag("follow");
        let idle = matches.get_one::<u64>("idle");
        let end = End::of_words(is_followed, idle);
        Ok(Words { source, end })
    }
}

/// What stands below the options in the help.
const BEHIND_HELP: &str = "\
The one line on standard output is the verdict: accepted (status 0), refused (1), malformed (2), no memory (3) or unreadable (4). 64: a \
mistake in the words. 74: standard output could not be written.

With --follow and --idle each record is judged as soon as all its octets are there, and the first that is refused ends it, with the line \
that it has without them. Where the end of what is there is met it waits a tenth of a second, and reads on. With --idle the verdict \
on all that came is told once nothing has come for SECONDS: where a record is cut there, malformed with the offset at which the last \
whole record ends. With --follow alone that never comes, and only a refused record, or octets that are no capture's, end it.";

/// The command line: one file, or none, and whether it is followed.
///
/// Each argument is made where it is handed over: kept here, it would be dropped on each way out before.
fn command_line<'a>(alloc: Global) -> Result<Command<'a>, AllocError>
    ensures { IfOk result (λ command. app_of command ≡ command_line) }
{
    bare_command(alloc)
        .arg(file(alloc).help(
            "The capture to audit; standard input where there is none, or for -",
        ))?
        .arg(flag(alloc, "follow").help(
            "Follows a capture that a router still writes, to the first record that is refused",
        ))?
        .arg(asking(alloc, "idle", value_parser!(u64), "SECONDS").help(
            "Follows it too, until nothing has come for so many seconds",
        ))
}

/// The command without its arguments.
fn bare_command<'a>(alloc: Global) -> Command<'a>
    ensures { app_of result ≡ bare_command }
{
    Command::new(alloc, "amqp_audit")
        .about("Audits a capture of an AMQP 1.0 router")
        .after_help(BEHIND_HELP)
        .no_binary_name(true)
}
