//! What the words of the command line ask for.

ghost use Rattle.std.specs.Prelude.{◌≡◌, ◌++◌, [], ◌∷◌, false, codes, map, IfOk, if◌then◌else◌};
ghost use Rattle.clap.specs.Words.{app_of, rule_of};
ghost use Rattle.daemon_program.specs.Words.{bare_command, command_line, placing_command, rule_argument, rules_asked};

use clap::builder::ValueParser;
use clap::{Arg, ArgAction, Command, Error, value_parser};
use program_ends::{asking, flag};
use std::alloc::{AllocError, Global};
use std::convert::AsStr;

/// What the words of the command line say, before any of it is looked into.
#[derive(Debug, Drop)]
pub struct Words<'a> {
    /// Where to listen.
    pub listen: &'a str,
    /// The path of the file that the capture is to be written to.
    pub capture: &'a str,
    /// The words of rules, in their order, and `anonymous` behind them where the option is there.
    pub rules: Vec<&'a str>,
    /// How many connections may be open at a time.
    pub most: u32,
    /// How many connections are to be served in all, if it is said.
    pub until: Option<u64>,
    /// How many octets may wait for all clients together.
    pub buffer: u64,
    /// Whether the capture is to be on its disk before a client sees what it tells.
    pub sync: bool,
    /// How many seconds lie between two lines of what was served, if it is said.
    pub stats: Option<u32>,
}

/// Where it listens, where no word says it.
const LISTEN: &str = "127.0.0.1:5672";

/// The file of the capture, where no word says it.
const CAPTURE: &str = "amqp.cap";

/// How many connections may be open at a time, where no word says it.
const MOST: u32 = 10_000;

/// How many octets may wait for all clients together, where no word says it: 64 MiB.
const BUFFER: u64 = 67_108_864;

impl<'a> Words<'a> {
    ghost use Rattle.daemon_program.specs.Words.{AnswersWords};

    /// Reads the words behind the program's name. An error is a mistake in the words, a request for help or, as
    /// `OutOfMemory`, refused memory.
    pub fn read<S: AsStr>(alloc: Global, words: &'a [S]) -> Result<Words<'a>, Error>
        ensures { AnswersWords (map S.text words.entry.now) result }
    {
        let matches = command_line(alloc)?.try_get_matches_from(words)?;
        let spelled = matches.get_strs("rule").unwrap_or(&[]);
        let is_anonymous = matches.get_flag("anonymous");
        Ok(Words {
            listen: matches.get_str("listen").unwrap_or(LISTEN),
            capture: matches.get_str("capture").unwrap_or(CAPTURE),
            rules: rules_of(alloc, spelled, is_anonymous)?,
            most: matches.get_one("max-connections").unwrap_or(MOST),
            until: matches.get_one("until-connections"),
            buffer: matches.get_one("buffer").unwrap_or(BUFFER),
            sync: matches.get_flag("sync"),
            stats: matches.get_one("stats"),
        })
    }
}

/// The words of rules, and `anonymous` behind them where it is asked for.
fn rules_of<'a>(
    alloc: Global,
    spelled: &[&'a str],
    is_anonymous: bool,
) -> Result<Vec<&'a str>, AllocError>
    ensures { IfOk result (λ rules. map (λ word. word.now) rules.items ≡ rules_asked (map (λ word. word.now) spelled.now) is_anonymous) }
{
    let mut rules = Vec::from_slice(alloc, spelled)?;
    if is_anonymous {
        rules.push("anonymous")?;
    }
    Ok(rules)
}

/// What stands below the options in the help.
const BEHIND_HELP: &str = "\
A rule says how an address and those below it are distributed: closest:A, balanced:A or multicast:A.

The capture is written while the router serves, and ahead of the wire: no client sees a frame that FILE does not have. So a router \
that is killed loses nothing that a client saw; its capture ends behind a record, or in the middle of one, which amqp_audit says.

It ends when standard input ends or has the line `quit`, where that is a pipe or a socket, or when so many connections as are asked \
for have come and gone: then all clients are let go, and the line tells what was served. Where standard input is a terminal or a \
file (as /dev/null) a signal ends it.

Status 0: it ended so. 1: the address could not be listened at, or a poll failed. 2: the capture could not be written. 3: no memory. \
5: the core refused a step. 64: a mistake in the words. 74: standard output could not be written.";

/// The command line: options alone.
///
/// Each argument is made where it is handed over: kept here, it would be dropped on each way out before.
fn command_line<'a>(alloc: Global) -> Result<Command<'a>, AllocError>
    ensures { IfOk result (λ command. app_of command ≡ command_line) }
{
    placing_command(alloc)?
        .arg(flag(alloc, "anonymous").help(
            "Serves targets without address: a message goes where its own `to` says",
        ))?
        .arg(asking(
            alloc,
            "max-connections",
            value_parser!(u32).range(1..1_000_001),
            "N",
        )
        .help(
            "So many connections are served at a time, 10000 where it is not said; more wait until one has ended",
        ))?
        .arg(asking(alloc, "until-connections", value_parser!(u64), "N").help(
            "Ends when so many connections have come and gone",
        ))?
        .arg(asking(alloc, "buffer", value_parser!(u64), "OCTETS").help(
            "While more octets wait for clients to take them no client is heard; 67108864 where it is not said",
        ))?
        .arg(flag(alloc, "sync").help(
            "Has the system write the capture to its disk before a client sees what it tells",
        ))?
        .arg(asking(
            alloc,
            "stats",
            value_parser!(u32).range(1..86_401),
            "SECONDS",
        )
        .help("Writes a line of what was served to standard error each so many seconds"))
}

/// The command with where it listens, where it writes and by which rules.
fn placing_command<'a>(alloc: Global) -> Result<Command<'a>, AllocError>
    ensures { IfOk result (λ command. app_of command ≡ placing_command) }
{
    bare_command(alloc)
        .arg(asking(alloc, "listen", ValueParser::string(), "ADDRESS").help(
            "The IPv4 address and port to listen at; 127.0.0.1:5672 where it is not said",
        ))?
        .arg(asking(alloc, "capture", ValueParser::string(), "FILE").help(
            "The file that the capture is written to, which must not exist; amqp.cap where it is not said",
        ))?
        .arg(rules(alloc).help("How addresses are distributed; it may be said more than once"))
}

/// The command without its arguments.
fn bare_command<'a>(alloc: Global) -> Command<'a>
    ensures { app_of result ≡ bare_command }
{
    Command::new(alloc, "amqp_routerd")
        .about(
            "Routes AMQP 1.0 messages until it is told to end, and writes a capture of what it does",
        )
        .after_help(BEHIND_HELP)
        .no_binary_name(true)
}

/// The option that may be said more than once.
fn rules<'a>(alloc: Global) -> Arg<'a>
    ensures rule { rule_of result ≡ rule_argument }
    ensures local { result.global ≡ false }
{
    Arg::new(alloc, "rule")
        .long("rule")
        .action(ArgAction::Append)
        .value_name("DISTRIBUTION:PREFIX")
}
