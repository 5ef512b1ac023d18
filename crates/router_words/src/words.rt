//! The words of the command line, as texts and numbers.

ghost use Rattle.std.specs.Prelude.{◌≡◌, false, IfOk};
ghost use Rattle.clap.specs.Words.{app_of, rule_of};
ghost use Rattle.router_words.specs.Words.{bare_command, command_line, word_argument};

use clap::builder::ValueParser;
use clap::{Arg, ArgAction, Command, Error, value_parser};
use std::alloc::{AllocError, Global};
use std::convert::AsStr;

/// What the words of the command line say, before any of it is looked into.
#[derive(Debug, Drop)]
pub struct Words<'a> {
    /// Where to listen.
    pub listen: &'a str,
    /// The path of the file that the capture is to be written to.
    pub capture: &'a str,
    /// How many threads are to serve: 1 to 64.
    pub workers: u8,
    /// How many connections are to be served.
    pub connections: u16,
    /// The words behind these, in their order: rules, and `anonymous`.
    pub rules: Vec<&'a str>,
}

impl<'a> Words<'a> {
    ghost use Rattle.std.specs.Prelude.{map};
    ghost use Rattle.router_words.specs.Asking.{AnswersWords};

    /// Reads the words behind the program's name. An error is a mistake in the words, a request for help or, as
    /// `OutOfMemory`, refused memory.
    pub fn read<S: AsStr>(alloc: Global, words: &'a [S]) -> Result<Words<'a>, Error>
        ensures { AnswersWords (map S.text words.entry.now) result }
    {
        let matches = command_line(alloc)?.try_get_matches_from(words)?;
        let rules = matches.get_strs("RULE").unwrap_or(&[]);
        Ok(Words {
            listen: matches.get_str("LISTEN").unwrap_or(""),
            capture: matches.get_str("CAPTURE").unwrap_or(""),
            workers: matches.get_one("WORKERS").unwrap_or(1),
            connections: matches.get_one("CONNECTIONS").unwrap_or(0),
            rules: Vec::from_slice(alloc, rules)?,
        })
    }
}

/// The command line: four words, and as many words of rules as there are.
fn command_line<'a>(alloc: Global) -> Result<Command<'a>, AllocError>
    ensures { IfOk result (λ command. app_of command ≡ command_line) }
{
    let listen = word(alloc, "LISTEN", ValueParser::string()).help(
        "The IPv4 address and port to listen at, as 127.0.0.1:5672",
    );
    let capture = word(alloc, "CAPTURE", ValueParser::string()).help(
        "The file that the capture is written to",
    );
    let workers = word(alloc, "WORKERS", value_parser!(u8).range(1..65)).help(
        "How many threads serve, 1 to 64",
    );
    let connections = word(alloc, "CONNECTIONS", value_parser!(u16)).help(
        "How many connections are served, 0 to 65535",
    );
    let rules = Arg::new(alloc, "RULE").action(ArgAction::Append).help(
        "How an address and those below it are distributed: closest:A, balanced:A or multicast:A; or anonymous: targets without address are served",
    );
    bare_command(alloc)
        .arg(listen)?
        .arg(capture)?
        .arg(workers)?
        .arg(connections)?
        .arg(rules)
}

/// The command without its arguments.
fn bare_command<'a>(alloc: Global) -> Command<'a>
    ensures { app_of result ≡ bare_command }
{
    Command::new(alloc, "amqp_router")
        .about("Routes AMQP 1.0 messages, and writes a capture of what it did")
        .no_binary_name(true)
}

/// A word that has to be there.
fn word<'a>(alloc: Global, id: &'a str, parser: ValueParser<'a>) -> Arg<'a>
    ensures rule { rule_of result ≡ word_argument id.entry.now parser.entry }
    ensures local { result.global ≡ false }
{
    Arg::new(alloc, id)
        .required(true)
        .action(ArgAction::Set)
        .value_parser(parser)
}
