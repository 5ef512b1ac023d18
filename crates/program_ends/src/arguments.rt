//! The arguments that the programs have alike.

ghost use Rattle.std.specs.Prelude.{◌≡◌, false};
ghost use Rattle.clap.specs.Words.{rule_of};
ghost use Rattle.program_ends.specs.Arguments.{asking_argument, file_argument, flag_argument};

use clap::builder::ValueParser;
use clap::{Arg, ArgAction};
use std::alloc::Global;

/// An option with a value, which this parser checks; the help calls the value `value`.
pub fn asking<'a>(alloc: Global, name: &'a str, parser: ValueParser<'a>, value: &'a str) -> Arg<'a>
    ensures rule { rule_of result ≡ asking_argument name.entry.now parser.entry }
    ensures local { result.global ≡ false }
{
    Arg::new(alloc, name)
        .long(name)
        .action(ArgAction::Set)
        .value_parser(parser)
        .value_name(value)
}

/// An option without a value.
pub fn flag<'a>(alloc: Global, name: &'a str) -> Arg<'a>
    ensures rule { rule_of result ≡ flag_argument name.entry.now }
    ensures local { result.global ≡ false }
{
    Arg::new(alloc, name).long(name).action(ArgAction::SetTrue)
}

/// The one word that is no option: a file, or none.
pub fn file<'a>(alloc: Global) -> Arg<'a>
    ensures rule { rule_of result ≡ file_argument }
    ensures local { result.global ≡ false }
{
    Arg::new(alloc, "FILE").action(ArgAction::Set)
}
