//! What the words of the command line ask for.

ghost use Rattle.std.specs.Prelude.{◌≡◌, IfOk};
ghost use Rattle.clap.specs.Words.{app_of};
ghost use Rattle.show_program.specs.Words.{bare_command, choosing_command, command_line};

use capture_view::Choice;
use clap::builder::ValueParser;
use clap::{Command, Error, value_parser};
use program_ends::{InputSource, asking, file, flag};
use std::alloc::{AllocError, Global};
use std::convert::AsStr;

/// How the capture is shown.
#[derive(Clone, Copy, Debug, PartialEq, Eq)]
pub enum Mode<'a> {
    /// A line for each record that is asked for.
    Lines,
    /// One table.
    Summary,
    /// Audited: why the capture is not accepted.
    Why,
    /// As packets, in a new file of this path.
    Packets(&'a str),
    /// As a chart of the records that are asked for, in a new file of this path.
    Chart(&'a str),
    /// Audited, and as a chart with the refused record marked, in a new file of this path.
    Marked(&'a str),
    /// As the curves of the credit of a link, the first of those that are asked for, in a new file of this path.
    Credit(&'a str),
}

/// What is asked for.
#[derive(Clone, Copy, Debug)]
pub struct Words<'a> {
    pub source: InputSource<'a>,
    /// None where more than one is asked for, but for a chart and an audit.
    pub mode: Option<Mode<'a>>,
    pub choice: Choice<'a>,
    /// At how many characters texts and octets are cut.
    pub width: Option<usize>,
}

/// At how many characters texts and octets are cut, unless all are asked for.
const WIDTH: usize = 32;

impl<'a> Mode<'a> {
    ghost use Rattle.std.specs.Prelude.{◌≡◌, false, true, None, IfSome, is_some, option_map};
    ghost use Rattle.show_program.specs.Words.{IsAudit, IsOne, IsPlain, are_several, chart_of, credit_of, is_table, is_why, packets_of};

    /// The mode that the paths of packets, of a chart and of a credit, and the flags of an audit and of a summary ask for; none where
    /// these are several, but for a chart and an audit.
    fn of_words(
        packets: Option<&'a str>,
        chart: Option<&'a str>,
        credit: Option<&'a str>,
        is_audited: bool,
        is_summary: bool,
    ) -> Option<Mode<'a>>
        ensures one { IsOne (are_several (is_some packets.entry) (is_some chart.entry) (is_some credit.entry) is_audited is_summary) result }
        ensures packets { IfSome result (λ mode. packets_of mode ≡ option_map (λ path. path.now) packets.entry) }
        ensures chart { IfSome result (λ mode. chart_of mode ≡ option_map (λ path. path.now) chart.entry) }
        ensures credit { IfSome result (λ mode. credit_of mode ≡ option_map (λ path. path.now) credit.entry) }
        ensures audit { IfSome result (λ mode. is_why mode ≡ is_audited) }
        ensures summary { IfSome result (λ mode. is_table mode ≡ is_summary) }
        ensures plain { option_map (λ path. path.now) packets.entry ≡ None → option_map (λ path. path.now) chart.entry ≡ None → option_map (λ path. path.now) credit.entry ≡ None → is_audited ≡ false → IsPlain result }
        ensures audited { option_map (λ path. path.now) packets.entry ≡ None → option_map (λ path. path.now) chart.entry ≡ None → option_map (λ path. path.now) credit.entry ≡ None → is_audited ≡ true → is_summary ≡ false → IsAudit result }
    {
        match (packets, chart, credit, is_audited, is_summary) {
            (Some(path), None, None, false, false) => Some(Mode::Packets(path)),
            (None, Some(path), None, false, false) => Some(Mode::Chart(path)),
            (None, Some(path), None, true, false) => Some(Mode::Marked(path)),
            (None, None, Some(path), false, false) => Some(Mode::Credit(path)),
            (None, None, None, true, false) => Some(Mode::Why),
            (None, None, None, false, true) => Some(Mode::Summary),
            (None, None, None, false, false) => Some(Mode::Lines),
            _ => None,
        }
    }
}

impl<'a> Words<'a> {
    ghost use Rattle.std.specs.Prelude.{◌≡◌, ◌∷◌, [], codes, map};
    ghost use Rattle.show_program.specs.Words.{AnswersWords, AsksWhy};

    /// Reads the words behind the program's name. An error is a mistake in the words, a request for help or, as
    /// `OutOfMemory`, refused memory.
    pub fn read<S: AsStr>(alloc: Global, words: &'a [S]) -> Result<Words<'a>, Error>
        ensures plain { AnswersWords (map S.text words.entry.now) result }
        ensures why { map S.text words.entry.now ≡ codes "--why" ∷ [] → AsksWhy result }
    {
        let matches = command_line(alloc)?.try_get_matches_from(words)?;
        let source = InputSource::of_word(matches.get_str("FILE"));
        let is_audited = matches.get_flag("why");
        let is_summary = matches.get_flag("summary");
        let mode = Mode::of_words(
            matches.get_str("pcapng"),
            matches.get_str("chart"),
            matches.get_str("credit"),
            is_audited,
            is_summary,
        );
        let choice = Choice {
            from: matches.get_one("from"),
            to: matches.get_one("to"),
            connection: matches.get_one("connection"),
            link: matches.get_str("link"),
            delivery: matches.get_one("delivery"),
        };
        Ok(Words {
            source,
            mode,
            choice,
            width: (!matches.get_flag("wide")).then_some(WIDTH),
        })
    }
}

/// What stands below the options in the help.
const BEHIND_HELP: &str = "\
A line has the number of the record, its connection, and what happened: opened, in, out, lost or broken. Of a frame there \
follow the channel, the performative with those of its fields that are read and there, the octets of a transfer's payload, \
the link or the session that it names, and what the record notes: which delivery a transfer carries, or why an outcome is told.

Without --why and --credit the whole capture is read, whatever is asked for. Of one that breaks off, as where its router was killed, \
--summary counts the records that are whole, and behind it stands where they end: malformed offset=O. Status 0: it is whole. 2: \
malformed. 3: no memory. 4: unreadable. 5: OUT could not be written. 6: more records than a chart may have. 7: no such link. 64: a mistake in the words. \
74: standard output could not be written.

With --why and --credit the first line and the status are those of amqp_audit: 0 accepted, 1 refused, or 2, 3 or 4 as above. With \
--why there stand behind the line the record that is refused, what the clause asks, and each thing that it compares, with the \
records of the links, deliveries, windows and credits; or what was expected where the capture is malformed. Nothing behind that \
is read.

Of --pcapng, --chart, --credit, --why and --summary one may be given, or --chart and --why. But for --chart each is of the whole capture, whichever \
records are asked for; for --credit, --connection and --link choose the link.

A chart is an SVG: a lane for the router and one for each connection, and for each record that is asked for an arrow. Thin lines \
go from a delivery of a client to the transfers that carry it, and to its outcome, where these are asked for too. It has 2000 \
records at most; where more are asked for there is no file.

With --chart and --why the capture is audited, and standard output and the status are those of --why; in OUT the record that is \
refused is red, and those that it is compared with are marked too, where they are asked for. Where a capture with a refused \
record has more than 2000, and no option chooses among them, OUT has that record, those that it is compared with, and of the \
others 100 in front of it and 20 behind it. All of the capture is kept in memory.

With --credit the capture is audited, and OUT is an SVG with a panel for each of five curves over the records that were taken: \
the credit of a consumer's link, the window of its session, how many deliveries wait at its address, how many on it are \
unsettled, and whether its client drains it. The link is the first that opens of those that are chosen; the curves break off \
where it ends. Where none opens there is no file, and of an accepted capture the line is: no such link of a consumer.

Packets and charts are those of the whole records in front of a fault where the capture has one, and curves those of the records \
in front of a fault or of a refused record.";

/// The command line: a file, which records, and how they are shown.
///
/// Each argument is made where it is handed over: kept here, it would be dropped on each way out before.
fn command_line<'a>(alloc: Global) -> Result<Command<'a>, AllocError>
    ensures { IfOk result (λ command. app_of command ≡ command_line) }
{
    choosing_command(alloc)?
        .arg(flag(alloc, "wide").help(
            "Shows texts and octets whole; else, and with --why, they are cut at 32 characters",
        ))?
        .arg(flag(alloc, "summary").help(
            "Shows the form, the rules and one table of the whole capture instead of its records",
        ))?
        .arg(flag(alloc, "why").help(
            "Audits the capture, and says why it is not accepted instead of its records",
        ))?
        .arg(asking(alloc, "pcapng", ValueParser::string(), "OUT").help(
            "Writes the whole capture as packets to OUT, which must not exist, and shows nothing",
        ))?
        .arg(asking(alloc, "chart", ValueParser::string(), "OUT").help(
            "Draws the records that are asked for as a chart to OUT, which must not exist, and shows nothing; with --why marked, and explained",
        ))?
        .arg(asking(alloc, "credit", ValueParser::string(), "OUT").help(
            "Audits the capture, and draws the credit of a consumer's link to OUT, which must not exist",
        ))
}

/// The command with a file, and what says which records.
fn choosing_command<'a>(alloc: Global) -> Result<Command<'a>, AllocError>
    ensures { IfOk result (λ command. app_of command ≡ choosing_command) }
{
    bare_command(alloc)
        .arg(file(alloc).help("The capture to show; standard input where there is none, or for -"))?
        .arg(asking(alloc, "from", value_parser!(u64), "N").help("Records from number N on"))?
        .arg(asking(alloc, "to", value_parser!(u64), "N").help("Records up to number N"))?
        .arg(asking(alloc, "connection", value_parser!(u32), "C").help("Records of connection C"))?
        .arg(asking(alloc, "link", ValueParser::string(), "NAME").help(
            "Records whose frame names a link of this name",
        ))?
        .arg(asking(alloc, "delivery", value_parser!(u64), "N").help(
            "Records about the delivery from a client whose first transfer is record N",
        ))
}

/// The command without its arguments.
fn bare_command<'a>(alloc: Global) -> Command<'a>
    ensures { app_of result ≡ bare_command }
{
    Command::new(alloc, "amqp_show")
        .about("Shows a capture of an AMQP 1.0 router in words")
        .after_help(BEHIND_HELP)
        .no_binary_name(true)
}
