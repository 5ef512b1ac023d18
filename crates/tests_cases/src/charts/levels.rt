//! Levels of more records than a picture has columns, drawn as curves.

use credit_chart::{Level, Thinned, draw_levels};
use std::{fs, io};

/// Draws the levels that the lines of `levels.cases` tell.
pub fn tell_levels(rt: &HostRuntime) -> io::Result<()> {
    let cases = fs::read_to_string(rt, "charts/levels.cases")?;
    tell_lines(rt, cases.as_str(), &mut Vec::new(rt.alloc()))
}

/// The same of lines, with no levels yet.
///
/// It borrows these: owned here, their drop would be proved on each way out.
fn tell_lines(rt: &HostRuntime, cases: &str, levels: &mut Vec<Option<Level>>) -> io::Result<()> {
    for line in cases.lines() {
        take_line(rt, line, levels)?;
    }
    println!(rt; "== levels")?;
    let thinned = Thinned::of(rt.alloc(), levels.as_slice())?;
    rt.print(draw_levels(rt.alloc(), "levels", &thinned)?.as_str())
}

/// Takes what a line tells of levels, or tells the line.
fn take_line(rt: &HostRuntime, line: &str, levels: &mut Vec<Option<Level>>) -> io::Result<()> {
    let words: Vec<&str> = line.split_whitespace().collect(rt.alloc())?;
    take_words(rt, line, words.as_slice(), levels)
}

/// The same of a line that has these words.
fn take_words(
    rt: &HostRuntime,
    line: &str,
    words: &[&str],
    levels: &mut Vec<Option<Level>>,
) -> io::Result<()> {
    match words {
        [records, "records"] => levels.resize(number(records), None)?,
        [record, credit, window, waiting, unsettled, drains] => {
            if let Some(level) = levels.get_mut(number(record)) {
                *level = Some(Level {
                    credit: count(credit),
                    window: count(window),
                    waiting: count(waiting),
                    unsettled: count(unsettled),
                    is_draining: says_yes(drains),
                });
            }
        }
        _ => rt.println(line)?,
    }
    Ok(())
}

fn says_yes(word: &str) -> bool {
    word == "yes"
}

fn count(word: &str) -> u32 {
    word.parse::<u32>().unwrap_or(0)
}

/// The number of a record, or of records; no word is more than a number of 16 bits.
fn number(word: &str) -> usize {
    usize::from(word.parse::<u16>().unwrap_or(0))
}
