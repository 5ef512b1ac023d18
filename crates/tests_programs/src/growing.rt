//! A file that grows while the auditor follows it.

use crate::case::{Case, number_at, word_at};
use crate::fakes::{Input, Left};
use std::alloc::AllocGlobal;
use std::io::Write;
use std::rt::Files;
use std::time::{Clock, Duration};
use std::{fs, io};

/// A clock by which no time goes by. At each pause so many octets more stand in the file, as far as there are some.
#[derive(Drop)]
struct Growth<'a, R> {
    rt: &'a R,
    path: &'a str,
    octets: &'a [u8],
    step: usize,
}

impl<R: Files> Growth<'_, R> {
    /// How many octets stand in the file.
    fn count(&self) -> io::Result<usize> {
        let count = fs::metadata(self.rt, self.path)?.len();
        Ok(usize::try_from(count).unwrap_or(usize::MAX))
    }

    /// Writes so many octets more.
    fn grow(&self) -> io::Result<()> {
        let end = self
            .count()?
            .saturating_add(self.step)
            .min(self.octets.len());
        fs::write(self.rt, self.path, &self.octets[..end])
    }
}

impl<R: Files> Clock for Growth<'_, R> {
    fn monotonic(&self) -> io::Result<Duration> {
        Ok(Duration::ZERO)
    }

    fn since_1970(&self) -> io::Result<Duration> {
        Ok(Duration::ZERO)
    }

    fn sleep(&self, _duration: Duration) {
        // A file that could not be written does not grow, and the case then tells another verdict.
        let _ = self.grow();
    }
}

/// The auditor of a file, which is the last word. It is empty at first; the octets of the input come to stand in it, so many at each
/// pause as the last word of the input says. Tells the verdict, and how many octets stood there then.
pub fn follow<R: Files + AllocGlobal>(rt: &R, case: &Case<'_>, left: &mut Left) -> io::Result<()> {
    let mut octets = fs::read(rt, word_at(&case.input, 0))?;
    octets.truncate(number_at(&case.input, 1, usize::MAX));
    follow_octets(rt, case, octets.as_slice(), left)
}

/// The same of these octets.
///
/// It borrows them: owned here, their drop would be proved on each way out.
fn follow_octets<R: Files + AllocGlobal>(
    rt: &R,
    case: &Case<'_>,
    octets: &[u8],
    left: &mut Left,
) -> io::Result<()> {
    let growth = Growth {
        rt,
        path: case.words.last().copied().unwrap_or(""),
        octets,
        step: number_at(&case.input, 2, 1),
    };
    fs::write(rt, growth.path, &octets[..0])?;
    let mut input = Input::new(Vec::new(rt.alloc()));
    left.status = audit_program::run_words(
        rt,
        &growth,
        rt.alloc(),
        case.words_from(0),
        &mut input,
        &mut left.out,
        &mut left.err,
    );
    writeln!(left.out, "{} octets stood there", growth.count()?)?;
    fs::remove_file(rt, growth.path)
}
