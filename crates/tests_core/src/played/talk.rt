//! Playing a scenario: its lines are done to a core, or compared with what the core wrote.

use crate::cores::done;
use crate::played::asked::Tables;
use capture_form::Capture;
use kit_talks::{Difference, Stage, Words, lines_meant};
use route_core::Core;
use state_ledger::{Ledger, NotEntered};
use std::alloc::{AllocError, Global};

/// A scenario that is played.
#[derive(Drop)]
struct Scene {
    alloc: Global,
    stage: Stage,
    /// The auditor's tables, as far as they were asked.
    ledger: Ledger,
}

/// As many records as a ledger may have.
const MOST_RECORDS: u64 = 9223372036854775807;

/// Plays the lines: all differences, in order.
pub(crate) fn play(
    alloc: Global,
    core: &mut Core,
    lines: &[&str],
) -> Result<Vec<Difference>, AllocError> {
    let mut scene = Scene {
        alloc,
        stage: Stage::new(alloc),
        ledger: Ledger::new(alloc),
    };
    // A `?` here would be one more way out on which the drop of the scene is proved.
    let played = scene.play(core, lines);
    let differences = scene.into_differences();
    played?;
    Ok(differences)
}

impl Scene {
    /// All differences, in order.
    fn into_differences(self) -> Vec<Difference> {
        self.stage.into_differences()
    }

    /// Plays the lines, behind which no record may stand that is not told.
    fn play(&mut self, core: &mut Core, lines: &[&str]) -> Result<(), AllocError> {
        for text in lines {
            self.play_line(core, text)?;
        }
        self.stage.pass_untold(core.capture().records())
    }

    /// Plays a line, with all lines that it stands for.
    fn play_line(&mut self, core: &mut Core, text: &str) -> Result<(), AllocError> {
        self.stage.go_on();
        let lines = lines_meant(self.alloc, text)?;
        self.play_meant(core, lines.as_slice())
    }

    /// Plays the lines that a line stands for.
    fn play_meant(&mut self, core: &mut Core, lines: &[String]) -> Result<(), AllocError> {
        for line in lines {
            self.play_often(core, &Words::of(self.alloc, line.as_str())?)?;
        }
        Ok(())
    }

    /// Plays a line as often as it says.
    fn play_often(&mut self, core: &mut Core, words: &Words<'_>) -> Result<(), AllocError> {
        let Ok(connection) = words.at(0).parse::<u32>() else {
            return self
                .stage
                .differ("a line begins with the number of a connection");
        };
        for turn in 0..words.times() {
            match words.at(1) {
                "<" => self.stage.compare(core.capture().records(), words)?,
                "?" => self.ask(core.capture(), words)?,
                _ => self.act(core, words, connection, turn)?,
            }
        }
        Ok(())
    }

    /// Compares what the auditor's tables answer behind the records that are told.
    fn ask(&mut self, capture: &Capture, line: &Words<'_>) -> Result<(), AllocError> {
        self.follow(capture)?;
        let tables = Tables {
            alloc: self.alloc,
            ledger: &self.ledger,
            rules: capture.rules(),
            names: self.stage.names(),
        };
        let answer = tables.answer(line)?;
        self.stage
            .has_to_say("the tables answer", answer.as_str(), line)
    }

    /// The auditor's tables follow the records that are told.
    fn follow(&mut self, capture: &Capture) -> Result<(), AllocError> {
        let entered = self.ledger.tally().records as usize;
        let told = capture
            .records()
            .get(entered..self.stage.told())
            .unwrap_or(&[]);
        for entry in told {
            if self.ledger.tally().records >= MOST_RECORDS {
                return Ok(());
            }
            match self.ledger.enter(capture.rules(), entry) {
                Ok(()) => {}
                Err(NotEntered::Memory) => return Err(AllocError),
                Err(NotEntered::Broken(_)) => return self
                    .stage
                    .differ("the auditor refuses a record"),
            }
        }
        Ok(())
    }

    /// Does to the core what the line tells.
    fn act(
        &mut self,
        core: &mut Core,
        words: &Words<'_>,
        connection: u32,
        turn: u32,
    ) -> Result<(), AllocError> {
        self.stage.pass_untold(core.capture().records())?;
        match self.stage.deed(words, connection, turn)? {
            Some(deed) => self.stage.took(done(core, &deed), words),
            None => Ok(()),
        }
    }
}
