//! All lists of what is due, in the order of a step.

ghost use Rattle.std.specs.Prelude.{◌≡◌};
ghost use Rattle.route_work.specs.Work.{HasWork};

use crate::flowing::Flowing;
use crate::sending::Sending;
use crate::telling::Telling;
use crate::{Due, Dues};
use capture_form::RuleSet;
use state_answers::{EventEffects, LentTables};
use std::alloc::{AllocError, Global};
use trace_events::Event;

/// What may be due of a router's work. First it tells what is to be told, then it sends what may be sent, and what links and
/// sessions lack it gives last.
pub struct Work {
    telling: Telling,
    sending: Sending,
    flowing: Flowing,
}

// Written out, and not derived, so that where one is let go the prover need not go through all that it owns.
impl Drop for Work {
    fn drop(self) {
        let Work {
            telling: _,
            sending: _,
            flowing: _,
        } = self;
    }
}

impl Dues for Work {
    ghost has_all = { λ work rules past. HasWork rules work past };

    fn new(alloc: Global) -> Work {
        let telling = Telling::new(alloc);
        let sending = Sending::new(alloc);
        let flowing = Flowing::new(alloc);
        Work {
            telling,
            sending,
            flowing,
        }
    }

    fn follow(
        &mut self,
        rules: &RuleSet,
        event: &Event,
        address: &[u8],
        before: &LentTables<'_>,
        effects: &EventEffects<'_>,
    ) -> Result<(), AllocError> {
        self.telling.follow(rules, event, before, effects)?;
        self.sending.follow(rules, event, address, before, effects)?;
        self.flowing.follow(event, before, effects)?;
        Ok(())
    }

    fn next_due<'t>(&mut self, rules: &RuleSet, tables: &LentTables<'t>) -> Option<Due<'t>> {
        if let Some(due) = self.telling.next_due(rules, tables) {
            return Some(due);
        }
        if let Some(due) = self.sending.next_due(rules, tables) {
            return Some(due);
        }
        self.flowing.next_due(rules, tables)
    }
}
