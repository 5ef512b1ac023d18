//! An exchange of two clients over one core: a message goes from a producer to a consumer, and its outcome back.

ghost use Rattle.std.specs.Prelude.{◌<◌};

use crate::cores::core_without_rules;
use crate::exchanged::device::Device;
use capture_form::Capture;
use conn_engine::EngineFault;
use kit_clients::{LOOPBACK_CONSUMER, LOOPBACK_PRODUCER, ScriptStep, heard};
use route_core::Core;
use std::alloc::{AllocError, Global};
use std::cell::RefCell;

/// How often each client has its turn; ten times are enough.
const ROUNDS: usize = 16;

/// A client that keeps to its steps.
#[derive(Drop)]
struct Player<'a> {
    alloc: Global,
    steps: &'static [ScriptStep],
    device: Device<'a>,
    /// How many of its steps are done, up to the last that it said.
    done: usize,
    has_ended: bool,
}

impl<'a> Player<'a> {
    fn new(
        alloc: Global,
        connection: u32,
        core: &'a RefCell<Core>,
        steps: &'static [ScriptStep],
    ) -> Player<'a> {
        Player {
            alloc,
            steps,
            device: Device::new(alloc, connection, core),
            done: 0,
            has_ended: false,
        }
    }

    /// Has its turn: it says what is next, if it has heard just what it waits for, and takes what comes then. It ends where
    /// it has said and heard all.
    ///
    /// # Errors
    ///
    /// As the engine answers.
    fn turn(&mut self, most: usize) -> Result<(), EngineFault>
        requires { 0 < most }
    {
        let next = self.next_said();
        if self.has_heard(next) {
            match self.steps.get(next) {
                Some(ScriptStep::Says(octets)) => {
                    self.device.feed_pieces(octets, most)?;
                    self.done = next.saturating_add(1);
                }
                _ => {
                    self.has_ended = true;
                    return self.device.engine.gone();
                }
            }
        }
        self.take(most)
    }

    /// The next step in which it says something; as many as there are, where there is none.
    fn next_said(&self) -> usize {
        for (place, step) in self.steps.iter().enumerate().skip(self.done) {
            if let ScriptStep::Says(_) = step {
                return place;
            }
        }
        self.steps.len()
    }

    /// Whether it has taken just what it hears in so many first steps.
    fn has_heard(&self, count: usize) -> bool {
        let steps = self.steps.get(..count).unwrap_or(&[]);
        match heard(self.alloc, steps) {
            Ok(texts) => self.device.given() == texts.as_slice(),
            Err(_) => false,
        }
    }

    /// Takes all that the router has for it.
    fn take(&mut self, most: usize) -> Result<(), EngineFault>
        requires { 0 < most }
    {
        let Ok(()) = self.device.engine.refill() else {
            return Err(EngineFault::Memory);
        };
        let Ok(()) = self.device.take_pieces(most) else {
            return Err(EngineFault::Memory);
        };
        Ok(())
    }

    /// Whether it has said and heard all and ended, and its engine is over.
    fn is_done(&self) -> bool {
        self.has_ended && self.device.engine.is_over()
    }
}

/// The capture of the exchange, where all that is fed and given goes in pieces of this length. There is none where a client
/// does not come to the end of its steps.
pub fn exchanged(alloc: Global, most: usize) -> Result<Option<Capture>, AllocError>
    requires { 0 < most }
{
    let (is_done, capture) = play(alloc, core_without_rules(alloc)?, most);
    Ok(is_done.then_some(capture))
}

/// Lets both have their turns over a core, and answers whether they come to their ends, and the capture.
fn play(alloc: Global, core: Core, most: usize) -> (bool, Capture)
    requires { 0 < most }
{
    let core = RefCell::new(core);
    let is_done = take_turns(alloc, &core, most);
    (is_done, core.into_inner().into_capture())
}

/// Lets both have their turns, the producer first.
fn take_turns(alloc: Global, core: &RefCell<Core>, most: usize) -> bool
    requires { 0 < most }
{
    let mut producer = Player::new(alloc, 0, core, LOOPBACK_PRODUCER);
    let mut consumer = Player::new(alloc, 1, core, LOOPBACK_CONSUMER);
    come_to_ends(&mut producer, &mut consumer, most)
}

/// Lets both have their turns, and answers whether they come to their ends.
///
/// It borrows both: owned here, their drops would be proved on each way out.
fn come_to_ends(producer: &mut Player<'_>, consumer: &mut Player<'_>, most: usize) -> bool
    requires { 0 < most }
{
    for _ in 0..ROUNDS {
        if producer.turn(most).is_err() || consumer.turn(most).is_err() {
            return false;
        }
    }
    producer.is_done() && consumer.is_done()
}
