//! A run: a core takes what the driver makes.

use crate::cores::{LIMIT, done};
use crate::hostile::judging::gives_its_frames;
use address_table::Rules;
use capture_form::{Capture, Distribution, Rule};
use kit_clients::Chance;
use kit_gates::put_rule;
use kit_talks::{Deed, Driver, Known};
use route_core::Core;
use route_items::StepFault;
use std::alloc::{AllocError, Global};

/// A core, and the driver that drives it through so many items.
#[derive(Drop)]
pub(crate) struct Run {
    core: Core,
    driver: Driver,
    items: u32,
    /// How many items the core took, and how many it refused.
    pub(crate) taken: u64,
    pub(crate) refused: u64,
    /// The core answered each client, and gave each frame that it wrote.
    pub(crate) is_right: bool,
}

/// The run of a seed, of at most so many items, before the first of them. There is none where the rules are not taken.
pub(crate) fn run_of_seed(alloc: Global, seed: u64, items: u32) -> Result<Option<Run>, AllocError> {
    let mut chance = Chance::new(seed);
    let Ok(rules) = Rules::new(some_rules(alloc, &mut chance)?) else {
        return Ok(None);
    };
    let items = chance.number(items).wrapping_add(1);
    Ok(Some(Run::new(alloc, &rules, chance, items)?))
}

impl Run {
    /// A run of so many items, by these rules and the choices that are left.
    fn new(alloc: Global, rules: &Rules, chance: Chance, items: u32) -> Result<Run, AllocError> {
        let core = Core::new(alloc, rules, LIMIT)?;
        Ok(Run {
            core,
            driver: Driver::new(alloc, chance)?,
            items,
            taken: 0,
            refused: 0,
            is_right: true,
        })
    }

    /// The capture of the core.
    pub(crate) fn capture(&self) -> &Capture {
        self.core.capture()
    }

    /// What the clients know.
    pub(crate) fn known(&self) -> &Known {
        &self.driver.known
    }

    /// Lets the driver drive the core through all items.
    pub(crate) fn drive(&mut self) -> Result<(), AllocError> {
        for _ in 0..self.items {
            match one_step(&mut self.core, &mut self.driver)? {
                Some(step_is_right) => {
                    self.taken = self.taken.wrapping_add(1);
                    self.is_right = self.is_right && step_is_right;
                }
                None => self.refused = self.refused.wrapping_add(1),
            }
        }
        Ok(())
    }
}

/// The core takes the next item, and the clients learn from what it made: whether it answers what they asked for,
/// and gives all frames that it wrote. Nothing, where it refuses the item.
fn one_step(core: &mut Core, driver: &mut Driver) -> Result<Option<bool>, AllocError> {
    let deed = driver.next_deed()?;
    one_deed(core, driver, &deed)
}

/// The same of this item.
fn one_deed(core: &mut Core, driver: &mut Driver, deed: &Deed) -> Result<Option<bool>, AllocError> {
    let from = core.capture().records().len();
    match done(core, deed) {
        Ok(()) => {}
        Err(StepFault::Memory) => return Err(AllocError),
        Err(_) => return Ok(None),
    }
    for (number, entry) in core.capture().records().iter().enumerate().skip(from) {
        driver.known.see(number as u64, entry)?;
    }
    Ok(Some(driver.known.is_answered() && gives_its_frames(core, from)))
}

/// The rules of a run: mostly one of each kind.
fn some_rules(alloc: Global, chance: &mut Chance) -> Result<Vec<Rule>, AllocError> {
    let mut rules = Vec::new(alloc);
    put_some(&mut rules, chance)?;
    Ok(rules)
}

/// Puts them.
///
/// It borrows the rules: owned here, their drop would be proved on each way out.
fn put_some(rules: &mut Vec<Rule>, chance: &mut Chance) -> Result<(), AllocError> {
    if chance.once_in(6) {
        return Ok(());
    }
    put_rule(rules, Distribution::Closest, "near")?;
    put_rule(rules, Distribution::Multicast, "news")?;
    if chance.once_in(2) {
        put_rule(rules, Distribution::Balanced, "even")?;
    }
    if chance.once_in(3) {
        put_rule(rules, Distribution::Multicast, "near/x")?;
    }
    Ok(())
}
