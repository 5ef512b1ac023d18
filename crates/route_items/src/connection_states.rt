//! What became of each connection. Those that are lost stand in runs of neighbours of which the same became, so that one that
//! came and went takes no memory for ever.

ghost use Rattle.std.specs.Prelude.{◌≡◌, ◌∷◌, [], ◌++◌, List, ℕ, IsFalse, IsTrue, OnOk};
ghost use Rattle.capture_form.specs.declared.records.Record.{Record};
ghost use Rattle.route_items.specs.Items.{record_of};
ghost use Rattle.route_items.specs.Inputs as law;
ghost use Rattle.route_items.specs.ConnectionStates.{AreStates, IsNow, life_after, life_in, life_over};

use crate::Item;
use number_map::NumberMap;
use number_runs::{NumberRuns, RunValue};
use std::alloc::{AllocError, Global};

/// What became of a connection. That what it sent was broken tells nothing once it is lost, and is forgotten then: so all that
/// were opened and are lost are alike.
#[derive(Clone, Copy, PartialEq, Eq)]
pub(crate) struct ConnectionState {
    is_opened: bool,
    is_lost: bool,
    is_broken: bool,
}

impl ConnectionState {
    /// What it is once the item came.
    fn after(self, item: Item<'_>) -> ConnectionState
        ensures { result ≡ life_after self item.entry }
    {
        match item {
            Item::Opened(_) => ConnectionState {
                is_opened: true,
                ..self
            },
            Item::In(..) => self,
            Item::Broken(_) => ConnectionState {
                is_broken: !self.is_lost,
                ..self
            },
            Item::Lost(_) => ConnectionState {
                is_lost: true,
                is_broken: false,
                ..self
            },
        }
    }
}

impl RunValue for ConnectionState {
    fn is_same(self, other: ConnectionState) -> bool {
        self == other
    }
}

/// What became of each connection, by the inputs that came; one without any was not opened.
#[derive(Drop)]
pub struct ConnectionStates {
    /// Of those that are not lost, and of one to which something came behind that. They are asked first.
    entries: NumberMap<u32, ConnectionState>,
    /// Of those that are lost.
    over: NumberRuns<ConnectionState>,
}

impl ConnectionStates {
    /// No inputs.
    pub fn new(alloc: Global) -> ConnectionStates
        ensures { AreStates result [] }
    {
        ConnectionStates {
            entries: NumberMap::new(alloc),
            over: NumberRuns::new(alloc),
        }
    }

    /// What became of the connection.
    fn life(&self, connection: u32) -> ConnectionState
        ensures { result ≡ life_in self.now connection }
    {
        match self.entries.get(&connection) {
            Some(life) => *life,
            None => self.life_over(connection),
        }
    }

    /// What became of the connection, where it has no entry.
    fn life_over(&self, connection: u32) -> ConnectionState
        ensures { result ≡ life_over self.now connection }
    {
        match self.over.get(connection) {
            Some(life) => life,
            None => ConnectionState {
                is_opened: false,
                is_lost: false,
                is_broken: false,
            },
        }
    }

    /// Whether the item may come behind these inputs.
    pub fn may_come(&self, item: Item<'_>) -> bool
        ensures { (inputs : List Record) → AreStates self.now inputs → result ≡ law.may_come item.entry inputs }
    {
        let life = self.life(item.connection());
        let is_attended = life.is_opened & !life.is_lost;
        match item {
            Item::Opened(_) => !life.is_opened,
            Item::In(..) | Item::Broken(_) => is_attended & !life.is_broken,
            Item::Lost(_) => is_attended,
        }
    }

    /// The item came.
    ///
    /// # Errors
    ///
    /// Where memory is refused. Of the table nothing is said then: the router takes no item from then on.
    pub fn come(&mut self, item: Item<'_>) -> Result<(), AllocError>
        ensures { OnOk result ((inputs : List Record) → AreStates self.old inputs → AreStates self.new (inputs ++ record_of item.entry ∷ [])) }
    {
        let connection = item.connection();
        let life = self.life(connection).after(item);
        match item {
            Item::Lost(_) => self.lose(connection, life),
            _ => self.put(connection, life),
        }
    }

    /// The connection is lost, and this became of it.
    fn lose(&mut self, connection: u32, life: ConnectionState) -> Result<(), AllocError>
        ensures { OnOk result (IsNow connection life self.old self.new) }
    {
        if self.retires(connection, life) {
            Ok(())
        } else {
            self.put(connection, life)
        }
    }

    /// This became of the connection, as its entry says.
    fn put(&mut self, connection: u32, life: ConnectionState) -> Result<(), AllocError>
        ensures { OnOk result (IsNow connection life self.old self.new) }
    {
        self.entries.insert(connection, life)?;
        Ok(())
    }

    /// This became of the connection, as its run says, and its entry goes. Where a run says already what became of it, or
    /// there is no memory for the run, it is not done, and all stays as it was.
    fn retires(&mut self, connection: u32, life: ConnectionState) -> bool
        ensures done { IsTrue result → IsNow connection life self.old self.new }
        ensures unchanged { IsFalse result → (n : ℕ) → life_in self.new n ≡ life_in self.old n }
    {
        match self.over.insert(connection, life) {
            Ok(true) => {
                self.entries.swap_remove(&connection);
                true
            }
            Ok(false) => false,
            Err(_) => false,
        }
    }
}
