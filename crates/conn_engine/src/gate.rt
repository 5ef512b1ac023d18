//! What an engine's octets come from and go to.

ghost use Rattle.std.specs.Prelude.{◌≡◌, ◌<◌, ◌≤◌, ℕ, Bool, List, length};
ghost use Rattle.conn_engine.specs.declared.gate.Delivered.TheVariants as delivered_as;
ghost use Rattle.conn_engine.specs.declared.gate.Taken.TheVariants as taken_as;
ghost use Rattle.conn_engine.specs.declared.gate.Ready.TheVariants as ready_as;

/// What a read brought.
#[derive(Clone, Copy, Debug, PartialEq, Eq)]
pub enum Delivered {
    /// So many octets.
    Octets(usize),
    /// None now.
    Nothing,
    /// None any more.
    End,
    Fault,
}

/// What a write did.
#[derive(Clone, Copy, Debug, PartialEq, Eq)]
pub enum Taken {
    /// It took so many octets.
    Took(usize),
    /// None now.
    Nothing,
    Fault,
}

/// Whether there are octets to read or room to write.
#[derive(Clone, Copy, Debug, PartialEq, Eq)]
pub enum Ready {
    Yes,
    No,
    /// A poll or a listener failed.
    Device,
}

/// A device. It tells which octets it may have delivered and taken, and whether it answered that it ended or failed: of a
/// socket nothing is known of the octets, and then all may be.
pub trait Gate {
    ghost use Rattle.conn_engine.specs.Device.{AfterRead, AfterWrite, KeepsTold};

    ghost delivered: { Self → List ℕ → Type 0 };

    ghost took: { Self → List ℕ → Type 0 };

    /// Whether a read answered `End`, or a read or a write `Fault`.
    ghost has_ended: { Self → Bool };

    ghost failed: { Self → ℕ };

    /// The second is the first, after some calls.
    ghost follows: { Self → Self → Type 0 };

    /// Reads into the front of the buffer.
    fn read(&mut self, buffer: &mut [u8]) -> Delivered
        requires { 0 < length buffer.old }
        ensures delivered { AfterRead delivered has_ended self.old self.new buffer.new result }
        ensures took { KeepsTold took self.old self.new }
        ensures fault { result ≡ delivered_as.Fault → failed self.old < failed self.new }
        ensures follows { follows self.old self.new };

    /// Writes octets from the front of these.
    fn write(&mut self, octets: &[u8]) -> Taken
        ensures took { AfterWrite took has_ended self.old self.new octets.now result }
        ensures delivered { KeepsTold delivered self.old self.new }
        ensures fault { result ≡ taken_as.Fault → failed self.old < failed self.new }
        ensures follows { follows self.old self.new };

    /// Waits for octets or room, here or at a gate that shares the wait; a socket's waits 10 milliseconds at most. Of the
    /// time, and of `Yes` and `No`, the contract says nothing: whether there are any, `read` and `write` tell.
    fn ready(&mut self) -> Ready
        ensures took { KeepsTold took self.old self.new }
        ensures delivered { KeepsTold delivered self.old self.new }
        ensures ended { has_ended self.new ≡ has_ended self.old }
        ensures fault { result ≡ ready_as.Device → failed self.old < failed self.new }
        ensures follows { follows self.old self.new };

    /// Ends the device.
    fn shut(&mut self)
        ensures took { KeepsTold took self.old self.new }
        ensures delivered { KeepsTold delivered self.old self.new }
        ensures ended { has_ended self.new ≡ has_ended self.old }
        ensures follows { follows self.old self.new };

    /// How many calls failed.
    fn failures(&self) -> u64
        ensures { result ≡ failed self.now };

    /// The moment, in milliseconds from some start; 0 where a clock fails. The contract says nothing of it.
    fn now(&self) -> u64;

    ghost follows_itself: { (gate : Self) → follows gate gate };

    ghost follows_on: { (first second third : Self) → follows first second → follows second third → follows first third };
}
