//! Gates in memory: clients that keep to a script.

ghost use Rattle.std.specs.Prelude.{◌≡◌, ◌≤◌, ◌+◌, ◌++◌, [], length, take, IfOk};

use crate::script::{ClientScript, TimedOctets};
use conn_engine::{Delivered, Gate, Ready, Taken};
use std::alloc::Global;
use std::sync::Arc;
use std::sync::atomic::{AtomicU64, Ordering};
use std::thread;

/// As many reads in a row that bring nothing as a client bears whose turn is to come.
pub const PATIENCE: u64 = 100_000;

/// So often a client looks whether the other was read too, or bears it that it has nothing to say beside one of another
/// thread.
pub const LOOKS: u64 = 100_000_000;

/// What two clients know of each other.
#[derive(Drop)]
pub struct Post {
    /// Whether it was read.
    read: AtomicU64,
    /// Whether it has seen that the other was not.
    alone: AtomicU64,
    /// How many octets it took.
    taken: AtomicU64,
    /// How often it was shut, and how often it was called where nothing more was to be asked of it.
    shuts: AtomicU64,
    late_calls: AtomicU64,
}

/// How a client reads and writes.
#[derive(Clone, Copy, Debug)]
pub struct Pace {
    /// The most octets at once.
    pub most: usize,
    /// Behind so many octets that it said it is gone.
    pub vanishes: usize,
    /// Whether it takes what it is sent.
    pub takes: bool,
    /// Whether its first read waits until the other client is read too.
    pub meets: bool,
    /// Behind so many reads in a row that bring nothing it ends: what it waits for may never come.
    pub patience: u64,
    /// Whether its device fails where it is waited for.
    pub breaks: bool,
    /// So many milliseconds pass from one look at its clock to the next.
    pub passes: u64,
    /// Behind so many octets that it said, the read that would bring the next ones fails.
    pub read_fails: usize,
    /// Behind so many octets that it took, the write that brings it more fails.
    pub write_fails: usize,
}

/// A client that keeps to its script.
#[derive(Drop)]
pub struct Client {
    stream: Vec<u8>,
    /// How many octets of the stream it said.
    at: usize,
    script: ClientScript,
    pace: Pace,
    taken: Vec<u8>,
    /// So many reads in a row brought nothing.
    idle: u64,
    has_ended: bool,
    failures: u64,
    /// What its clock shows next.
    moment: AtomicU64,
    mine: Arc<Post, Global>,
    theirs: Arc<Post, Global>,
    ghost within: { at ≤ length stream.items },
}

impl Post {
    /// Nothing has happened yet.
    pub fn new() -> Post {
        Post {
            read: AtomicU64::new(0),
            alone: AtomicU64::new(0),
            taken: AtomicU64::new(0),
            shuts: AtomicU64::new(0),
            late_calls: AtomicU64::new(0),
        }
    }

    /// How many octets it took.
    pub fn taken(&self) -> u64 {
        self.taken.load(Ordering::SeqCst)
    }

    /// Whether it was shut once, and nothing was asked of it behind its end.
    pub fn is_left_alone(&self) -> bool {
        self.shuts.load(Ordering::SeqCst) == 1 && self.late_calls.load(Ordering::SeqCst) == 0
    }
}

impl Client {
    /// A client of this script, which says these octets, and has said and taken nothing.
    pub fn new(
        alloc: Global,
        stream: Vec<u8>,
        script: ClientScript,
        pace: Pace,
        mine: Arc<Post, Global>,
        theirs: Arc<Post, Global>,
    ) -> Client
        ensures at { result.at ≡ 0 }
        ensures taken { result.taken.items ≡ [] }
    {
        Client {
            stream,
            at: 0,
            script,
            pace,
            taken: Vec::new(alloc),
            idle: 0,
            has_ended: false,
            failures: 0,
            moment: AtomicU64::new(0),
            mine,
            theirs,
        }
    }

    /// How many octets it took.
    pub fn took(&self) -> usize {
        self.taken.len()
    }

    /// Whether these octets are just those that it took.
    pub fn has_taken(&self, octets: &[u8]) -> bool {
        self.taken.as_slice() == octets
    }

    /// Whether it said all, and took all that it waits for.
    pub fn is_content(&self) -> bool {
        self.at == self.stream.len() && self.taken.len() >= self.script.wanted
    }

    /// Whether it was shut once, and nothing was asked of it behind its end.
    pub fn is_left_alone(&self) -> bool {
        self.mine.is_left_alone()
    }

    /// Counts a call that should not come any more.
    fn note_call(&self) {
        if self.has_ended || self.mine.shuts.load(Ordering::SeqCst) > 0 {
            self.mine.late_calls.fetch_add(1, Ordering::SeqCst);
        }
    }

    /// How many octets it may have said by now.
    fn allowed(&self) -> usize {
        let others = self.theirs.taken.load(Ordering::SeqCst);
        let all = allowed(self.script.says, self.taken.len(), others);
        all.min(self.pace.vanishes)
    }

    /// Whether nothing more comes of it.
    fn is_through(&self) -> bool {
        self.at >= self.pace.vanishes
            || self.taken.len() >= self.script.wanted
            || self.idle >= self.pace.patience
            || self.theirs.alone.load(Ordering::SeqCst) == 1
    }

    /// Whether a write of these octets fails.
    fn fails_to_take(&self, octets: &[u8]) -> bool {
        !octets.is_empty() && self.taken.len() >= self.pace.write_fails
    }

    /// Whether the other client is read too, as far as it asks.
    fn is_met(&self) -> bool {
        !self.pace.meets || meets(&self.mine, &self.theirs)
    }
}

impl Gate for Client {
    ghost delivered = { λ client octets. octets ≡ take client.at client.stream.items };

    ghost took = { λ client octets. octets ≡ client.taken.items };

    ghost has_ended = { λ client. client.has_ended };

    ghost failed = { λ client. client.failures };

    ghost follows = { λ earlier later. later.stream ≡ earlier.stream };

    fn read(&mut self, buffer: &mut [u8]) -> Delivered {
        self.note_call();
        let is_met = self.is_met();
        let most = self.allowed().saturating_sub(self.at).min(self.pace.most);
        let fails = !is_met || (most > 0 && self.at >= self.pace.read_fails);
        if fails && self.failures < u64::MAX {
            self.failures += 1;
            self.has_ended = true;
            return Delivered::Fault;
        }
        let n = put_front(self.stream.as_slice(), self.at, most, buffer);
        if n > 0 {
            self.at += n;
            self.idle = 0;
            return Delivered::Octets(n);
        }
        if self.is_through() {
            self.has_ended = true;
            return Delivered::End;
        }
        self.idle = self.idle.saturating_add(1);
        Delivered::Nothing
    }

    fn write(&mut self, octets: &[u8]) -> Taken {
        self.note_call();
        if !self.pace.takes {
            return Taken::Nothing;
        }
        if self.fails_to_take(octets) && self.failures < u64::MAX {
            self.failures += 1;
            self.has_ended = true;
            return Taken::Fault;
        }
        let n = octets.len().min(self.pace.most);
        match self.taken.extend_from_slice(&octets[..n]) {
            Ok(()) => {
                self.mine
                    .taken
                    .store(self.taken.len() as u64, Ordering::SeqCst);
                Taken::Took(n)
            }
            Err(_) => Taken::Nothing,
        }
    }

    fn ready(&mut self) -> Ready {
        self.note_call();
        if self.pace.breaks && self.failures < u64::MAX {
            self.failures += 1;
            return Ready::Device;
        }
        thread::yield_now();
        Ready::No
    }

    fn shut(&mut self) {
        self.mine.shuts.fetch_add(1, Ordering::SeqCst);
    }

    fn failures(&self) -> u64 {
        self.failures
    }

    fn now(&self) -> u64 {
        self.moment.fetch_add(self.pace.passes, Ordering::SeqCst)
    }

    ghost use Rattle.std.proofs.Common.{refl, ◌∙◌};

    ghost follows_itself = { λ client. refl };

    ghost follows_on = { λ first second third one two. two ∙ one };
}

/// How many of these octets may have been said by a client that took so many, beside another that took so many.
fn allowed(says: &[TimedOctets], taken: usize, others: u64) -> usize {
    let mut all: usize = 0;
    for said in says {
        if said.taken > taken || said.others as u64 > others {
            return all;
        }
        all = all.saturating_add(said.octets.len());
    }
    all
}

/// Says that one was read, and looks until the other was too. Where it was not, it says so.
fn meets(mine: &Post, theirs: &Post) -> bool {
    mine.read.store(1, Ordering::SeqCst);
    for _ in 0..LOOKS {
        if theirs.read.load(Ordering::SeqCst) == 1 {
            return true;
        }
    }
    mine.alone.store(1, Ordering::SeqCst);
    false
}

/// Copies the next octets of a stream to the front of the buffer, and says how many.
fn put_front(stream: &[u8], at: usize, most: usize, buffer: &mut [u8]) -> usize
    requires { at ≤ length stream.now }
    ensures room { result ≤ length buffer.new }
    ensures stream { at + result ≤ length stream.now }
    ensures put { take (at + result) stream.now ≡ take at stream.now ++ take result buffer.new }
{
    let (_, rest) = stream.split_at(at);
    let n = most.min(rest.len()).min(buffer.len());
    let (part, _) = rest.split_at(n);
    buffer[..n].copy_from_slice(part);
    n
}
