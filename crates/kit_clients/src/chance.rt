//! A source of choices.

ghost use Rattle.std.specs.Prelude.{◌<◌, Contains, length};

use rand_core::utils::NextWord;
use rand_pcg::Pcg32;

/// The stream of the generator that is used; any would do.
const STREAM: u64 = 54;

/// Makes choices, each by the next word of a generator.
#[derive(Drop)]
pub struct Chance {
    random: Pcg32,
}

impl Chance {
    /// The choices of a seed, from the first on.
    pub fn new(seed: u64) -> Chance {
        Chance {
            random: Pcg32::new(seed, STREAM),
        }
    }

    /// Some number below this one.
    pub fn below(&mut self, bound: usize) -> usize
        requires { 0 < bound }
        ensures { result < bound }
    {
        self.random.next_word() as usize % bound
    }

    /// Some number below this one; 0 where there is none.
    pub fn number(&mut self, count: u32) -> u32
        ensures { 0 < count → result < count }
    {
        self.random.next_word().checked_rem(count).unwrap_or(0)
    }

    /// Some place among so many; 0 where there is none.
    pub fn place(&mut self, count: usize) -> usize
        ensures { 0 < count → result < count }
    {
        let word = self.random.next_word() as usize;
        word.checked_rem(count).unwrap_or(0)
    }

    /// Yes, once in so many times.
    pub fn once_in(&mut self, times: u32) -> bool {
        self.number(times) == 0
    }

    /// One of these, or the other one where there is none.
    pub fn one_of<T: Copy>(&mut self, choices: &[T], otherwise: T) -> T
        ensures { 0 < length choices.now → Contains choices.now result }
    {
        let place = self.place(choices.len());
        choices.get(place).copied().unwrap_or(otherwise)
    }

    /// Some octet.
    pub fn octet(&mut self) -> u8 {
        (self.number(256) & 0xFF) as u8
    }
}
