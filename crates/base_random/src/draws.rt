//! The generator.
ghost use Rattle.std.specs.Prelude.{◌≡◌, ◌≢◌, ◌<◌};
ghost use Rattle.base_random.specs.Draws.{next_state, answer, portion_of};

use std::marker::Model;

const FACTOR: u64 = 6_364_136_223_846_793_005;

const STEP: u64 = 1_442_695_040_888_963_407;

/// A generator of numbers. Contracts see its state.
#[derive(Drop)]
pub struct Draws {
    state: u64,
}

impl Model for Draws {
    ghost use Rattle.std.specs.Prelude.{ℕ, ◌<◌, ◌^◌};

    ghost Value = { ℕ };

    ghost view = { λ d. d.state };

    ghost invariant = { λ d. d.state < 2 ^ 64 };
}

impl Draws {
    /// The generator that begins with this state.
    pub fn new(state: u64) -> Draws
        ensures { result ≡ state }
    {
        Draws { state }
    }

    /// Takes the next state and gives it. Its high bits are the ones to take numbers from.
    pub fn step(&mut self) -> u64
        ensures state { self.new ≡ next_state self.old }
        ensures given { result ≡ self.new }
    {
        self.state = self.state.wrapping_mul(FACTOR).wrapping_add(STEP);
        self.state
    }

    /// Draws a number below `m`, which isn't 0: the new state is taken first, and then the answer from it.
    pub fn draw(&mut self, m: u32) -> u32
        requires { m ≢ 0 }
        ensures state { self.new ≡ next_state self.old }
        ensures answer { result ≡ answer m self.new }
        ensures below { result < m }
    {
        self.state = self.state.wrapping_mul(FACTOR).wrapping_add(STEP);
        ((self.state >> 33) % m as u64) as u32
    }

    /// Draws a number below a count, as `draw` does. Where the count is 0, nothing is drawn and it gives 0.
    pub fn below(&mut self, count: usize) -> usize
        ensures drawn { count ≢ 0 → self.new ≡ next_state self.old }
        ensures answer { count ≢ 0 → result ≡ answer count self.new }
        ensures kept { count ≡ 0 → self.new ≡ self.old }
        ensures none { count ≡ 0 → result ≡ 0 }
    {
        if count == 0 {
            return 0;
        }
        (self.step() >> 33) as usize % count
    }

    /// Draws a number below a count of at most 2 to the 32nd as a part of it, without a division. Where the count is 0, a state is
    /// taken and it gives 0.
    pub fn portion(&mut self, count: usize) -> usize
        ensures state { self.new ≡ next_state self.old }
        ensures portion { result ≡ portion_of count self.new }
    {
        ((self.step() >> 32).wrapping_mul(count as u64) >> 32) as usize
    }

    /// The state.
    pub fn state(&self) -> u64
        ensures { result ≡ self.now }
    {
        self.state
    }
}
