//! Numbers that look random and that a seed fixes.
//!
//! It stands on nothing but std. It offers [`Draws`], a linear congruential generator of 64 bits with the constants of Knuth's
//! MMIX (The Art of Computer Programming, volume 2, section 3.3.4), of which each draw takes the high half. Its model is
//! `specs/Draws.antt`. It promises exactly these numbers, so that whatever is made by them is the same at each run. It is
//! no source of chance: samples are made by it, and an order in which nothing but the order is free.
#![tactic(auto)]

ghost use Rattle.std.specs.Prelude.{◌≡◌, ◌<◌, ◌≤◌};
ghost use Rattle.draws.specs.Draws.{next_state, drawn};

const MULTIPLIER: u64 = 6_364_136_223_846_793_005;

const INCREMENT: u64 = 1_442_695_040_888_963_407;

/// A stream of numbers that a seed fixes.
#[derive(Clone, Copy, Debug, PartialEq, Eq)]
pub struct Draws {
    state: u64,
}

impl Draws {
    /// The stream of a seed.
    pub fn new(seed: u64) -> Draws
        ensures { result.state ≡ seed }
    {
        Draws { state: seed }
    }

    /// The next number, from 0 and below the given one, which is at least 1.
    pub fn draw(&mut self, below: u32) -> u32
        requires { 1 ≤ below }
        ensures value { result ≡ drawn self.old.state below }
        ensures state { self.new.state ≡ next_state self.old.state }
        ensures limit { result < below }
    {
        self.state = MULTIPLIER.wrapping_mul(self.state).wrapping_add(INCREMENT);
        (self.state >> 32) as u32 % below
    }
}
