//! Weights of records.

ghost use Rattle.std.specs.Prelude.{◌≡◌, ◌+◌, ◌*◌, ◌%◌, ◌^◌, ◌==◌};
ghost use Rattle.weighted.specs.Words.{minus};

use std::marker::Model;

/// How many times a record is there, as a number modulo 2^64: -1 is 2^64 - 1. Weights form a ring, so no sum has a limit.
#[derive(Clone, Copy, Debug, PartialEq, Eq, PartialOrd, Ord)]
pub struct Weight(pub u64);

impl Model for Weight {
    ghost use Rattle.std.specs.Prelude.{ℕ, ◌<◌, ◌^◌};

    ghost Value = { ℕ };

    ghost view = { λ w. w.0 };

    ghost invariant = { λ w. w.0 < 2 ^ 64 };

    ghost inverse = { λ n. record { 0 = n } };
}

impl Weight {
    /// The sum of two weights, modulo 2^64. It takes no memory.
    pub fn add(self, other: Weight) -> Weight
        ensures { result ≡ (self + other) % 2 ^ 64 }
    {
        Weight(self.0.wrapping_add(other.0))
    }

    /// The weight that gives zero when it is added to this one, modulo 2^64. It takes no memory.
    pub fn negate(self) -> Weight
        ensures { result ≡ minus self }
    {
        Weight(self.0.wrapping_neg())
    }

    /// The product of two weights, modulo 2^64. It takes no memory.
    pub fn times(self, other: Weight) -> Weight
        ensures { result ≡ (self * other) % 2 ^ 64 }
    {
        Weight(self.0.wrapping_mul(other.0))
    }

    /// Whether the weight is zero.
    pub fn is_zero(self) -> bool
        ensures { result ≡ (self == 0) }
    {
        self.0 == 0
    }
}
