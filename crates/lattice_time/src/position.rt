//! Places of views.

ghost use Rattle.std.specs.Prelude.{◌<◌, ◌^◌, nat_le, max};
ghost use Rattle.std.proofs.Common.{ap, refl};
ghost use Rattle.std.proofs.lemmas.Map.Lookups.{exact_unsigned};
ghost use Rattle.lattice_time.specs.LatticeLaws.{number_in_order, numbers_lattice, zero_is_least};

use crate::time::Time;
use surge_outside::Record;

/// A view's place in the run order of its segment, 0 to 2^32 - 1. Position 0 is before the first view.
#[derive(Clone, Copy, Debug, PartialEq, Eq, PartialOrd, Ord)]
pub struct Position(pub u32);

impl Record for Position {
    ghost same = { λ x y e. ap (λ n. record { 0 = n }) (exact_unsigned x.0 y.0 e) };
}

impl Time for Position {
    ghost leq = { λ s t. nat_le s.0 t.0 };

    ghost lub = { λ s t. record { 0 = max s.0 t.0 } };

    ghost least = { record { 0 = 0 } };

    ghost is_proper = { λ t. t.0 < 2 ^ 32 };

    ghost lattice = { numbers_lattice (λ t. t.0) (λ n. record { 0 = n }) (λ _. refl) (λ _. refl) };

    ghost least_is_least = { λ t _. zero_is_least t.0 };

    ghost in_order = { λ s t. number_in_order s.0 t.0 };

    #[inline]
    fn leq(&self, other: &Self) -> bool {
        self.0 <= other.0
    }

    #[inline]
    fn lub(&self, other: &Self) -> Self {
        Position(self.0.max(other.0))
    }

    #[inline]
    fn least() -> Self {
        Position(0)
    }

    #[inline]
    fn proper(&self) {
        let _value = self.0;
    }
}
