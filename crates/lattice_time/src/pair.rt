//! Pairs of times.

ghost use Rattle.std.specs.Prelude.{◌&&◌};
ghost use Rattle.std.proofs.Common.{ap, refl};
ghost use Rattle.std.proofs.lemmas.Map.Lookups.{exact_pairs};
ghost use Rattle.lattice_time.specs.LatticeLaws.{and_both, pair_in_order, pair_lattice};

use crate::time::Time;
use surge_outside::Record;

/// A time of an outer dataflow and a time of a loop inside it. It is at or below another where both parts are; `Ord`
/// compares the outer part first, then the inner one, as a dictionary does.
#[derive(Clone, Copy, Debug, PartialEq, Eq, PartialOrd, Ord)]
pub struct Pair<A, B> {
    /// The time outside of the loop.
    pub outer: A,
    /// The time inside it.
    pub inner: B,
}

impl<A: Record, B: Record> Record for Pair<A, B> {
    ghost same = { λ x y e. ap (λ p. record { outer = p.0; inner = p.1 }) (exact_pairs A.cmp B.cmp A.same B.same (x.outer, x.inner) (y.outer, y.inner) e) };
}

impl<A: Time, B: Time> Time for Pair<A, B> {
    ghost leq = { λ s t. A.leq s.outer t.outer && B.leq s.inner t.inner };

    ghost lub = { λ s t. record { outer = A.lub s.outer t.outer; inner = B.lub s.inner t.inner } };

    ghost least = { record { outer = A.least; inner = B.least } };

    ghost is_proper = { λ t. A.is_proper t.outer × B.is_proper t.inner };

    ghost lattice = { pair_lattice (λ t. t.outer) (λ t. t.inner) (λ a b. record { outer = a; inner = b }) (λ _. refl) (λ _ _. refl) (λ _ _. refl) A.lattice B.lattice };

    ghost least_is_least = { λ t h. and_both _ _ (A.least_is_least t.outer h.0) (B.least_is_least t.inner h.1) };

    ghost in_order = { λ s t. pair_in_order A.cmp B.cmp A.leq B.leq A.in_order B.in_order s.outer t.outer s.inner t.inner };

    #[inline]
    fn leq(&self, other: &Self) -> bool {
        self.outer.leq(&other.outer) && self.inner.leq(&other.inner)
    }

    #[inline]
    fn lub(&self, other: &Self) -> Self {
        Pair {
            outer: self.outer.lub(&other.outer),
            inner: self.inner.lub(&other.inner),
        }
    }

    #[inline]
    fn least() -> Self {
        Pair {
            outer: A::least(),
            inner: B::least(),
        }
    }

    #[inline]
    fn proper(&self) {
        self.outer.proper();
        self.inner.proper();
    }
}
