//! What a time is.

ghost use Rattle.std.specs.Prelude.{◌≡◌, Bool, false, IsTrue};
ghost use Rattle.std.specs.Ordering.{is_gt};
ghost use Rattle.lattice_time.specs.Lattice.{IsLattice};

use surge_outside::Record;

/// A partially ordered time, in which any two times have a least upper bound. No call takes memory.
///
/// The order of `Ord` is another one: it is total, and it only never contradicts [`Time::leq`].
pub trait Time: Record {
    /// Whether the first time is at or below the second.
    ghost leq: { Self → Self → Bool };

    /// The least time that is at or above both.
    ghost lub: { Self → Self → Self };

    /// The time below every proper time.
    ghost least: { Self };

    /// Which times are proper: those that a program can hold.
    ghost is_proper: { Self → Type 0 };

    /// Whether this time is at or below the other in the partial order.
    fn leq(&self, other: &Self) -> bool
        ensures { result ≡ leq self.now other.now };

    /// The least upper bound of both times.
    fn lub(&self, other: &Self) -> Self
        ensures { result ≡ lub self.now other.now };

    /// The time at or below every proper time.
    fn least() -> Self
        ensures { result ≡ least };

    /// Does nothing, and tells contracts that the time in hand is proper.
    fn proper(&self)
        ensures { is_proper self.now };

    /// `leq` is a partial order, and `lub` the least upper bound under it.
    ghost lattice: { IsLattice leq lub };

    /// The least time is at or below each proper one.
    ghost least_is_least: { (t : Self) → is_proper t → IsTrue (leq least t) };

    /// A time that is at or below another is not greater in the total order.
    ghost in_order: { (s t : Self) → IsTrue (leq s t) → is_gt (Self.cmp s t) ≡ false };
}
