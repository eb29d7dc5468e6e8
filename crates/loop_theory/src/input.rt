//! What a loop is fed.

ghost use Rattle.std.specs.Prelude.{refl};
ghost use Rattle.loop_theory.specs.Inputs.{inputs_same};

use surge_outside::Record;

/// A record that a loop is fed. In the order of `Ord` every fixed one is below every moving one.
#[derive(Clone, Copy, Debug, PartialEq, Eq, PartialOrd, Ord)]
pub enum LoopInput<F, X> {
    /// A record that the body is given at each application.
    Fixed(F),
    /// A record of the collection that the body is applied to.
    Moving(X),
}

impl<F: Record, X: Record> Record for LoopInput<F, X> {
    ghost same = { inputs_same _ F.cmp X.cmp (λ _ _. refl) (λ _ _. refl) (λ _ _. refl) (λ _ _. refl) F.same X.same };
}
