//! The loop, made of its parts.

ghost use Rattle.std.specs.Prelude.{◌≡◌, ◌≤◌};
ghost use Rattle.flow_core.specs.Runs.{IsFresh};
ghost use Rattle.loop_theory.specs.Loops.{loop_apply};

use diff_iterate::Iterate;
use diff_reduce::Reduce;
use flow_core::{Chain, NoCalls, Operator, Quiet};
use lattice_time::{Pair, Round, Time};
use loop_theory::LoopInput;
use std::alloc::Global;
use surge_outside::{Counted, Record};

/// One round: a quiet part, and a reduce of what it makes.
pub type KeyedBody<I, G, T, U> = Chain<Quiet<I>, Reduce<G, T, U>>;

/// A quiet part, and a loop of such rounds over what it makes.
pub type KeyedLoop<P, I, G, T, U> = Chain<
    Quiet<P>,
    Iterate<KeyedBody<I, G, Pair<T, Round>, U>, T, U>,
>;

/// A quiet part, and an operator of what it makes, as a reduce, neither of which was stepped yet. It takes no memory.
pub fn body_of<
    T: Time,
    U: Counted,
    M: Record,
    I: Operator<T, NoCalls, Output = M>,
    R: Operator<T, U, Input = M>,
>(items: I, reduce: R) -> Chain<Quiet<I>, R>
    requires items { IsFresh I.stands I.due I.seal I.spent T.least items }
    requires reduce { IsFresh R.stands R.due R.seal R.spent T.least reduce }
    ensures fresh { let it = ⟦<Chain<Quiet<I>, R> as Operator<T, U>>⟧ in IsFresh it.stands it.due it.seal it.spent T.least result }
    ensures apply { ⟦<Chain<Quiet<I>, R> as Operator<T, U>>⟧.apply result ≡ (λ held. R.apply reduce (I.apply items held)) }
    ensures kept { ⟦<Chain<Quiet<I>, R> as Operator<T, U>>⟧.kept result ≡ (I.apply items, R.kept reduce) }
    ensures charge { ⟦<Chain<Quiet<I>, R> as Operator<T, U>>⟧.charge result ≡ R.charge reduce }
    ensures items { result.first.inner ≡ items }
    ensures reduce { result.second ≡ reduce }
{
    let quiet: Quiet<I> = Quiet::new::<T, U>(items);
    Chain::new::<T, U>(quiet, reduce)
}

/// The loop of a body, of 1 to 1,000,000 rounds, behind a quiet part, neither of which was stepped yet. It takes no
/// memory; its steps use `alloc`.
pub fn loop_of<
    T: Time,
    U: Counted,
    F: Record,
    X: Record,
    P: Operator<T, NoCalls, Output = LoopInput<F, X>>,
    B: Operator<Pair<T, Round>, U, Input = LoopInput<F, X>, Output = X>,
>(alloc: Global, prep: P, body: B, rounds: u32) -> Chain<Quiet<P>, Iterate<B, T, U>>
where
    LoopInput<F, X>: Record + Ord + Eq + PartialOrd + PartialEq,
    requires prep { IsFresh P.stands P.due P.seal P.spent T.least prep }
    requires body { IsFresh B.stands B.due B.seal B.spent ⟦<Pair<T, Round> as Time>⟧.least body }
    requires some { 1 ≤ rounds }
    requires few { rounds ≤ 1_000_000 }
    ensures fresh { let it = ⟦<Chain<Quiet<P>, Iterate<B, T, U>> as Operator<T, U>>⟧ in IsFresh it.stands it.due it.seal it.spent T.least result }
    ensures apply { ⟦<Chain<Quiet<P>, Iterate<B, T, U>> as Operator<T, U>>⟧.apply result ≡ (λ fed. loop_apply (B.apply body) rounds (P.apply prep fed)) }
    ensures kept { ⟦<Chain<Quiet<P>, Iterate<B, T, U>> as Operator<T, U>>⟧.kept result ≡ (P.apply prep, (B.kept body, rounds)) }
    ensures charge { ⟦<Chain<Quiet<P>, Iterate<B, T, U>> as Operator<T, U>>⟧.charge result ≡ B.charge body }
    ensures prep { result.first.inner ≡ prep }
    ensures body { result.second.body ≡ body }
    ensures rounds { result.second.rounds ≡ rounds }
{
    let quiet: Quiet<P> = Quiet::new::<T, U>(prep);
    let looped: Iterate<B, T, U> = Iterate::new(alloc, body, rounds);
    Chain::new::<T, U>(quiet, looped)
}
