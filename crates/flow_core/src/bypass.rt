//! An operator with a bypass.

ghost use Rattle.std.specs.Prelude.{◌≡◌, ◌++◌, ◌||◌, IfOk};
ghost use Rattle.weighted.specs.Alike.{Alike, Alike-append};
ghost use Rattle.flow_core.specs.Runs.{IsFresh};
ghost use Rattle.flow_core.specs.Expanded.{expanded, expanded_linear};
ghost use Rattle.flow_core.specs.Routes.{StandsByRoutes, routes_answers, routes_idle};

use crate::expand::Expand;
use crate::flat_map::flat_map_batch;
use crate::operator::Operator;
use lattice_time::Time;
use std::alloc::Global;
use std::marker::PhantomData;
use surge_outside::{Counted, NoMemory, Record};
use weighted::Batch;

/// An operator with a bypass: one function says what goes past the operator inside for each record, and another what is
/// fed to it. What is made is the sum of what went past and of what the operator inside makes. All else is as inside.
#[derive(Drop)]
pub struct Bypass<P, E, A, O> {
    alloc: Global,
    past: P,
    into: E,
    inner: O,
    spent: bool,
    of: PhantomData<A>,
}

/// What goes past for the records of a batch, and what goes into the operator inside.
fn both_ways<A: Record, B: Record, M: Record, P: Expand<A, B>, E: Expand<A, M>>(
    alloc: Global,
    past: &P,
    into: &E,
    delta: &Batch<A>,
) -> Result<(Batch<B>, Batch<M>), NoMemory>
    ensures past { IfOk result (λ ways. Alike ways.0 (expanded (P.gives past.now) delta.now)) }
    ensures into { IfOk result (λ ways. Alike ways.1 (expanded (E.gives into.now) delta.now)) }
{
    let passed = flat_map_batch(alloc, past, delta)?;
    let handed = flat_map_batch(alloc, into, delta)?;
    Ok((passed, handed))
}

impl<P, E, A, O> Bypass<P, E, A, O> {
    /// An operator that was not stepped yet, with a bypass. It takes no memory; its steps use `alloc`.
    pub fn new<T: Time, U: Counted>(alloc: Global, past: P, into: E, inner: O) -> Bypass<P, E, A, O>
    where
        A: Record,
        O: Operator<T, U>,
        P: Expand<A, O::Output>,
        E: Expand<A, O::Input>,
        requires { IsFresh O.stands O.due O.seal O.spent T.least inner }
        ensures fresh { let it = ⟦<Bypass<P, E, A, O> as Operator<T, U>>⟧ in IsFresh it.stands it.due it.seal it.spent T.least result }
        ensures apply { ⟦<Bypass<P, E, A, O> as Operator<T, U>>⟧.apply result ≡ (λ xs. expanded (P.gives past) xs ++ O.apply inner (expanded (E.gives into) xs)) }
        ensures charge { ⟦<Bypass<P, E, A, O> as Operator<T, U>>⟧.charge result ≡ O.charge inner }
        ensures inner { result.inner ≡ inner }
    {
        Bypass {
            alloc,
            past,
            into,
            inner,
            spent: false,
            of: PhantomData,
        }
    }

    /// The operator inside, lent.
    pub fn inner(&self) -> &O
        ensures { result.now ≡ self.now.inner }
    {
        &self.inner
    }
}

impl<
    T: Time,
    U: Counted,
    A: Record,
    O: Operator<T, U>,
    P: Expand<A, O::Output>,
    E: Expand<A, O::Input>,
> Operator<T, U> for Bypass<P, E, A, O> {
    type Input = A;

    type Output = O::Output;

    ghost stands = { λ s. StandsByRoutes (expanded (P.gives s.past)) (expanded (E.gives s.into)) (O.stands s.inner) };

    ghost due = { λ s. O.due s.inner };

    ghost seal = { λ s. O.seal s.inner };

    ghost apply = { λ s xs. expanded (P.gives s.past) xs ++ O.apply s.inner (expanded (E.gives s.into) xs) };

    ghost kept = { λ s xs. expanded (P.gives s.past) xs ++ O.apply s.inner (expanded (E.gives s.into) xs) };

    ghost charge = { λ s. O.charge s.inner };

    ghost spent = { λ s. s.spent || O.spent s.inner };

    ghost answers = { λ s. routes_answers (expanded (P.gives s.past)) (expanded (E.gives s.into)) (expanded_linear (P.gives s.past)) (expanded_linear (E.gives s.into)) T.leq T.lub (O.apply s.inner) (O.respects s.inner) (O.seal s.inner) (O.due s.inner) (O.stands s.inner) (O.answers s.inner) };

    ghost respects = { λ s xs ys h. Alike-append ((expanded_linear (P.gives s.past)).respects xs ys h) (O.respects s.inner _ _ ((expanded_linear (E.gives s.into)).respects xs ys h)) };

    ghost idle = { λ s run t h above over below. routes_idle (expanded (P.gives s.past)) (expanded (E.gives s.into)) (expanded_linear (P.gives s.past)) (expanded_linear (E.gives s.into)) T.leq (O.stands s.inner) run t (λ q stands none. O.idle s.inner q t stands none over below) h above };

    ghost paid = { λ s run h. O.paid s.inner _ h.inner };

    fn step(
        &mut self,
        t: T,
        delta: &Batch<A>,
        updater: &mut U,
    ) -> Result<Batch<O::Output>, NoMemory> {
        let ways = both_ways(self.alloc, &self.past, &self.into, delta);
        self.spent = ways.is_err();
        let (passed, handed) = ways?;
        let given = self.inner.step(t, &handed, updater)?;
        let made = passed.add(&given);
        self.spent = made.is_err();
        made
    }

    fn next_due(&self) -> Option<T> {
        self.inner.next_due()
    }

    fn seal(&mut self, f: T) -> Result<(), NoMemory> {
        self.inner.seal(f)
    }

    fn is_spent(&self) -> bool {
        self.spent || self.inner.is_spent()
    }
}
