//! The join of two collections.

ghost use Rattle.std.specs.Prelude.{◌≡◌, ℕ, ◌≤◌, ◌⊎◌, IsTrue, List, [], IfOk, OnOk};
ghost use Rattle.flow_core.specs.declared.side.Side.{Side};
ghost use Rattle.flow_core.specs.Runs.{Run, Every, IsFresh, Member, NoneAbove, continued, sealed, times_of};
ghost use Rattle.diff_join.specs.Joins.{due_times, joined_sides};
ghost use Rattle.diff_join.specs.Standing.{StandsByProducts};
ghost use Rattle.diff_join.specs.PairLaws.{joined_respects};
ghost use Rattle.diff_join.specs.RunLaws.{join_answers, join_idle, join_paid};

use crate::kept::Kept;
use crate::pairing::{Pairing, Turned};
use crate::products::push_all;
use flow_core::{Operator, Side, split};
use lattice_time::Time;
use std::alloc::Global;
use std::marker::PhantomData;
use surge_outside::{Counted, List, NoMemory, Record};
use trace_store::Trace;
use weighted::Batch;

/// The operator that joins two collections of keys with values, which it is fed as the two sides of one: for each left
/// and each right value of one key it makes what the pairing gives, with the product of their weights. It keeps both
/// sides, and the products that wait for their times. It charges nothing.
#[derive(Drop)]
pub struct Join<K: Record, A: Record, B: Record, F: Pairing<K, A, B>, T: Time, U> {
    alloc: Global,
    pairing: F,
    left: Trace<K, A, T>,
    right: Trace<K, B, T>,
    kept: Kept<T, F::Output>,
    sealed: T,
    spent: bool,
    of: PhantomData<U>,
}

impl<K: Record, A: Record, B: Record, F: Pairing<K, A, B>, T: Time, U: Counted> Join<
    K,
    A,
    B,
    F,
    T,
    U,
> {
    /// The join by a pairing. It takes no memory; its steps use `alloc`.
    pub fn new(alloc: Global, pairing: F) -> Join<K, A, B, F, T, U>
        ensures fresh { let it = ⟦<Join<K, A, B, F, T, U> as Operator<T, U>>⟧ in IsFresh it.stands it.due it.seal it.spent T.least result }
        ensures apply { ⟦<Join<K, A, B, F, T, U> as Operator<T, U>>⟧.apply result ≡ joined_sides K.cmp (F.gives pairing) }
        ensures charge { ⟦<Join<K, A, B, F, T, U> as Operator<T, U>>⟧.charge result ≡ 0 }
    {
        Join {
            alloc,
            pairing,
            left: Trace::new(alloc),
            right: Trace::new(alloc),
            kept: Kept::new(alloc),
            sealed: T::least(),
            spent: false,
            of: PhantomData,
        }
    }

    /// Feeds a change at `t`, and answers the products that stand at `t`. New left differences meet the right side with
    /// its new differences, and new right ones the left side without them, so that two of one step meet once.
    fn advance(
        &mut self,
        t: T,
        delta: &Batch<Side<(K, A), (K, B)>>,
    ) -> Result<Batch<F::Output>, NoMemory>
        requires run { (run : Run T (Side (K × A) (K × B)) F.Output) × StandsByProducts T.leq T.lub (joined_sides K.cmp (F.gives self.old.pairing)) self.old.sealed self.old.left.items self.old.right.items self.old.kept run }
        requires due { Every (λ d. IsTrue (T.leq d t) → d ≡ t) (due_times self.old.kept) }
        requires seal { IsTrue (T.leq self.old.sealed t) }
        ensures runs { IfOk result (λ made. (run : Run T (Side (K × A) (K × B)) F.Output) → StandsByProducts T.leq T.lub (joined_sides K.cmp (F.gives self.old.pairing)) self.old.sealed self.old.left.items self.old.right.items self.old.kept run → NoneAbove T.leq t (times_of run.steps) → StandsByProducts T.leq T.lub (joined_sides K.cmp (F.gives self.old.pairing)) self.old.sealed self.new.left.items self.new.right.items self.new.kept (continued run t delta.now made 0)) }
        ensures due { OnOk result (Every (λ d. Member d (due_times self.old.kept) ⊎ IsTrue (T.leq t d)) (due_times self.new.kept)) }
        ensures seal { self.new.sealed ≡ self.old.sealed }
        ensures pairing { self.new.pairing ≡ self.old.pairing }
    {
        let (left, right) = split(self.alloc, delta)?;
        self.right.insert(&right, t)?;
        let mut products = Vec::new(self.alloc);
        push_all(
            self.alloc,
            &mut products,
            &self.pairing,
            t,
            &left,
            &self.right,
        )?;
        let turned = Turned {
            pairing: &self.pairing,
        };
        push_all(self.alloc, &mut products, &turned, t, &right, &self.left)?;
        self.left.insert(&left, t)?;
        self.kept.exchange(List::from_vec(products), t)
    }

    /// Seals both sides.
    fn seal_sides(&mut self, f: T) -> Result<(), NoMemory>
        requires seal { IsTrue (T.leq self.old.sealed f) }
        requires due { due_times self.old.kept ≡ [] }
        ensures runs { OnOk result ((run : Run T (Side (K × A) (K × B)) F.Output) → StandsByProducts T.leq T.lub (joined_sides K.cmp (F.gives self.old.pairing)) self.old.sealed self.old.left.items self.old.right.items self.old.kept run → StandsByProducts T.leq T.lub (joined_sides K.cmp (F.gives self.old.pairing)) f self.new.left.items self.new.right.items self.old.kept (sealed run 0)) }
        ensures seal { OnOk result (self.new.sealed ≡ f) }
        ensures kept { self.new.kept ≡ self.old.kept }
        ensures pairing { self.new.pairing ≡ self.old.pairing }
    {
        self.left.seal(f)?;
        self.right.seal(f)?;
        self.sealed = f;
        Ok(())
    }
}

impl<K: Record, A: Record, B: Record, F: Pairing<K, A, B>, T: Time, U: Counted> Operator<T, U>
    for Join<K, A, B, F, T, U> {
    type Input = Side<(K, A), (K, B)>;

    type Output = F::Output;

    ghost stands = { λ s run. StandsByProducts T.leq T.lub (joined_sides K.cmp (F.gives s.pairing)) s.sealed s.left.items s.right.items s.kept run };

    ghost due = { λ s. due_times s.kept };

    ghost seal = { λ s. s.sealed };

    ghost apply = { λ s. joined_sides K.cmp (F.gives s.pairing) };

    ghost kept = { λ s. joined_sides K.cmp (F.gives s.pairing) };

    ghost charge = { λ _. 0 };

    ghost spent = { λ s. s.spent };

    ghost answers = { λ s run h. join_answers T.lattice K.cmp (F.gives s.pairing) s.sealed s.left.items s.right.items s.kept run h };

    ghost respects = { λ s. joined_respects K.cmp (F.gives s.pairing) };

    ghost idle = { λ s run t h _ _ below. join_idle T.lattice K.cmp (F.gives s.pairing) s.sealed s.left.items s.right.items s.kept run t h below };

    ghost paid = { λ s run h. join_paid T.lattice K.cmp (F.gives s.pairing) s.sealed s.left.items s.right.items s.kept run h };

    fn step(
        &mut self,
        t: T,
        delta: &Batch<Side<(K, A), (K, B)>>,
        updater: &mut U,
    ) -> Result<Batch<F::Output>, NoMemory> {
        let made = self.advance(t, delta);
        self.spent = made.is_err();
        made
    }

    fn next_due(&self) -> Option<T> {
        self.kept.first()
    }

    fn seal(&mut self, f: T) -> Result<(), NoMemory> {
        let sealed = self.seal_sides(f);
        self.spent = sealed.is_err();
        sealed
    }

    fn is_spent(&self) -> bool {
        self.spent
    }
}
