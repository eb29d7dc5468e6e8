//! The operator of a logic on the values of each key.

ghost use Rattle.std.specs.Prelude.{◌≡◌, ◌+◌, ◌≤◌, ◌%◌, ◌^◌, List, [], map, refl, IfOk, OnOk, OnErr};
ghost use Rattle.std.specs.Cmp.{tied_itself};
ghost use Rattle.weighted.specs.Batches.{IsBatch};
ghost use Rattle.trace_store.specs.Traces.{in_turn};
ghost use Rattle.flow_core.specs.Runs.{IsFresh, Run, Every};
ghost use Rattle.reduce_theory.specs.Evaluated.{EachCharged, charged};
ghost use Rattle.reduce_theory.specs.ByKey.{reduce_apply, reduce_respects};
ghost use Rattle.reduce_theory.specs.Kept.{old_steps, new_steps};
ghost use Rattle.diff_reduce.specs.Stands.{Stands, due_times};
ghost use Rattle.diff_reduce.specs.Changes.{Sealed, Stepped};
ghost use Rattle.diff_reduce.specs.StandsLaws.{stands_answers, stands_paid};
ghost use Rattle.diff_reduce.specs.StepLaws.{idle_stands};

use crate::count::Count;
use crate::evaluate::evaluate;
use crate::key_logic::KeyLogic;
use crate::keys::keys_at;
use crate::pairs::Pairs;
use flow_core::Operator;
use lattice_time::Time;
use std::alloc::Global;
use std::marker::PhantomData;
use surge_outside::{Counted, List, NoMemory, Record};
use trace_store::Trace;
use weighted::Batch;

/// The operator of a logic on the values of each key. It keeps what it was fed and what it made, for each key the times
/// at which it was evaluated since the seal, and the keys that are due at a time. It charges each call of the logic.
#[derive(Drop)]
pub struct Reduce<G: KeyLogic<U>, T: Time, U: Counted> {
    alloc: Global,
    logic: G,
    input: Trace<G::Key, G::Value, T>,
    output: Trace<G::Key, G::Output, T>,
    points: Pairs<G::Key, T>,
    due: Pairs<T, G::Key>,
    count: Count,
    sealed: T,
    spent: bool,
    of: PhantomData<U>,
}

/// The pairs of keys with a time.
fn at_time<K: Record, T: Time>(alloc: Global, keys: &[K], t: T) -> Result<Vec<(K, T)>, NoMemory>
    ensures { IfOk result (λ pairs. pairs.items ≡ map (λ k. (k, t)) keys.now) }
{
    let mut pairs = Vec::with_capacity(alloc, keys.len())?;
    for key in keys {
        pairs.push((*key, t))?;
    }
    Ok(pairs)
}

impl<G: KeyLogic<U>, T: Time, U: Counted> Reduce<G, T, U> {
    /// The operator of `logic`. It takes no memory; its steps use `alloc`.
    pub fn new(alloc: Global, logic: G) -> Reduce<G, T, U>
        ensures fresh { let it = ⟦<Reduce<G, T, U> as Operator<T, U>>⟧ in IsFresh it.stands it.due it.seal it.spent T.least result }
        ensures apply { ⟦<Reduce<G, T, U> as Operator<T, U>>⟧.apply result ≡ reduce_apply G.Key.cmp G.Value.cmp (G.gives logic) }
        ensures kept { ⟦<Reduce<G, T, U> as Operator<T, U>>⟧.kept result ≡ reduce_apply G.Key.cmp G.Value.cmp (G.gives logic) }
        ensures charge { ⟦<Reduce<G, T, U> as Operator<T, U>>⟧.charge result ≡ 0 }
    {
        Reduce {
            alloc,
            logic,
            input: Trace::new(alloc),
            output: Trace::new(alloc),
            points: Pairs::new(alloc),
            due: Pairs::new(alloc),
            count: Count::new(alloc),
            sealed: T::least(),
            spent: false,
            of: PhantomData,
        }
    }

    /// How many times the logic was called so far, modulo 2^64: the low bits of the charge. Of each run for which the
    /// reduce stands the charge is that at the seal and the number of keys that are evaluated at each step since, each
    /// of these steps was charged that number, and each step was fed a batch in normal form. It takes no memory.
    pub fn evaluations(&self) -> u64
        ensures charge { result ≡ ⟦<Reduce<G, T, U> as Operator<T, U>>⟧.charge self.now % 2 ^ 64 }
        ensures counted { let it = ⟦<Reduce<G, T, U> as Operator<T, U>>⟧ in (run : Run T (G.Key × G.Value) (G.Key × G.Output)) → it.stands self.now run → it.charge self.now ≡ run.base + charged T.leq T.lub T.cmp G.Key.cmp G.Value.cmp (it.seal self.now) (old_steps run) [] (new_steps run) }
        ensures each { let it = ⟦<Reduce<G, T, U> as Operator<T, U>>⟧ in (run : Run T (G.Key × G.Value) (G.Key × G.Output)) → it.stands self.now run → EachCharged T.leq T.lub T.cmp G.Key.cmp G.Value.cmp (it.seal self.now) (old_steps run) [] (new_steps run) }
        ensures fed { let it = ⟦<Reduce<G, T, U> as Operator<T, U>>⟧ in (run : Run T (G.Key × G.Value) (G.Key × G.Output)) → it.stands self.now run → Every (λ s. IsBatch (in_turn G.Key.cmp G.Value.cmp) s.fed) run.steps }
    {
        self.count.low()
    }

    /// A step, where a refusal leaves the operator to be marked as spent.
    fn advance(
        &mut self,
        t: T,
        delta: &Batch<(G::Key, G::Value)>,
        updater: &mut U,
    ) -> Result<Batch<(G::Key, G::Output)>, NoMemory>
        ensures step { IfOk result (λ made. (ks : List G.Key) × Stepped T.leq T.lub T.cmp G.Key.cmp G.Value.cmp G.Output.cmp (G.gives self.old.logic) (record { input = self.old.input.items; output = self.old.output.items; points = self.old.points; due = self.old.due; seal = self.old.sealed; charge = self.old.count }) (record { input = self.new.input.items; output = self.new.output.items; points = self.new.points; due = self.new.due; seal = self.new.sealed; charge = self.new.count }) t delta.now made ks) }
        ensures batch { OnOk result (IsBatch (in_turn G.Key.cmp G.Value.cmp) delta.now) }
        ensures logic { self.new.logic ≡ self.old.logic }
        ensures counted { self.old.count ≤ self.new.count }
        ensures calls { U.calls updater.old ≤ U.calls updater.new }
        ensures cost { U.calls updater.new + self.old.count ≤ U.calls updater.old + self.new.count }
    {
        self.input.insert(delta, t)?;
        let keys = keys_at(self.alloc, delta.as_slice(), &self.due, &t)?;
        if keys.is_empty() {
            return Ok(Batch::empty(self.alloc));
        }
        let (entries, later) = evaluate(
            self.alloc,
            &self.logic,
            &self.input,
            &self.output,
            &self.points,
            keys.as_slice(),
            t,
            &mut self.count,
            updater,
        )?;
        let made = Batch::from_rising(List::from_vec(entries));
        self.output.insert(&made, t)?;
        let points = at_time(self.alloc, keys.as_slice(), t)?;
        self.points.add(points.as_slice())?;
        self.due.remove(self.alloc, &t)?;
        self.due.add(later.as_slice())?;
        Ok(made)
    }

    /// A seal, where a refusal leaves the operator to be marked as spent.
    fn close(&mut self, f: T) -> Result<(), NoMemory>
        ensures seal { OnOk result (Sealed T.lub (record { input = self.old.input.items; output = self.old.output.items; points = self.old.points; due = self.old.due; seal = self.old.sealed; charge = self.old.count }) (record { input = self.new.input.items; output = self.new.output.items; points = self.new.points; due = self.new.due; seal = self.new.sealed; charge = self.new.count }) f) }
        ensures logic { self.new.logic ≡ self.old.logic }
        ensures count { self.new.count ≡ self.old.count }
    {
        self.input.seal(f)?;
        self.output.seal(f)?;
        self.points.clear();
        self.due.clear();
        self.sealed = f;
        Ok(())
    }
}

impl<G: KeyLogic<U>, T: Time, U: Counted> Operator<T, U> for Reduce<G, T, U> {
    type Input = (G::Key, G::Value);

    type Output = (G::Key, G::Output);

    ghost stands = { λ s run. Stands T.leq T.lub T.cmp G.Key.cmp G.Value.cmp (G.gives s.logic) (record { input = s.input.items; output = s.output.items; points = s.points; due = s.due; seal = s.sealed; charge = s.count }) run };

    ghost due = { λ s. due_times s.due };

    ghost seal = { λ s. s.sealed };

    ghost apply = { λ s. reduce_apply G.Key.cmp G.Value.cmp (G.gives s.logic) };

    ghost kept = { λ s. reduce_apply G.Key.cmp G.Value.cmp (G.gives s.logic) };

    ghost charge = { λ s. s.count };

    ghost spent = { λ s. s.spent };

    ghost answers = { λ s run h. stands_answers T.leq T.lub T.lattice T.cmp T.same (tied_itself T.total) G.Key.cmp G.Key.same (tied_itself G.Key.total) G.Value.cmp G.Value.total G.Value.same (G.gives s.logic) (G.nothing s.logic) (record { input = s.input.items; output = s.output.items; points = s.points; due = s.due; seal = s.sealed; charge = s.count }) run h };

    ghost respects = { λ s. reduce_respects G.Key.cmp G.Key.same (tied_itself G.Key.total) G.Value.cmp G.Value.total G.Value.same (G.gives s.logic) (G.nothing s.logic) };

    ghost idle = { λ s run t h above over below. idle_stands T.leq T.lub T.lattice T.cmp T.same (tied_itself T.total) G.Key.cmp G.Key.same (tied_itself G.Key.total) G.Value.cmp G.Value.total G.Value.same G.Output.cmp G.Output.total G.Output.same (G.gives s.logic) (G.nothing s.logic) (record { input = s.input.items; output = s.output.items; points = s.points; due = s.due; seal = s.sealed; charge = s.count }) run t h above over below };

    ghost paid = { λ s run h. stands_paid T.leq T.lub T.lattice T.cmp T.same (tied_itself T.total) G.Key.cmp G.Key.same (tied_itself G.Key.total) G.Value.cmp G.Value.total G.Value.same (G.gives s.logic) (G.nothing s.logic) (record { input = s.input.items; output = s.output.items; points = s.points; due = s.due; seal = s.sealed; charge = s.count }) run h };

    fn step(
        &mut self,
        t: T,
        delta: &Batch<(G::Key, G::Value)>,
        updater: &mut U,
    ) -> Result<Batch<(G::Key, G::Output)>, NoMemory> {
        let made = self.advance(t, delta, updater);
        self.spent = made.is_err();
        made
    }

    fn next_due(&self) -> Option<T> {
        self.due.least()
    }

    fn seal(&mut self, f: T) -> Result<(), NoMemory> {
        let done = self.close(f);
        self.spent = done.is_err();
        done
    }

    fn is_spent(&self) -> bool {
        self.spent
    }
}
