//! A reduce, and a function on each record that it makes, as one operator.

ghost use Rattle.std.specs.Prelude.{◌≡◌, [], refl};
ghost use Rattle.std.specs.Cmp.{tied_itself};
ghost use Rattle.weighted.specs.WordLaws.{mapped};
ghost use Rattle.flow_core.specs.ChainLaws.{chain_answers};
ghost use Rattle.flow_core.specs.Functions.{mapped_linear};
ghost use Rattle.flow_core.specs.Linear.{linear_answers, linear_idle, paid_nothing};
ghost use Rattle.flow_core.specs.PartLaws.{parts_idle, parts_paid};
ghost use Rattle.flow_core.specs.Parts.{link_first, link_second, link_whole};
ghost use Rattle.flow_core.specs.Runs.{IsFresh};
ghost use Rattle.reduce_theory.specs.ByKey.{reduce_respects};
ghost use Rattle.diff_reduce.specs.StandsLaws.{stands_answers, stands_paid};
ghost use Rattle.diff_reduce.specs.StepLaws.{idle_stands};

use diff_reduce::{KeyLogic, Reduce};
use flow_core::{Chain, Each, Map, NoCalls, Operator};
use lattice_time::Time;
use surge_outside::{NoMemory, Record};
use weighted::Batch;

/// A reduce, and behind it a function on each record, as one operator. It charges what the reduce does.
#[derive(Drop)]
pub struct MappedReduce<G: KeyLogic<NoCalls>, E, M, T: Time> {
    chain: Chain<Reduce<G, T, NoCalls>, Map<E, (G::Key, G::Output), M, T, NoCalls>>,
}

impl<G: KeyLogic<NoCalls>, E: Each<(G::Key, G::Output), M>, M: Record, T: Time> MappedReduce<
    G,
    E,
    M,
    T,
> {
    /// The operator of two that were not stepped yet. It takes no memory.
    pub fn new(
        reduce: Reduce<G, T, NoCalls>,
        map: Map<E, (G::Key, G::Output), M, T, NoCalls>,
    ) -> MappedReduce<G, E, M, T>
        requires reduce { let it = ⟦<Reduce<G, T, NoCalls> as Operator<T, NoCalls>>⟧ in IsFresh it.stands it.due it.seal it.spent T.least reduce }
        requires map { let it = ⟦<Map<E, (G::Key, G::Output), M, T, NoCalls> as Operator<T, NoCalls>>⟧ in IsFresh it.stands it.due it.seal it.spent T.least map }
        ensures fresh { let it = ⟦<MappedReduce<G, E, M, T> as Operator<T, NoCalls>>⟧ in IsFresh it.stands it.due it.seal it.spent T.least result }
        ensures apply { ⟦<MappedReduce<G, E, M, T> as Operator<T, NoCalls>>⟧.apply result ≡ (λ xs. ⟦<Map<E, (G::Key, G::Output), M, T, NoCalls> as Operator<T, NoCalls>>⟧.apply map (⟦<Reduce<G, T, NoCalls> as Operator<T, NoCalls>>⟧.apply reduce xs)) }
    {
        MappedReduce {
            chain: Chain::new::<T, NoCalls>(reduce, map),
        }
    }
}

impl<G: KeyLogic<NoCalls>, E: Each<(G::Key, G::Output), M>, M: Record, T: Time> Operator<T, NoCalls>
    for MappedReduce<G, E, M, T> {
    type Input = (G::Key, G::Value);

    type Output = M;

    ghost stands = { λ s. ⟦<Chain<Reduce<G, T, NoCalls>, Map<E, (G::Key, G::Output), M, T, NoCalls>> as Operator<T, NoCalls>>⟧.stands s.chain };

    ghost due = { λ s. ⟦<Chain<Reduce<G, T, NoCalls>, Map<E, (G::Key, G::Output), M, T, NoCalls>> as Operator<T, NoCalls>>⟧.due s.chain };

    ghost seal = { λ s. ⟦<Chain<Reduce<G, T, NoCalls>, Map<E, (G::Key, G::Output), M, T, NoCalls>> as Operator<T, NoCalls>>⟧.seal s.chain };

    ghost apply = { λ s. ⟦<Chain<Reduce<G, T, NoCalls>, Map<E, (G::Key, G::Output), M, T, NoCalls>> as Operator<T, NoCalls>>⟧.apply s.chain };

    ghost kept = { λ s. ⟦<Chain<Reduce<G, T, NoCalls>, Map<E, (G::Key, G::Output), M, T, NoCalls>> as Operator<T, NoCalls>>⟧.apply s.chain };

    ghost charge = { λ s. ⟦<Chain<Reduce<G, T, NoCalls>, Map<E, (G::Key, G::Output), M, T, NoCalls>> as Operator<T, NoCalls>>⟧.charge s.chain };

    ghost spent = { λ s. ⟦<Chain<Reduce<G, T, NoCalls>, Map<E, (G::Key, G::Output), M, T, NoCalls>> as Operator<T, NoCalls>>⟧.spent s.chain };

    ghost answers = { λ s run h. let a = s.chain.first in let b = s.chain.second in let first = ⟦<Reduce<G, T, NoCalls> as Operator<T, NoCalls>>⟧ in let second = ⟦<Map<E, (G::Key, G::Output), M, T, NoCalls> as Operator<T, NoCalls>>⟧ in chain_answers T.leq T.lub T.lattice (first.apply a) (second.apply b) (mapped_linear (E.gives b.each)).respects (first.seal a) (second.seal b) (first.due a) (second.due b) (first.stands a) (second.stands b) (λ r k. stands_answers T.leq T.lub T.lattice T.cmp T.same (tied_itself T.total) G.Key.cmp G.Key.same (tied_itself G.Key.total) G.Value.cmp G.Value.total G.Value.same (G.gives a.logic) (G.nothing a.logic) (record { input = a.input.items; output = a.output.items; points = a.points; due = a.due; seal = a.sealed; charge = a.count }) r k) (linear_answers (mapped (E.gives b.each)) (mapped_linear (E.gives b.each)) T.leq T.lub b.sealed) run h.0 h.1 };

    ghost respects = { λ s xs ys h. let a = s.chain.first in let b = s.chain.second in (mapped_linear (E.gives b.each)).respects _ _ (reduce_respects G.Key.cmp G.Key.same (tied_itself G.Key.total) G.Value.cmp G.Value.total G.Value.same (G.gives a.logic) (G.nothing a.logic) xs ys h) };

    ghost idle = { λ s run t h above over below. let a = s.chain.first in let b = s.chain.second in let first = ⟦<Reduce<G, T, NoCalls> as Operator<T, NoCalls>>⟧ in let second = ⟦<Map<E, (G::Key, G::Output), M, T, NoCalls> as Operator<T, NoCalls>>⟧ in (parts_idle link_whole link_first link_second (λ _. refl) (λ _. refl) T.leq T.lub T.lattice (first.stands a) (second.stands b) (first.seal a) (second.seal b) (first.due a) (second.due b) run (record { time = t; fed = []; handed = []; made = []; first_charge = 0; second_charge = 0 }) (λ r u k later level none. idle_stands T.leq T.lub T.lattice T.cmp T.same (tied_itself T.total) G.Key.cmp G.Key.same (tied_itself G.Key.total) G.Value.cmp G.Value.total G.Value.same G.Output.cmp G.Output.total G.Output.same (G.gives a.logic) (G.nothing a.logic) (record { input = a.input.items; output = a.output.items; points = a.points; due = a.due; seal = a.sealed; charge = a.count }) r u k later level none) (λ r u k _ _ _. linear_idle (mapped (E.gives b.each)) (mapped_linear (E.gives b.each)) r u k) refl refl refl refl refl refl h.0 above over below, h.1) };

    ghost paid = { λ s run h. let a = s.chain.first in let b = s.chain.second in let first = ⟦<Reduce<G, T, NoCalls> as Operator<T, NoCalls>>⟧ in let second = ⟦<Map<E, (G::Key, G::Output), M, T, NoCalls> as Operator<T, NoCalls>>⟧ in parts_paid link_whole link_first link_second (λ _. refl) (λ _. refl) (first.stands a) (second.stands b) (first.charge a) (second.charge b) run (λ r k. stands_paid T.leq T.lub T.lattice T.cmp T.same (tied_itself T.total) G.Key.cmp G.Key.same (tied_itself G.Key.total) G.Value.cmp G.Value.total G.Value.same (G.gives a.logic) (G.nothing a.logic) (record { input = a.input.items; output = a.output.items; points = a.points; due = a.due; seal = a.sealed; charge = a.count }) r k) (λ r k. paid_nothing r.base k.1) h.0 };

    fn step(
        &mut self,
        t: T,
        delta: &Batch<(G::Key, G::Value)>,
        updater: &mut NoCalls,
    ) -> Result<Batch<M>, NoMemory> {
        self.chain.step(t, delta, updater)
    }

    fn next_due(&self) -> Option<T> {
        Operator::<T, NoCalls>::next_due(&self.chain)
    }

    fn seal(&mut self, f: T) -> Result<(), NoMemory> {
        Operator::<T, NoCalls>::seal(&mut self.chain, f)
    }

    fn is_spent(&self) -> bool {
        Operator::<T, NoCalls>::is_spent(&self.chain)
    }
}
