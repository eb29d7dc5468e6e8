//! A loop behind a quiet part, as one operator.

ghost use Rattle.std.specs.Prelude.{[], refl};
ghost use Rattle.flow_core.specs.ChainLaws.{chain_answers};
ghost use Rattle.flow_core.specs.PartLaws.{parts_idle, parts_paid};
ghost use Rattle.flow_core.specs.Parts.{link_first, link_second, link_whole};
ghost use Rattle.flow_core.specs.Quietly.{quiet_answers, quiet_idle, quiet_paid};
ghost use Rattle.loop_theory.specs.LoopLaws.{loop_respects, none_outer, seal_below};
ghost use Rattle.loop_theory.specs.RunLaws.{laps_answers};
ghost use Rattle.loop_theory.specs.Underway.{laps_idle};

use diff_iterate::Iterate;
use flow_core::{Chain, NoCalls, Operator, Quiet};
use graph_model::{NodeNo, Val};
use lattice_time::{Pair, Round, Time};
use surge_outside::{Counted, NoMemory};
use vertex_parts::InLoop;
use weighted::Batch;

/// A quiet part, and a loop over what it makes, as one operator: a bound that names it need not name the chain of the two.
#[derive(Drop)]
pub struct Looped<P, B: Operator<Pair<T, Round>, U>, T: Time, U: Counted> {
    pub(crate) flow: Chain<Quiet<P>, Iterate<B, T, U>>,
}

impl<
    T: Time,
    U: Counted,
    P: Operator<T, NoCalls, Output = InLoop>,
    B: Operator<Pair<T, Round>, U, Input = InLoop, Output = (NodeNo, Val)>,
> Operator<T, U> for Looped<P, B, T, U> {
    type Input = P::Input;

    type Output = (Round, (NodeNo, Val));

    ghost stands = { λ s. ⟦<Chain<Quiet<P>, Iterate<B, T, U>> as Operator<T, U>>⟧.stands s.flow };

    ghost due = { λ s. ⟦<Chain<Quiet<P>, Iterate<B, T, U>> as Operator<T, U>>⟧.due s.flow };

    ghost seal = { λ s. ⟦<Chain<Quiet<P>, Iterate<B, T, U>> as Operator<T, U>>⟧.seal s.flow };

    ghost apply = { λ s. ⟦<Chain<Quiet<P>, Iterate<B, T, U>> as Operator<T, U>>⟧.apply s.flow };

    ghost kept = { λ s. ⟦<Chain<Quiet<P>, Iterate<B, T, U>> as Operator<T, U>>⟧.apply s.flow };

    ghost charge = { λ s. ⟦<Chain<Quiet<P>, Iterate<B, T, U>> as Operator<T, U>>⟧.charge s.flow };

    ghost spent = { λ s. ⟦<Chain<Quiet<P>, Iterate<B, T, U>> as Operator<T, U>>⟧.spent s.flow };

    ghost answers = { λ s run h. let a = s.flow.first in let b = s.flow.second in let first = ⟦<Quiet<P> as Operator<T, U>>⟧ in let second = ⟦<Iterate<B, T, U> as Operator<T, U>>⟧ in chain_answers T.leq T.lub T.lattice (first.apply a) (second.apply b) (loop_respects (B.apply b.body) (B.respects b.body) b.rounds) (first.seal a) (second.seal b) (first.due a) (second.due b) (first.stands a) (second.stands b) (quiet_answers T.leq T.lub (P.apply a.inner) (P.seal a.inner) (P.due a.inner) (P.stands a.inner) (P.answers a.inner)) (λ r k. laps_answers T.leq T.lub (B.apply b.body) (B.respects b.body) (B.seal b.body) (B.due b.body) (B.stands b.body) (B.answers b.body) b.rounds r k.1 k.0) run h.0 h.1 };

    ghost respects = { λ s xs ys h. let b = s.flow.second in loop_respects (B.apply b.body) (B.respects b.body) b.rounds _ _ (P.respects s.flow.first.inner xs ys h) };

    ghost idle = { λ s run t h above over below. let a = s.flow.first in let b = s.flow.second in let first = ⟦<Quiet<P> as Operator<T, U>>⟧ in let second = ⟦<Iterate<B, T, U> as Operator<T, U>>⟧ in (parts_idle link_whole link_first link_second (λ _. refl) (λ _. refl) T.leq T.lub T.lattice (first.stands a) (second.stands b) (first.seal a) (second.seal b) (first.due a) (second.due b) run (record { time = t; fed = []; handed = []; made = []; first_charge = 0; second_charge = 0 }) (quiet_idle T.leq (P.seal a.inner) (P.due a.inner) (P.stands a.inner) (P.idle a.inner)) (λ r u k later level none. (laps_idle T.leq (B.stands b.body) b.rounds r u (λ n q w free. B.idle b.body q _ w free (seal_below T.leq (B.seal b.body) u n k.1 level) (none_outer T.leq u n (B.due b.body) none)) k.0 later, k.1)) refl refl refl refl refl refl h.0 above over below, h.1) };

    ghost paid = { λ s run h. let a = s.flow.first in let b = s.flow.second in let first = ⟦<Quiet<P> as Operator<T, U>>⟧ in let second = ⟦<Iterate<B, T, U> as Operator<T, U>>⟧ in parts_paid link_whole link_first link_second (λ _. refl) (λ _. refl) (first.stands a) (second.stands b) (first.charge a) (second.charge b) run (quiet_paid (P.stands a.inner)) (λ r k. B.paid b.body _ k.0.stands) h.0 };

    fn step(
        &mut self,
        t: T,
        delta: &Batch<P::Input>,
        updater: &mut U,
    ) -> Result<Batch<(Round, (NodeNo, Val))>, NoMemory> {
        self.flow.step(t, delta, updater)
    }

    fn next_due(&self) -> Option<T> {
        Operator::<T, U>::next_due(&self.flow)
    }

    fn seal(&mut self, f: T) -> Result<(), NoMemory> {
        self.flow.seal(f)
    }

    fn is_spent(&self) -> bool {
        Operator::<T, U>::is_spent(&self.flow)
    }
}
