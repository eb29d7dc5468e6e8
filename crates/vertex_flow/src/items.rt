//! From what is in the loop to the items of each node.

ghost use Rattle.std.specs.Prelude.{◌≡◌};
ghost use Rattle.weighted.specs.Alike.{Alike-append};
ghost use Rattle.flow_core.specs.Runs.{IsFresh};
ghost use Rattle.flow_core.specs.Expanded.{expanded, expanded_linear};
ghost use Rattle.flow_core.specs.Routes.{routes_answers, routes_idle};
ghost use Rattle.diff_join.specs.Joins.{due_times, joined_sides};
ghost use Rattle.diff_join.specs.Standing.{StandsByProducts};
ghost use Rattle.diff_join.specs.PairLaws.{joined_respects};
ghost use Rattle.diff_join.specs.RunLaws.{join_answers, join_idle, join_paid};
ghost use Rattle.vertex_lang.specs.Leaves.{IsChecked};
ghost use Rattle.view_items.specs.Collections.{items, own_items, sends, sides};

use diff_join::Join;
use flow_core::{Bypass, NoCalls, Operator};
use graph_model::{Graph, NodeNo, Val};
use lattice_time::Time;
use std::alloc::Global;
use surge_outside::NoMemory;
use vertex_items::NodeItem;
use vertex_lang::{Arc, Program};
use vertex_parts::{InLoop, OwnItems, Sends, Sides};
use weighted::Batch;

/// What arcs bring from the values of their tails.
pub type Messages<'g, T> = Join<NodeNo, (Arc, u64), Val, Sends<'g>, T, NoCalls>;

/// The start and the value of each node go past the messages.
pub type Routed<'g, T> = Bypass<OwnItems, Sides, InLoop, Messages<'g, T>>;

/// The operator of all items, by node: what a node starts with, its value, and its messages. It charges nothing.
#[derive(Drop)]
pub struct Items<'g, T: Time> {
    routed: Routed<'g, T>,
}

/// The items of a program over a graph, against which it was checked. It takes no memory; its steps use `alloc`.
pub(crate) fn items_of<'g, T: Time>(
    alloc: Global,
    graph: &'g Graph,
    program: &'g Program,
) -> Items<'g, T>
    requires { IsChecked program.now graph.now }
    ensures fresh { let it = ⟦<Items<'g, T> as Operator<T, NoCalls>>⟧ in IsFresh it.stands it.due it.seal it.spent T.least result }
    ensures apply { ⟦<Items<'g, T> as Operator<T, NoCalls>>⟧.apply result ≡ items ⟦<NodeNo as Ord>⟧.cmp program.now graph.now }
{
    let messages: Messages<'g, T> = Join::new(alloc, Sends::new(graph, program));
    Items {
        routed: Bypass::new::<T, NoCalls>(alloc, OwnItems, Sides, messages),
    }
}

impl<'g, T: Time> Operator<T, NoCalls> for Items<'g, T> {
    type Input = InLoop;

    type Output = (NodeNo, NodeItem);

    ghost stands = { λ s. ⟦<Routed<'g, T> as Operator<T, NoCalls>>⟧.stands s.routed };

    ghost due = { λ s. ⟦<Routed<'g, T> as Operator<T, NoCalls>>⟧.due s.routed };

    ghost seal = { λ s. ⟦<Routed<'g, T> as Operator<T, NoCalls>>⟧.seal s.routed };

    ghost apply = { λ s. ⟦<Routed<'g, T> as Operator<T, NoCalls>>⟧.apply s.routed };

    ghost kept = { λ s. ⟦<Routed<'g, T> as Operator<T, NoCalls>>⟧.apply s.routed };

    ghost charge = { λ s. ⟦<Routed<'g, T> as Operator<T, NoCalls>>⟧.charge s.routed };

    ghost spent = { λ s. ⟦<Routed<'g, T> as Operator<T, NoCalls>>⟧.spent s.routed };

    ghost answers = { λ s run h. let join = s.routed.inner in let ncmp = ⟦<NodeNo as Ord>⟧.cmp in let gives = sends join.pairing.program.now join.pairing.graph.now in routes_answers (expanded own_items) (expanded sides) (expanded_linear own_items) (expanded_linear sides) T.leq T.lub (joined_sides ncmp gives) (joined_respects ncmp gives) join.sealed (due_times join.kept) (StandsByProducts T.leq T.lub (joined_sides ncmp gives) join.sealed join.left.items join.right.items join.kept) (λ r k. join_answers T.lattice ncmp gives join.sealed join.left.items join.right.items join.kept r k) run h };

    ghost respects = { λ s xs ys h. Alike-append ((expanded_linear own_items).respects xs ys h) (joined_respects ⟦<NodeNo as Ord>⟧.cmp (sends s.routed.inner.pairing.program.now s.routed.inner.pairing.graph.now) _ _ ((expanded_linear sides).respects xs ys h)) };

    ghost idle = { λ s run t h above over below. let join = s.routed.inner in let ncmp = ⟦<NodeNo as Ord>⟧.cmp in let gives = sends join.pairing.program.now join.pairing.graph.now in routes_idle (expanded own_items) (expanded sides) (expanded_linear own_items) (expanded_linear sides) T.leq (StandsByProducts T.leq T.lub (joined_sides ncmp gives) join.sealed join.left.items join.right.items join.kept) run t (λ q stands none. join_idle T.lattice ncmp gives join.sealed join.left.items join.right.items join.kept q t stands below) h above };

    ghost paid = { λ s run h. let join = s.routed.inner in join_paid T.lattice ⟦<NodeNo as Ord>⟧.cmp (sends join.pairing.program.now join.pairing.graph.now) join.sealed join.left.items join.right.items join.kept _ h.inner };

    fn step(
        &mut self,
        t: T,
        delta: &Batch<InLoop>,
        updater: &mut NoCalls,
    ) -> Result<Batch<(NodeNo, NodeItem)>, NoMemory> {
        self.routed.step(t, delta, updater)
    }

    fn next_due(&self) -> Option<T> {
        Operator::<T, NoCalls>::next_due(&self.routed)
    }

    fn seal(&mut self, f: T) -> Result<(), NoMemory> {
        Operator::<T, NoCalls>::seal(&mut self.routed, f)
    }

    fn is_spent(&self) -> bool {
        Operator::<T, NoCalls>::is_spent(&self.routed)
    }
}
