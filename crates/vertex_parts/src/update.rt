//! The logic of the reduce that is keyed by node.

ghost use Rattle.std.specs.Prelude.{◌≡◌};
ghost use Rattle.vertex_lang.specs.Leaves.{IsChecked};
ghost use Rattle.vertex_items.specs.Given.{node_gives};
ghost use Rattle.vertex_items.specs.GivenLaws.{empty-gives};

use diff_reduce::KeyLogic;
use graph_model::{Graph, NodeNo, Val};
use std::alloc::Global;
use std::marker::PhantomData;
use surge_outside::{List, NoMemory};
use vertex_items::NodeItem;
use vertex_lang::{Program, Updater};
use vertex_update::evaluate;
use weighted::Weight;

/// What is made of a node whose items have some weights: its next value, once, where they are proper, and else nothing.
#[derive(Drop)]
pub struct Update<'g, U> {
    alloc: Global,
    graph: &'g Graph,
    program: &'g Program,
    of: PhantomData<U>,
    ghost checked: { IsChecked program.now graph.now },
}

impl<'g, U: Updater> Update<'g, U> {
    /// The logic of a program over a graph, against which it was checked. It takes no memory; its evaluations use
    /// `alloc`.
    pub fn new(alloc: Global, graph: &'g Graph, program: &'g Program) -> Update<'g, U>
        requires { IsChecked program.now graph.now }
        ensures gives { ⟦<Update<'g, U> as KeyLogic<U>>⟧.gives result ≡ node_gives U.answer program.now graph.now }
    {
        Update {
            alloc,
            graph,
            program,
            of: PhantomData,
        }
    }
}

impl<'g, U: Updater> KeyLogic<U> for Update<'g, U> {
    type Key = NodeNo;

    type Value = NodeItem;

    type Output = Val;

    ghost gives = { λ s. node_gives U.answer s.program.now s.graph.now };

    ghost nothing = { λ s. empty-gives U.answer s.program.now s.graph.now };

    fn eval(
        &self,
        key: NodeNo,
        words: &[(NodeItem, Weight)],
        into: &mut List<(Val, Weight)>,
        updater: &mut U,
    ) -> Result<(), NoMemory> {
        evaluate(
            self.alloc,
            self.program,
            self.graph,
            key,
            words,
            into,
            updater,
        )
    }
}
