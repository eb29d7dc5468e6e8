//! The same views where none comes behind: no history is kept, and all else is the same.

ghost use Rattle.std.specs.Prelude.{◌≡◌, ◌<◌, ◌≤◌, Some, length};
ghost use Rattle.vertex_lang.specs.Leaves.{IsChecked};
ghost use Rattle.vertex_lang.specs.Lone.{number_of};
ghost use Rattle.round_kernel.specs.Histories.{IsHistory};
ghost use Rattle.round_kernel.specs.Plans.{MayRun};
ghost use Rattle.arc_rows.specs.RowLists.{AreAlong};
ghost use Rattle.arc_rows.specs.Views.{arcs_in};

use crate::tests::steps::ended_text;
use crate::tests::views::{FOUR, WAYS, graph_in, turned};
use change_lists::History;
use graph_algos::hops;
use graph_model::Graph;
use round_kernel::{Behind, Ended, Kernel, Plan};
use std::alloc::{AllocError, Global};
use std::marker::Brand;
use std::sync::ledger::{Blank, Ledger};
use std::test::Fail;
use surge_outside::{NoMemory, Steps};
use vertex_lang::{Program, Rounds, Updater};

fn told(alloc: Global, ended: &Ended) -> Result<String, AllocError> {
    ended_text(alloc, ended.outcome, ended.work, ended.change.as_slice())
}

// The step of a view behind another one, behind which none comes.
fn last_step<U: Updater>(
    alloc: Global,
    plan: Plan<'_>,
    kernel: &mut Kernel,
    history: &History,
    old: &[bool],
    new: &[bool],
    updater: &mut U,
) -> Result<String, NoMemory>
    requires plan { MayRun plan kernel.old }
    requires along { AreAlong plan.program.now.along plan.graph.now kernel.old.rows }
    requires old { length old.now ≡ length plan.graph.now.ends }
    requires new { length new.now ≡ length plan.graph.now.ends }
    requires history { IsHistory U.answer plan.program.now plan.graph.now (Some (arcs_in kernel.old.rows.by_head old.now)) (number_of plan.rounds) history.now }
{
    let count = u64::from(plan.graph.edge_count());
    let turned = turned(alloc, old, new)?;
    let behind = Behind {
        history,
        old,
        new,
        turned: &turned,
    };
    let ended = kernel.last_step(alloc, plan, behind, count, updater)?;
    Ok(told(alloc, &ended)?)
}

// Two texts in one.
fn joined(first: String, second: &str) -> Result<String, NoMemory> {
    let mut text = first;
    text.push_str(second)?;
    Ok(text)
}

// The step of the first view alone, and that of the second one behind it.
fn steps<U: Updater>(
    alloc: Global,
    program: &Program,
    graph: &Graph,
    old: &[bool],
    new: &[bool],
    rounds: Rounds,
    updater: &mut U,
) -> Result<String, NoMemory>
    requires checked { IsChecked program.now graph.now }
    requires old { length old.now ≡ length graph.now.ends }
    requires new { length new.now ≡ length graph.now.ends }
    requires some { 1 ≤ number_of rounds }
    requires limit { number_of rounds ≤ 1_000_000 }
{
    let mut kernel = Kernel::new(alloc, graph, program.along)?;
    let plan = Plan {
        program,
        graph,
        rounds,
    };
    let count = u64::from(graph.edge_count());
    let only = kernel.only_step(alloc, plan, old, count, updater)?;
    let alone = told(alloc, &only)?;
    let stepped = kernel.first_step(alloc, plan, old, count, updater)?;
    let history = &stepped.history;
    let last = last_step(alloc, plan, &mut kernel, history, old, new, updater)?;
    joined(alone, last.as_str())
}

// Hop counts from the node 1, where the views are of the graph.
fn counted<L: Ledger>(
    alloc: Global,
    graph: &Graph,
    old: &[bool],
    new: &[bool],
    rounds: Rounds,
    blank: Blank,
) -> Result<String, NoMemory>
    requires at_least { 1 ≤ number_of rounds }
    requires limit { number_of rounds ≤ 1_000_000 }
    requires name { blank.name ≡ L.name }
    requires parts { blank.parts ≡ L.parts }
    requires some { 0 < L.parts }
{
    let edges = graph.edge_count() as usize;
    if old.len() != edges || new.len() != edges {
        return Ok(String::new(alloc));
    }
    let mut updater = Steps::<L>::new(blank);
    let program = hops(alloc, 1)?;
    steps(alloc, &program, graph, old, new, rounds, &mut updater)
}

// The same of four nodes.
fn on_four(alloc: Global, old: &[bool], new: &[bool], rounds: Rounds) -> Result<String, Fail>
    requires at_least { 1 ≤ number_of rounds }
    requires limit { number_of rounds ≤ 1_000_000 }
{
    let graph = graph_in(alloc, FOUR, WAYS)?;
    let text = counted::<Brand>(alloc, &graph, old, new, rounds, Blank::new(1))?;
    Ok(text)
}

#[test]
fn no_history_is_kept(rt: HostRuntime) -> Result<(), Fail> {
    let old = [true, true, true, false];
    let new = [false, false, true, true];
    let text = on_four(rt.alloc(), &old, &new, Rounds::Within(3))?;
    assert_eq!(rt;
        text.as_str(),
        "Settled(1) work 6: 0:0 1:1 2:1 3:-\nSettled(2) work 5: 1:- 3:2\n"
    );
    let same = on_four(rt.alloc(), &old, &old, Rounds::Within(3))?;
    assert_eq!(rt;
        same.as_str(),
        "Settled(1) work 6: 0:0 1:1 2:1 3:-\nSettled(1) work 0:\n"
    );
    let short = on_four(rt.alloc(), &old, &old, Rounds::Within(1))?;
    assert_eq!(rt;
        short.as_str(),
        "Unsettled work 4: 0:0 1:1 2:1 3:-\nUnsettled work 0:\n"
    );
    Ok(())
}
