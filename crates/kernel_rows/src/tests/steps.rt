//! Two views, stepped one behind the other.

ghost use Rattle.std.specs.Prelude.{◌≡◌, ◌<◌, ◌≤◌, Some, length};
ghost use Rattle.vertex_lang.specs.Leaves.{IsChecked};
ghost use Rattle.vertex_lang.specs.Lone.{number_of};
ghost use Rattle.round_kernel.specs.Histories.{IsHistory};
ghost use Rattle.round_kernel.specs.Plans.{MayRun};
ghost use Rattle.arc_rows.specs.RowLists.{AreAlong};
ghost use Rattle.arc_rows.specs.Views.{arcs_in};

use crate::tests::views::{EDGE, FOUR, TWO, WAYS, graph_in, turned};
use change_lists::{Change, History};
use graph_algos::hops;
use graph_model::{Graph, Val};
use round_kernel::{Behind, Kernel, Plan, Stepped};
use std::alloc::{AllocError, Global};
use std::marker::Brand;
use std::sync::ledger::{Blank, Ledger};
use std::test::Fail;
use surge_outside::{Counted, NoMemory, Steps};
use vertex_lang::{Outcome, Program, Rounds, Updater};

// Answers what was gathered, and counts its calls.
#[derive(Drop)]
struct Gatherer<L: Ledger> {
    calls: Steps<L>,
}

impl<L: Ledger> Counted for Gatherer<L> {
    ghost calls = { λ gatherer. gatherer.calls };
}

impl<L: Ledger> Updater for Gatherer<L> {
    ghost use Rattle.std.proofs.Common.{inr};

    ghost answer = { λ program id start value gathered count. gathered };

    fn update(
        &mut self,
        _program: &Program,
        _id: u64,
        _start: Val,
        _value: Val,
        gathered: Val,
        _count: u64,
    ) -> Val {
        self.calls.tick();
        gathered
    }

    ghost lowest_was_given = { λ program id start value gathered count is. inr (inr (inr is)) };
}

fn change_text(alloc: Global, change: Change) -> Result<String, AllocError> {
    match change.value {
        Val::Nil => format!(in alloc; " {}:-", change.node.0),
        Val::Num(number) => format!(in alloc; " {}:{number}", change.node.0),
    }
}

/// How a view ended, its work, and each node whose value differs, with its value.
pub(crate) fn ended_text(
    alloc: Global,
    outcome: Outcome,
    work: u64,
    changes: &[Change],
) -> Result<String, AllocError> {
    let mut text = format!(in alloc; "{outcome:?} work {work}:")?;
    for change in changes {
        text.push_str(change_text(alloc, *change)?.as_str())?;
    }
    text.push_str("\n")?;
    Ok(text)
}

fn told(alloc: Global, stepped: &Stepped) -> Result<String, AllocError> {
    ended_text(
        alloc,
        stepped.outcome,
        stepped.work,
        stepped.change.as_slice(),
    )
}

// The step of a view behind another one.
fn later_step<U: Updater>(
    alloc: Global,
    plan: Plan<'_>,
    kernel: &mut Kernel,
    history: &History,
    old: &[bool],
    new: &[bool],
    updater: &mut U,
) -> Result<String, NoMemory>
    requires plan { MayRun plan kernel.old }
    requires along { AreAlong plan.program.now.along plan.graph.now kernel.old.rows }
    requires old { length old.now ≡ length plan.graph.now.ends }
    requires new { length new.now ≡ length plan.graph.now.ends }
    requires history { IsHistory U.answer plan.program.now plan.graph.now (Some (arcs_in kernel.old.rows.by_head old.now)) (number_of plan.rounds) history.now }
{
    let count = u64::from(plan.graph.edge_count());
    let turned = turned(alloc, old, new)?;
    let behind = Behind {
        history,
        old,
        new,
        turned: &turned,
    };
    let stepped = kernel.next_step(alloc, plan, behind, count, updater)?;
    Ok(told(alloc, &stepped)?)
}

// The step of a view, and what is told of that behind it.
fn joined(alloc: Global, stepped: &Stepped, later: &str) -> Result<String, NoMemory> {
    let mut text = told(alloc, stepped)?;
    text.push_str(later)?;
    Ok(text)
}

// The steps of two views, one behind the other.
fn steps<U: Updater>(
    alloc: Global,
    program: &Program,
    graph: &Graph,
    old: &[bool],
    new: &[bool],
    rounds: Rounds,
    updater: &mut U,
) -> Result<String, NoMemory>
    requires checked { IsChecked program.now graph.now }
    requires old { length old.now ≡ length graph.now.ends }
    requires new { length new.now ≡ length graph.now.ends }
    requires some { 1 ≤ number_of rounds }
    requires limit { number_of rounds ≤ 1_000_000 }
{
    let mut kernel = Kernel::new(alloc, graph, program.along)?;
    let plan = Plan {
        program,
        graph,
        rounds,
    };
    let count = u64::from(graph.edge_count());
    let stepped = kernel.first_step(alloc, plan, old, count, updater)?;
    let history = &stepped.history;
    let later = later_step(alloc, plan, &mut kernel, history, old, new, updater)?;
    joined(alloc, &stepped, later.as_str())
}

// Two steps of hop counts from the node 1, where the views are of the graph.
fn hop_steps<U: Updater>(
    alloc: Global,
    graph: &Graph,
    old: &[bool],
    new: &[bool],
    rounds: Rounds,
    updater: &mut U,
) -> Result<String, NoMemory>
    requires some { 1 ≤ number_of rounds }
    requires limit { number_of rounds ≤ 1_000_000 }
{
    let edges = graph.edge_count() as usize;
    if old.len() != edges || new.len() != edges {
        return Ok(String::new(alloc));
    }
    let program = hops(alloc, 1)?;
    steps(alloc, &program, graph, old, new, rounds, updater)
}

fn counted<L: Ledger>(
    alloc: Global,
    graph: &Graph,
    old: &[bool],
    new: &[bool],
    rounds: Rounds,
    blank: Blank,
) -> Result<String, NoMemory>
    requires at_least { 1 ≤ number_of rounds }
    requires limit { number_of rounds ≤ 1_000_000 }
    requires name { blank.name ≡ L.name }
    requires parts { blank.parts ≡ L.parts }
    requires some { 0 < L.parts }
{
    let mut updater = Steps::<L>::new(blank);
    hop_steps(alloc, graph, old, new, rounds, &mut updater)
}

fn gathered<L: Ledger>(
    alloc: Global,
    graph: &Graph,
    old: &[bool],
    new: &[bool],
    rounds: Rounds,
    blank: Blank,
) -> Result<String, NoMemory>
    requires at_least { 1 ≤ number_of rounds }
    requires limit { number_of rounds ≤ 1_000_000 }
    requires name { blank.name ≡ L.name }
    requires parts { blank.parts ≡ L.parts }
    requires some { 0 < L.parts }
{
    let mut updater = Gatherer {
        calls: Steps::<L>::new(blank),
    };
    hop_steps(alloc, graph, old, new, rounds, &mut updater)
}

#[test]
fn edges_come_and_go(rt: HostRuntime) -> Result<(), Fail> {
    let graph = graph_in(rt.alloc(), FOUR, WAYS)?;
    let old = [true, true, true, false];
    let new = [false, false, true, true];
    let rounds = Rounds::Within(3);
    let text = counted::<Brand>(rt.alloc(), &graph, &old, &new, rounds, Blank::new(1))?;
    assert_eq!(rt;
        text.as_str(),
        "Settled(1) work 6: 0:0 1:1 2:1 3:-\nSettled(2) work 5: 1:- 3:2\n"
    );
    Ok(())
}

#[test]
fn the_same_edges_cost_nothing(rt: HostRuntime) -> Result<(), Fail> {
    let graph = graph_in(rt.alloc(), FOUR, WAYS)?;
    let edges = [true, true, true, false];
    let rounds = Rounds::Within(3);
    let text = counted::<Brand>(rt.alloc(), &graph, &edges, &edges, rounds, Blank::new(1))?;
    assert_eq!(rt;
        text.as_str(),
        "Settled(1) work 6: 0:0 1:1 2:1 3:-\nSettled(1) work 0:\n"
    );
    Ok(())
}

#[test]
fn another_updater(rt: HostRuntime) -> Result<(), Fail> {
    let graph = graph_in(rt.alloc(), TWO, EDGE)?;
    let rounds = Rounds::Within(4);
    let text = gathered::<Brand>(rt.alloc(), &graph, &[true], &[false], rounds, Blank::new(1))?;
    assert_eq!(rt;
        text.as_str(),
        "Settled(2) work 5: 0:- 1:-\nSettled(1) work 3:\n"
    );
    Ok(())
}
