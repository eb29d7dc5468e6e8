//! A view that hardly differs from the one before shares its long lists, and has the history that it has alone.

ghost use Rattle.std.specs.Prelude.{◌≡◌, ◌<◌, Some, length};
ghost use Rattle.vertex_lang.specs.Leaves.{IsChecked};
ghost use Rattle.vertex_lang.specs.Lone.{number_of};
ghost use Rattle.round_kernel.specs.Histories.{IsHistory};
ghost use Rattle.round_kernel.specs.Plans.{MayRun};
ghost use Rattle.arc_rows.specs.RowLists.{AreAlong};
ghost use Rattle.arc_rows.specs.Views.{arcs_in};

use crate::tests::views::{graph_in, turned};
use change_lists::{ChainedLists, History};
use graph_algos::hops;
use graph_model::Graph;
use round_kernel::{Behind, Kernel, Plan, Stepped};
use std::alloc::{AllocError, Global};
use std::marker::Brand;
use std::rc::Rc;
use std::sync::ledger::{Blank, Ledger};
use std::test::Fail;
use surge_outside::{NoMemory, Steps};
use vertex_lang::{Program, Rounds, Updater};

// Some more than may stand in a short list.
const NODES: usize = 1_200;

// So many nodes, with an edge from the first to each other one in their order, and one from the second to the third.
fn star(alloc: Global) -> Result<Graph, Fail> {
    let mut nodes = String::from_str(alloc, "id\n1\n")?;
    let mut edges = String::from_str(alloc, "src,dst\n")?;
    for node in 2..NODES + 1 {
        nodes.push_str(format!(in alloc; "{node}\n")?.as_str())?;
        edges.push_str(format!(in alloc; "1,{node}\n")?.as_str())?;
    }
    edges.push_str("2,3\n")?;
    graph_in(alloc, nodes.as_bytes(), edges.as_bytes())
}

// Whether each item of the one list is in the other.
fn are_within<T: PartialEq>(items: &[T], others: &[T]) -> bool {
    for item in items {
        if !others.contains(item) {
            return false;
        }
    }
    true
}

// Whether the lists at this place are one in memory.
fn share<T: Copy + Drop>(
    left: &ChainedLists<T>,
    right: &ChainedLists<T>,
    place: usize,
) -> Result<bool, NoMemory> {
    if let Some(list) = left.shared_at(place)? {
        if let Some(other) = right.shared_at(place)? {
            return Ok(Rc::ptr_eq(&list, &other));
        }
    }
    Ok(false)
}

// Of each of the first two lists, whether it has the same items in both, in any order, and whether it is one in memory with that of
// the view before.
fn compared<T: Copy + Drop + PartialEq>(
    alloc: Global,
    left: &ChainedLists<T>,
    right: &ChainedLists<T>,
    before: &ChainedLists<T>,
) -> Result<String, NoMemory> {
    let mut text = String::new(alloc);
    for place in 0..2usize {
        let same = are_within(left.at(place), right.at(place))
            && are_within(right.at(place), left.at(place));
        let shared = share(left, before, place)?;
        text.push_str(format!(in alloc; " {same} {shared}")?.as_str())?;
    }
    Ok(text)
}

// The step of a view behind another one.
fn later_step<U: Updater>(
    alloc: Global,
    plan: Plan<'_>,
    kernel: &mut Kernel,
    history: &History,
    old: &[bool],
    new: &[bool],
    updater: &mut U,
) -> Result<Stepped, NoMemory>
    requires plan { MayRun plan kernel.old }
    requires along { AreAlong plan.program.now.along plan.graph.now kernel.old.rows }
    requires old { length old.now ≡ length plan.graph.now.ends }
    requires new { length new.now ≡ length plan.graph.now.ends }
    requires history { IsHistory U.answer plan.program.now plan.graph.now (Some (arcs_in kernel.old.rows.by_head old.now)) (number_of plan.rounds) history.now }
{
    let count = u64::from(plan.graph.edge_count());
    let turned = turned(alloc, old, new)?;
    let behind = Behind {
        history,
        old,
        new,
        turned: &turned,
    };
    kernel.next_step(alloc, plan, behind, count, updater)
}

// The work of a step behind another view, how many values differ by it, and how its history compares with that of the view alone and
// shares memory with that of the view before.
fn steps<U: Updater>(
    alloc: Global,
    program: &Program,
    graph: &Graph,
    old: &[bool],
    new: &[bool],
    updater: &mut U,
) -> Result<String, NoMemory>
    requires checked { IsChecked program.now graph.now }
    requires old { length old.now ≡ length graph.now.ends }
    requires new { length new.now ≡ length graph.now.ends }
{
    let mut kernel = Kernel::new(alloc, graph, program.along)?;
    let plan = Plan {
        program,
        graph,
        rounds: Rounds::Within(3),
    };
    let count = u64::from(graph.edge_count());
    let alone = kernel.first_step(alloc, plan, new, count, updater)?;
    let before = kernel.first_step(alloc, plan, old, count, updater)?;
    let history = &before.history;
    let later = later_step(alloc, plan, &mut kernel, history, old, new, updater)?;
    told(alloc, &later, &alone.history, history)
}

// The same as a text.
fn told(
    alloc: Global,
    later: &Stepped,
    alone: &History,
    before: &History,
) -> Result<String, NoMemory> {
    let changes = compared(
        alloc,
        &later.history.changes,
        &alone.changes,
        &before.changes,
    )?;
    let marks = compared(alloc, &later.history.marks, &alone.marks, &before.marks)?;
    let differ = later.change.len();
    Ok(format!(in alloc;
        "work {} differ {differ} changes{changes} marks{marks}",
        later.work
    )?)
}

// Two steps of hop counts from the node 1, where the views are of the graph.
fn hop_steps<L: Ledger>(
    alloc: Global,
    graph: &Graph,
    old: &[bool],
    new: &[bool],
    blank: Blank,
) -> Result<String, NoMemory>
    requires name { blank.name ≡ L.name }
    requires parts { blank.parts ≡ L.parts }
    requires some { 0 < L.parts }
{
    let edges = graph.edge_count() as usize;
    if old.len() != edges || new.len() != edges {
        return Ok(String::new(alloc));
    }
    let program = hops(alloc, 1)?;
    let mut updater = Steps::<L>::new(blank);
    steps(alloc, &program, graph, old, new, &mut updater)
}

// All edges of the star but this one.
fn without(alloc: Global, gone: usize) -> Result<Vec<bool>, AllocError> {
    let mut edges = vec![in alloc; true; NODES]?;
    if gone < NODES {
        edges[gone] = false;
    }
    Ok(edges)
}

#[test]
fn a_round_that_stays_is_shared(rt: HostRuntime) -> Result<(), Fail> {
    let graph = star(rt.alloc())?;
    let old = without(rt.alloc(), NODES - 1)?;
    let new = without(rt.alloc(), NODES)?;
    let text = hop_steps::<Brand>(rt.alloc(), &graph, &old, &new, Blank::new(1))?;
    assert_eq!(rt;
        text.as_str(),
        "work 1 differ 0 changes true true true false marks true true true false"
    );
    Ok(())
}

#[test]
fn a_round_that_differs_is_not(rt: HostRuntime) -> Result<(), Fail> {
    let graph = star(rt.alloc())?;
    let old = without(rt.alloc(), NODES)?;
    let new = without(rt.alloc(), NODES - 2)?;
    let text = hop_steps::<Brand>(rt.alloc(), &graph, &old, &new, Blank::new(1))?;
    assert_eq!(rt;
        text.as_str(),
        "work 2 differ 1 changes true false true false marks true false true false"
    );
    Ok(())
}
