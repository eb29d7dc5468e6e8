//! What a dataflow makes of views.

ghost use Rattle.std.specs.Prelude.{◌≤◌};
ghost use Rattle.vertex_lang.specs.Leaves.{IsChecked};
ghost use Rattle.flow_core.specs.Runs.{IsFresh};

use crate::tests::feeds::{Stand, feeds};
use crate::tests::plain::{Made, plain_made};
use flow_core::Operator;
use flow_rows::{Fed, Timed, driven, same, sum_to};
use graph_model::Graph;
use lattice_time::Time;
use std::alloc::Global;
use surge_outside::{List, NoMemory};
use vertex_flow::{VertexFlow, evaluations, vertex_flow};
use vertex_items::FlowInput;
use vertex_lang::{Program, Updater};

/// What a dataflow made, each entry with its time, and how many nodes it evaluated.
#[derive(Drop)]
pub(crate) struct Told<T: Time> {
    pub(crate) made: List<Timed<T, Made>>,
    pub(crate) evaluated: u64,
}

/// A dataflow that tells how many nodes it evaluated.
trait Counting {
    fn evaluated(&self) -> u64;
}

impl<'g, T: Time, U: Updater> Counting for VertexFlow<'g, T, U> {
    fn evaluated(&self) -> u64 {
        evaluations(self)
    }
}

/// What a new dataflow makes of what it is fed, sealed behind each step where that is asked, or None where its contract
/// doesn't allow a step.
fn counted<
    T: Time,
    U: Updater,
    O: Operator<T, U, Input = FlowInput, Output = Made> + Counting + Drop,
>(
    alloc: Global,
    flow: O,
    fed: &[Fed<T, FlowInput>],
    seals: bool,
    updater: &mut U,
) -> Result<Option<Told<T>>, NoMemory>
    requires { IsFresh O.stands O.due O.seal O.spent T.least flow }
{
    let mut flow = flow;
    let Some(made) = driven(alloc, &mut flow, fed, seals, updater)? else {
        return Ok(None);
    };
    let evaluated = flow.evaluated();
    Ok(Some(Told { made, evaluated }))
}

/// The same of the dataflow of a program.
fn told_of<T: Time, U: Updater>(
    alloc: Global,
    program: &Program,
    graph: &Graph,
    rounds: u32,
    fed: &[Fed<T, FlowInput>],
    seals: bool,
    updater: &mut U,
) -> Result<Option<Told<T>>, NoMemory>
    requires checked { IsChecked program.now graph.now }
    requires some { 1 ≤ rounds }
    requires limit { rounds ≤ 1_000_000 }
{
    let flow: VertexFlow<'_, T, U> = vertex_flow(alloc, graph, program, rounds);
    counted(alloc, flow, fed, seals, updater)
}

/// What it makes of views.
pub(crate) fn flow_through<T: Time, U: Updater>(
    alloc: Global,
    program: &Program,
    graph: &Graph,
    rounds: u32,
    views: &[Stand<T>],
    seals: bool,
    updater: &mut U,
) -> Result<Option<Told<T>>, NoMemory>
    requires checked { IsChecked program.now graph.now }
    requires some { 1 ≤ rounds }
    requires limit { rounds ≤ 1_000_000 }
{
    let fed = feeds(alloc, graph, program.along, views)?;
    told_of(
        alloc,
        program,
        graph,
        rounds,
        fed.as_slice(),
        seals,
        updater,
    )
}

/// Whether what was made up to the time of each view is the values of its plain run, after each round.
pub(crate) fn are_plain<T: Time, U: Updater>(
    alloc: Global,
    program: &Program,
    graph: &Graph,
    rounds: u32,
    views: &[Stand<T>],
    made: &List<Timed<T, Made>>,
    updater: &mut U,
) -> Result<bool, NoMemory>
    requires checked { IsChecked program.now graph.now }
    requires limit { rounds ≤ 1_000_000 }
{
    for (at, bits) in views {
        let sum = sum_to(alloc, made, *at)?;
        let plain = plain_made(alloc, program, graph, rounds, *bits, updater)?;
        if !same(&sum, &plain) {
            return Ok(false);
        }
    }
    Ok(true)
}
