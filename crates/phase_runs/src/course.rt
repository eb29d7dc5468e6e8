//! The phases on one view.

ghost use Rattle.std.specs.Prelude.{◌≡◌, ◌<◌, ◌≤◌, ◌+◌, ◌^◌, length, All, IfOk};
ghost use Rattle.vertex_lang.specs.Arcs.{IsArc};
ghost use Rattle.vertex_lang.specs.Leaves.{IsChecked};
ghost use Rattle.vertex_lang.specs.Phases.{starts_of};
ghost use Rattle.view_matrix.specs.Matrices.{IsView};
ghost use Rattle.phase_runs.specs.Courses.{IsCourse, Reaches, ReachesOn, most_calls};

use crate::changes::are_same;
use graph_model::{Graph, NodeNo, Val, ViewNo};
use std::alloc::Global;
use surge_outside::{List, NoMemory};
use vertex_lang::{Arc, Ended, Outcome, Program, Updater, arcs_of, rounds_run, start};
use view_matrix::Matrix;

/// What the views of a run in phases share.
#[derive(Clone, Copy)]
pub(crate) struct Course<'a> {
    pub(crate) program: &'a Program,
    pub(crate) graph: &'a Graph,
    pub(crate) matrix: &'a Matrix,
    /// The value with which each node starts.
    pub(crate) starts: &'a [Val],
    /// How many rounds a phase has.
    pub(crate) rounds: u32,
    /// How many phases there are.
    pub(crate) phases: u32,
}

/// What phases came to: how they ended, and the values at their end, or where they are unsettled those at the end of the
/// phase whose last round changed something.
#[derive(Debug, Drop)]
pub(crate) struct Reached {
    pub(crate) outcome: Outcome,
    pub(crate) values: List<Val>,
}

impl Course<'_> {
    // The phases over these arcs. It goes no further than the first phase whose last round changes something, or that ends
    // where it began: each later one would do the same.
    fn run_over<U: Updater>(
        &self,
        alloc: Global,
        arcs: &[Arc],
        updater: &mut U,
    ) -> Result<Reached, NoMemory>
        requires course { IsCourse self.now }
        requires arcs { All (IsArc self.now.graph.now) arcs.now }
        requires few { length arcs.now < 2 ^ 32 }
        ensures reached { IfOk result (Reaches U.answer self.now arcs.now) }
        ensures calls { U.calls updater.new ≤ U.calls updater.old + most_calls self.now }
    {
        let mut values = List::from_vec(Vec::from_slice(alloc, self.starts)?);
        for _phase in 0..self.phases {
            let Ended {
                values: next,
                quiet,
            } = rounds_run(
                alloc,
                self.program,
                self.graph,
                values.as_slice(),
                arcs,
                self.rounds,
                updater,
            )?;
            if !quiet {
                return Ok(Reached {
                    outcome: Outcome::Unsettled,
                    values: next,
                });
            }
            if are_same(next.as_slice(), values.as_slice()) {
                return Ok(Reached {
                    outcome: Outcome::Phases(self.phases),
                    values,
                });
            }
            values = next;
        }
        Ok(Reached {
            outcome: Outcome::Phases(self.phases),
            values,
        })
    }

    /// The phases on a view, over the arcs of its edges.
    pub(crate) fn run_on<U: Updater>(
        &self,
        alloc: Global,
        view: ViewNo,
        updater: &mut U,
    ) -> Result<Reached, NoMemory>
        requires course { IsCourse self.now }
        requires view { IsView self.now.matrix.now view }
        ensures reached { IfOk result (ReachesOn U.answer self.now view) }
        ensures calls { U.calls updater.new ≤ U.calls updater.old + most_calls self.now }
    {
        let edges = self.matrix.edges(alloc, view)?;
        let arcs = arcs_of(alloc, self.graph, self.program.along, edges.as_slice())?;
        self.run_over(alloc, arcs.as_slice(), updater)
    }
}

/// The value with which each node starts, by its number.
pub(crate) fn start_values(
    alloc: Global,
    program: &Program,
    graph: &Graph,
) -> Result<Vec<Val>, NoMemory>
    requires { IsChecked program.now graph.now }
    ensures { IfOk result (λ v. v.items ≡ starts_of program.now graph.now) }
{
    let count = graph.node_count();
    let mut values = Vec::with_capacity(alloc, count as usize)?;
    for node in 0..count {
        values.push(start(program, graph, NodeNo(node)))?;
    }
    Ok(values)
}
