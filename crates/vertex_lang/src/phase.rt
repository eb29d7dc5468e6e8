//! A run that begins with given values, as each phase of a run in phases does.

ghost use Rattle.std.specs.Prelude.{◌≡◌, ◌<◌, ◌≤◌, ◌+◌, ◌*◌, ◌^◌, ◌⊎◌, length, All, Contains, IfOk, OnErr, MatchBool};
ghost use Rattle.vertex_lang.specs.Values.{lowest, lowest_number};
ghost use Rattle.vertex_lang.specs.Leaves.{HoldsNumber, IsChecked};
ghost use Rattle.vertex_lang.specs.Arcs.{IsArc};
ghost use Rattle.vertex_lang.specs.Phases.{rounds_from, rounds_gone, IsQuiet};
ghost use Rattle.vertex_lang.specs.Phasing.{tells_quiet};

use crate::arc::Arc;
use crate::lone::Outcome;
use crate::program::Program;
use crate::setting::{Lists, Setting};
use crate::updater::Updater;
use crate::words::cells_are_proper;
use graph_model::{Graph, Val};
use std::alloc::Global;
use surge_outside::{List, NoMemory};

/// Where a number of rounds ended: the value of each node by its number, and whether the last of the rounds changed nothing
/// (true where there was none).
#[derive(Debug, Drop)]
pub struct Ended {
    pub values: List<Val>,
    pub quiet: bool,
}

/// Runs a program for so many rounds over these arcs, where each node starts with its value in this list, by its number:
/// these values are the first, and the start that an update names. All nodes change together. It goes no further than the
/// first round that changes nothing, since the values stay then, so it costs the arcs and nodes once for each round until
/// then. The updater is called once for each node in each round, also in that last one. The error is want of memory, before
/// the first round, and then the updater was not called. A value is the number -(2^63) only where the program or one of the
/// starts is or holds that number. (An inner loop that begins again with the values of the one before: McSherry, Murray,
/// Isaacs and Isard 2013.)
pub fn rounds_run<U: Updater>(
    alloc: Global,
    program: &Program,
    graph: &Graph,
    starts: &[Val],
    arcs: &[Arc],
    rounds: u32,
    updater: &mut U,
) -> Result<Ended, NoMemory>
    requires checked { IsChecked program.now graph.now }
    requires starts { length starts.now ≡ length graph.now.ids }
    requires arcs { All (IsArc graph.now) arcs.now }
    requires few { length arcs.now < 2 ^ 32 }
    ensures values { IfOk result (λ e. e.values ≡ rounds_from U.answer program.now graph.now starts.now arcs.now rounds) }
    ensures quiet { IfOk result (λ e. MatchBool e.quiet (IsQuiet U.answer program.now graph.now starts.now arcs.now rounds) (IsQuiet U.answer program.now graph.now starts.now arcs.now rounds → ⊥)) }
    ensures size { IfOk result (λ e. length e.values ≡ length graph.now.ids) }
    ensures lowest { IfOk result (λ e. Contains e.values lowest → HoldsNumber program.now lowest_number ⊎ Contains starts.now lowest) }
    ensures calls { IfOk result (λ e. U.calls updater.new ≡ U.calls updater.old + length graph.now.ids * rounds_gone U.answer program.now graph.now starts.now arcs.now rounds) }
    ensures few_rounds { IfOk result (λ _. rounds_gone U.answer program.now graph.now starts.now arcs.now rounds ≤ rounds) }
    ensures refused { OnErr result (U.calls updater.new ≡ U.calls updater.old) }
{
    cells_are_proper(graph);
    let setting = Setting::new(alloc, program, graph, arcs, starts)?;
    let mut lists = Lists::new(alloc, &setting)?;
    let outcome = setting.run_within(rounds, &mut lists, updater);
    Ok(Ended {
        values: List::from_vec(lists.values),
        quiet: is_quiet(outcome, rounds),
    })
}

// Whether the last of at most so many rounds changed nothing, where the run stopped at the first such round.
fn is_quiet(outcome: Outcome, rounds: u32) -> bool
    ensures { result ≡ tells_quiet outcome rounds }
{
    match outcome {
        Outcome::Unsettled => rounds == 0,
        _ => true,
    }
}
