//! The works of views one behind the other, counted by their definition.

ghost use Rattle.std.specs.Prelude.{◌≤◌};
ghost use Rattle.vertex_lang.specs.Leaves.{IsChecked};

use crate::tests::views::arcs_at;
use graph_model::Graph;
use lone_work::{count_first_work, count_work};
use std::alloc::Global;
use surge_outside::NoMemory;
use vertex_lang::{Program, Updater};

/// The work of a view behind another one or none.
fn work<U: Updater>(
    alloc: Global,
    program: &Program,
    graph: &Graph,
    rounds: u32,
    old: Option<u32>,
    new: u32,
    updater: &mut U,
) -> Result<u64, NoMemory>
    requires checked { IsChecked program.now graph.now }
    requires limit { rounds ≤ 1_000_000 }
{
    let after = arcs_at(alloc, graph, program.along, new)?;
    let after = after.as_slice();
    let Some(old) = old else {
        return count_first_work(alloc, program, graph, after, rounds, updater);
    };
    let before = arcs_at(alloc, graph, program.along, old)?;
    count_work(
        alloc,
        program,
        graph,
        after,
        before.as_slice(),
        rounds,
        updater,
    )
}

/// The sum of the works of views.
pub(crate) fn works<U: Updater>(
    alloc: Global,
    program: &Program,
    graph: &Graph,
    rounds: u32,
    views: &[u32],
    updater: &mut U,
) -> Result<u64, NoMemory>
    requires checked { IsChecked program.now graph.now }
    requires limit { rounds ≤ 1_000_000 }
{
    let mut total: u64 = 0;
    let mut old = None;
    for bits in views {
        let more = work(alloc, program, graph, rounds, old, *bits, updater)?;
        total = total.wrapping_add(more);
        old = Some(*bits);
    }
    Ok(total)
}
