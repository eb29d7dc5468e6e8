//! The values of both views, round by round.

ghost use Rattle.std.specs.Prelude.{◌≡◌, ◌<◌, true, false, ℕ, List, length, map, get_or, All, IfOk, IfSome};
ghost use Rattle.graph_model.specs.declared.value.Val.{Val};
ghost use Rattle.vertex_lang.specs.Leaves.{IsChecked};
ghost use Rattle.vertex_lang.specs.Expressions.{start_of};
ghost use Rattle.vertex_lang.specs.Rounds.{nodes_of};
ghost use Rattle.round_kernel.specs.Flags.{AreSet, IsParted};
ghost use Rattle.round_kernel.specs.Histories.{AreStarts};

use change_lists::{Change, is_other};
use graph_model::{Graph, NodeNo, Val};
use std::alloc::Global;
use std::rc::Rc;
use surge_outside::{List, NoMemory};
use vertex_lang::{Program, start};

/// The value with which each node starts, by its number.
pub(crate) fn start_values(
    alloc: Global,
    program: &Program,
    graph: &Graph,
) -> Result<Vec<Val>, NoMemory>
    requires { IsChecked program.now graph.now }
    ensures { IfOk result (λ v. v.items ≡ map (start_of program.now graph.now) (nodes_of graph.now)) }
{
    let count = graph.node_count();
    let mut values = Vec::with_capacity(alloc, count as usize)?;
    for node in 0..count {
        values.push(start(program, graph, NodeNo(node)))?;
    }
    Ok(values)
}

/// The values with which the nodes start, made where none are known.
pub(crate) fn known_starts(
    alloc: Global,
    program: &Program,
    graph: &Graph,
    known: &Option<Rc<List<Val>>>,
) -> Result<Rc<List<Val>>, NoMemory>
    requires checked { IsChecked program.now graph.now }
    requires known { IfSome known.now (λ s. AreStarts program.now graph.now s.value) }
    ensures { IfOk result (λ v. v.value ≡ map (start_of program.now graph.now) (nodes_of graph.now)) }
{
    if let Some(starts) = known {
        let shared = starts.clone()?;
        return Ok(shared);
    }
    let starts = List::from_vec(start_values(alloc, program, graph)?);
    match Rc::new(alloc, starts) {
        Ok(shared) => Ok(shared),
        Err(_) => Err(NoMemory),
    }
}

/// Tells of each touched node that changes whether its values in the two views differ.
pub(crate) fn part(
    parted: &mut [bool],
    touched: &[bool],
    old_now: &[Val],
    new_now: &[Val],
    changes: &[Change],
)
    requires within { All (λ c. c.node.0 < length touched.now) changes.now }
    requires size { length parted.old ≡ length touched.now }
    requires old_size { length old_now.now ≡ length touched.now }
    requires new_size { length new_now.now ≡ length touched.now }
    ensures { AreSet (IsParted touched.now old_now.now new_now.now) false changes.now parted.old parted.new }
{
    for change in changes {
        let place = change.node.0 as usize;
        if touched[place] {
            parted[place] = is_other(old_now[place], new_now[place]);
        }
    }
}

/// Tells of all nodes that their values in the two views may differ.
pub(crate) fn part_everyone(parted: &mut [bool])
    ensures size { length parted.new ≡ length parted.old }
    ensures all { (v : ℕ) → v < length parted.old → get_or parted.new v false ≡ true }
{
    parted.fill(true);
}
