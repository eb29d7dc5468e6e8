//! The ends of edges. The ids of many are read first, and then looked up one after the other: so the processor fetches
//! several places of the table at a time.

ghost use Rattle.std.specs.Prelude.{◌≡◌, ◌+◌, ◌≤◌, ◌<◌, Some, [], length, IfErr, IfOk, OnOk};
ghost use Rattle.csv.specs.Records.{fields_of};
ghost use Rattle.graph_loader.specs.Answers.{Answers, IfFault, Tells, TellsBut, TellsFault};
ghost use Rattle.graph_loader.specs.DataFiles.{blame, earlier_of, end_fault, end_named, ends_of_row, result_map_err};
ghost use Rattle.graph_loader.specs.LoadSteps.{IsTableOf, ends_so_far, pair_ends, pair_fault, pair_of_row, pairs_fault};

use crate::fault::{DataFile, DataKind, LoadFault, Refusal};
use crate::fields::field;
use crate::places::{NodeIndex, place_of};
use crate::spelling::id_from;
use csv::ByteRecord;
use graph_model::NodeNo;
use surge_outside::List;

/// The ends of so many edges wait at most, to be looked up together.
const MOST_WAITING: usize = 512;

/// Looks up the ends of the edges of a file that wait, where they are many.
pub(crate) fn make_room(
    file: DataFile,
    nodes: &NodeIndex<'_>,
    ends: &mut List<(NodeNo, NodeNo)>,
    waiting: &mut List<(u64, u64)>,
) -> Result<(), LoadFault>
    requires few_nodes { length nodes.now.ids.now.keys ≤ 1_000_000 }
    requires table { IsTableOf nodes.now.ids.now.keys nodes.now.places.now }
    requires few_edges { length ends.old + length waiting.old ≤ 4_000_000 }
    ensures told { IfErr result (λ e. IfFault e (λ f. pairs_fault file nodes.now.ids.now.keys (length ends.old) waiting.old ≡ Some f)) }
    ensures waits { OnOk result (pairs_fault file nodes.now.ids.now.keys (length ends.new) waiting.new ≡ pairs_fault file nodes.now.ids.now.keys (length ends.old) waiting.old) }
    ensures ends { OnOk result (ends_so_far nodes.now.ids.now.keys ends.new waiting.new ≡ ends_so_far nodes.now.ids.now.keys ends.old waiting.old) }
    ensures count { OnOk result (length ends.new + length waiting.new ≡ length ends.old + length waiting.old) }
{
    if waiting.len() >= MOST_WAITING {
        link(file, nodes, ends, waiting)
    } else {
        Ok(())
    }
}

/// Looks up the ends of the edges of a file that wait, and adds them to those of its earlier edges.
pub(crate) fn link(
    file: DataFile,
    nodes: &NodeIndex<'_>,
    ends: &mut List<(NodeNo, NodeNo)>,
    waiting: &mut List<(u64, u64)>,
) -> Result<(), LoadFault>
    requires few_nodes { length nodes.now.ids.now.keys ≤ 1_000_000 }
    requires table { IsTableOf nodes.now.ids.now.keys nodes.now.places.now }
    requires few_edges { length ends.old + length waiting.old ≤ 4_000_000 }
    ensures told { TellsFault (pairs_fault file nodes.now.ids.now.keys (length ends.old) waiting.old) result }
    ensures ends { OnOk result (ends.new ≡ ends_so_far nodes.now.ids.now.keys ends.old waiting.old) }
    ensures none { OnOk result (waiting.new ≡ []) }
{
    for pair in waiting.as_slice() {
        let number = ends.len() as u32 + 2;
        match ends_with(nodes, *pair) {
            Ok(between) => ends.push(between)?,
            Err(refusal) => return Err(refusal.of_record(file, number)),
        }
    }
    waiting.clear();
    Ok(())
}

/// The nodes that have these two ids, or which id no node has.
#[inline(always)]
pub(crate) fn ends_with(
    nodes: &NodeIndex<'_>,
    pair: (u64, u64),
) -> Result<(NodeNo, NodeNo), Refusal>
    requires few_nodes { length nodes.now.ids.now.keys ≤ 1_000_000 }
    requires table { IsTableOf nodes.now.ids.now.keys nodes.now.places.now }
    ensures told { Tells (pair_fault nodes.now.ids.now.keys pair) result }
    ensures ends { IfOk result (λ e. e ≡ pair_ends nodes.now.ids.now.keys pair) }
{
    let (source_id, destination_id) = pair;
    let source = end_with(nodes, source_id, 1)?;
    let destination = end_with(nodes, destination_id, 2)?;
    Ok((source, destination))
}

/// The node that has this id, which stands in this column of its record.
#[inline(always)]
fn end_with(nodes: &NodeIndex<'_>, id: u64, column: u32) -> Result<NodeNo, Refusal>
    requires few_nodes { length nodes.now.ids.now.keys ≤ 1_000_000 }
    requires table { IsTableOf nodes.now.ids.now.keys nodes.now.places.now }
    ensures { Answers (result_map_err (blame column) (end_named nodes.now.ids.now.keys (Some id))) result }
{
    match place_of(nodes, id) {
        Some(place) => Ok(NodeNo(place)),
        None => Err(Refusal::blame(column, DataKind::UnknownNode)),
    }
}

/// The ids of the source and of the destination of a record's edge. Where one is no id, the first thing that is wrong with
/// an end is told.
pub(crate) fn pair_from(nodes: &NodeIndex<'_>, row: &ByteRecord) -> Result<(u64, u64), Refusal>
    requires few_nodes { length nodes.now.ids.now.keys ≤ 1_000_000 }
    requires table { IsTableOf nodes.now.ids.now.keys nodes.now.places.now }
    requires width { 2 ≤ length (fields_of row.now) }
    ensures told { TellsBut (pair_fault nodes.now.ids.now.keys (pair_of_row (fields_of row.now))) (earlier_of (end_fault nodes.now.ids.now.keys (fields_of row.now) 0) (end_fault nodes.now.ids.now.keys (fields_of row.now) 1)) result }
    ensures pair { IfOk result (λ p. p ≡ pair_of_row (fields_of row.now)) }
    ensures ends { OnOk result (pair_ends nodes.now.ids.now.keys (pair_of_row (fields_of row.now)) ≡ ends_of_row nodes.now.ids.now.keys (fields_of row.now)) }
{
    let Some(source_id) = id_from(field(row, 0)) else {
        return Err(Refusal::blame(1, DataKind::BadId));
    };
    let Some(destination_id) = id_from(field(row, 1)) else {
        end_with(nodes, source_id, 1)?;
        return Err(Refusal::blame(2, DataKind::BadId));
    };
    Ok((source_id, destination_id))
}
