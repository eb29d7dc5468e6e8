//! What has to be fed to a dataflow in phases so that views stand at their times.

ghost use Rattle.phase_rows.specs.Fits.{IsFitting};

use crate::tests::cases::{Case, Place, Placed, arcs_at};
use flow_rows::{Fed, Timed, note, sum_to};
use graph_model::NodeNo;
use std::alloc::Global;
use surge_outside::{List, NoMemory};
use vertex_items::StartInput;
use vertex_lang::start;
use weighted::{Batch, Weight};

// Each node with its start, and the arcs of the view at a place, each once.
fn whole(alloc: Global, case: Case<'_>, place: Place) -> Result<Batch<StartInput>, NoMemory>
    requires { IsFitting case.program.now case.graph.now case.rounds case.phases }
{
    let mut entries = List::new(alloc);
    for node in 0..case.graph.node_count() {
        let value = start(case.program, case.graph, NodeNo(node));
        entries.push((StartInput::Start(NodeNo(node), value), Weight(1)))?;
    }
    let arcs = arcs_at(alloc, case, place)?;
    for arc in arcs.as_slice() {
        entries.push((StartInput::Arc(*arc), Weight(1)))?;
    }
    Batch::from_entries(entries)
}

/// What has to be fed at the times of these places, one behind the other, so that what is fed up to a time is each start and the
/// view that stands there.
pub(crate) fn feeds<T: Placed>(
    alloc: Global,
    case: Case<'_>,
    places: &[Place],
) -> Result<List<Fed<T, StartInput>>, NoMemory>
    requires { IsFitting case.program.now case.graph.now case.rounds case.phases }
{
    let mut fed: List<Timed<T, StartInput>> = List::new(alloc);
    let mut feeds = List::new(alloc);
    for place in places {
        let at = T::at(*place);
        let before = sum_to(alloc, &fed, at)?.negate()?;
        let delta = whole(alloc, case, *place)?.add(&before)?;
        note(&mut fed, &delta, at)?;
        feeds.push(Fed { at, delta })?;
    }
    Ok(feeds)
}
