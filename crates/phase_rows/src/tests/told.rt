//! Dataflows in phases against runs in phases on the same views.

ghost use Rattle.std.specs.Prelude.{◌≤◌};
ghost use Rattle.phase_rows.specs.Fits.{IsFitting};

use crate::tests::cases::{Case, Place, Placed, matrix_in, places};
use crate::tests::feeds::feeds;
use crate::tests::flows::{Made, made_by};
use flow_rows::{Fed, Timed, sum_to};
use graph_model::{Val, ViewNo};
use phase_flow::{PhaseItem, phased};
use result_tables::Table;
use std::alloc::Global;
use surge_outside::{List, NoMemory};
use vertex_items::StartInput;
use vertex_lang::{Outcome, Updater};
use view_order::views_from;
use weighted::{Batch, Weight};

// The table of the view at a place after so many phases.
fn table_at<U: Updater>(
    alloc: Global,
    case: Case<'_>,
    phases: u32,
    place: Place,
    updater: &mut U,
) -> Result<Option<Table>, NoMemory>
    requires { IsFitting case.program.now case.graph.now case.rounds phases }
{
    let matrix = matrix_in(alloc, case, place.version)?;
    let order = views_from(alloc, &matrix, 0)?;
    let results = phased(
        alloc,
        case.graph,
        &matrix,
        case.program,
        order.as_slice(),
        case.rounds,
        phases,
        updater,
    )?;
    if results.has(ViewNo(place.position)) {
        return Ok(Some(results.table(ViewNo(place.position))?));
    }
    Ok(None)
}

// What was made up to a phase, without the phases.
fn through(
    alloc: Global,
    made: &[(Made, Weight)],
    phase: u32,
) -> Result<Batch<PhaseItem>, NoMemory> {
    let mut entries = List::new(alloc);
    for ((at, item), weight) in made {
        if at.0 <= phase {
            entries.push((*item, *weight))?;
        }
    }
    Batch::from_entries(entries)
}

// Whether no last round changed anything.
fn is_quiet(items: &[(PhaseItem, Weight)]) -> bool {
    for (item, _) in items {
        if let PhaseItem::Late(_, _) = item {
            return false;
        }
    }
    true
}

// Whether the last round of each of the first phases changed nothing.
fn are_quiet(alloc: Global, made: &[(Made, Weight)], phases: u32) -> Result<bool, NoMemory>
    requires { phases ≤ 1_000 }
{
    for phase in 1..phases + 1 {
        if !is_quiet(through(alloc, made, phase)?.as_slice()) {
            return Ok(false);
        }
    }
    Ok(true)
}

// Whether this is the value of a node, once.
fn is_value(item: PhaseItem, weight: Weight, node: usize, value: Val) -> bool {
    match item {
        PhaseItem::Value(other, there) => {
            other.0 as usize == node && there == value && weight.0 == 1
        }
        PhaseItem::Late(_, _) => false,
    }
}

// Whether these are the values, each once.
fn are_values(items: &[(PhaseItem, Weight)], values: &[Val]) -> bool {
    if items.len() != values.len() {
        return false;
    }
    for i in 0..items.len() {
        let (item, weight) = items[i];
        if !is_value(item, weight, i, values[i]) {
            return false;
        }
    }
    true
}

// Whether what was made is what a table says of so many phases.
fn is_as_told(
    alloc: Global,
    made: &[(Made, Weight)],
    phases: u32,
    table: &Table,
) -> Result<bool, NoMemory>
    requires { phases ≤ 1_000 }
{
    if !are_quiet(alloc, made, phases)? {
        return Ok(table.outcome == Outcome::Unsettled);
    }
    let last = through(alloc, made, phases)?;
    let values = table.values.as_slice();
    Ok(table.outcome == Outcome::Phases(phases) && are_values(last.as_slice(), values))
}

// Whether what was made on a view is, up to each phase, what a run of so many phases comes to.
fn is_phased<U: Updater>(
    alloc: Global,
    case: Case<'_>,
    place: Place,
    made: &[(Made, Weight)],
    updater: &mut U,
) -> Result<bool, NoMemory>
    requires { IsFitting case.program.now case.graph.now case.rounds case.phases }
{
    for phases in 1..case.phases + 1 {
        let Some(table) = table_at(alloc, case, phases, place, updater)? else {
            return Ok(false);
        };
        if !is_as_told(alloc, made, phases, &table)? {
            return Ok(false);
        }
    }
    Ok(true)
}

// The same of each place.
fn are_phased<T: Placed, U: Updater>(
    alloc: Global,
    case: Case<'_>,
    places: &[Place],
    made: &List<Timed<T, Made>>,
    updater: &mut U,
) -> Result<bool, NoMemory>
    requires { IsFitting case.program.now case.graph.now case.rounds case.phases }
{
    for place in places {
        let sum = sum_to(alloc, made, T::at(*place))?;
        if !is_phased(alloc, case, *place, sum.as_slice(), updater)? {
            return Ok(false);
        }
    }
    Ok(true)
}

/// Whether a new dataflow that is stepped through the views of each version, and sealed behind each view where there is one version,
/// makes of each view what a run in phases on it comes to.
pub(crate) fn is_right<T: Placed, U: Updater>(
    alloc: Global,
    case: Case<'_>,
    updater: &mut U,
) -> Result<bool, NoMemory>
    requires { IsFitting case.program.now case.graph.now case.rounds case.phases }
{
    let versions = T::versions();
    let places = places(alloc, versions, case.views)?;
    let places = places.as_slice();
    let fed: List<Fed<T, StartInput>> = feeds(alloc, case, places)?;
    let seals = versions == 1;
    let Some(made) = made_by::<T, U>(alloc, case, fed, seals, updater)? else {
        return Ok(false);
    };
    are_phased(alloc, case, places, &made, updater)
}
