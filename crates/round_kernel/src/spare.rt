//! Lists that a step leaves to the next one, so that they aren't made anew.

ghost use Rattle.std.specs.Prelude.{◌≡◌, length, IfOk};
ghost use Rattle.graph_model.specs.GraphData.{GraphData};
ghost use Rattle.arc_rows.specs.Counts.{ArePlain};
ghost use Rattle.round_kernel.specs.Spares.{IsSpare};

use arc_rows::Degrees;
use std::alloc::Global;
use surge_outside::NoMemory;
use value_codes::Kept;

/// Lists with a place for each node, which are used again. Nothing is asked of what they hold, but that numbers are small.
#[derive(Debug, Drop)]
pub(crate) struct Spare {
    /// What was kept of the messages of each node.
    pub(crate) kept: Vec<Kept>,
    /// How many arcs leave each node, where the message didn't depend on it.
    pub(crate) degrees: Option<Degrees>,
}

impl Spare {
    /// No lists.
    pub(crate) fn nothing(alloc: Global) -> Spare
        ensures { (graph : GraphData) → IsSpare graph result }
    {
        Spare {
            kept: Vec::new(alloc),
            degrees: None,
        }
    }

    /// These lists; but numbers of arcs on which the message depends are left out.
    pub(crate) fn of(kept: Vec<Kept>, by_degree: bool, degrees: Degrees) -> Spare
        ensures { (graph : GraphData) → ArePlain graph degrees → IsSpare graph result }
    {
        Spare {
            kept,
            degrees: if by_degree { None } else { Some(degrees) },
        }
    }
}

/// A list for what is kept of so many nodes: this one, where it is as long, and else a new one. The error is want of memory.
pub(crate) fn kept_of(alloc: Global, kept: Vec<Kept>, count: u32) -> Result<Vec<Kept>, NoMemory>
    ensures { IfOk result (λ list. length list.items ≡ count) }
{
    let size = count as usize;
    if kept.len() == size {
        return Ok(kept);
    }
    let list = vec![in alloc; Kept::new(); size]?;
    Ok(list)
}
