//! The columns of a matrix, as they are made.

ghost use Rattle.std.specs.Prelude.{◌≡◌, ◌≤◌, length, map, IfOk};
ghost use Rattle.view_matrix.specs.Matrices.{rule_columns};

use crate::column::Column;
use crate::scan::{Scan, scanned_columns};
use edge_predicates::ViewRule;
use graph_model::Graph;
use std::alloc::Global;
use surge_outside::NoMemory;

/// The column of these truth values, at most 4,000,000.
pub(crate) fn column_of(alloc: Global, bits: &[bool]) -> Result<Column, NoMemory>
    requires { length bits.now ≤ 4_000_000 }
    ensures { IfOk result (λ column. column ≡ bits.now) }
{
    let mut column = Column::new(alloc, bits.len() as u32)?;
    for (place, bit) in bits.iter().enumerate() {
        if *bit {
            column.set(place as u32, true);
        }
    }
    Ok(column)
}

/// The columns of these rules.
pub(crate) fn rule_columns(
    alloc: Global,
    graph: &Graph,
    rules: &[&ViewRule],
) -> Result<Vec<Column>, NoMemory>
    ensures { IfOk result (λ columns. columns.items ≡ rule_columns graph.now (map (λ r. r.now) rules.now)) }
{
    let mut scans = Vec::with_capacity(alloc, rules.len())?;
    for rule in rules {
        scans.push(Scan::new(alloc, graph, *rule)?)?;
    }
    scanned_columns(alloc, graph, scans.as_slice())
}

/// Each of these rules by reference.
pub(crate) fn references<'r>(
    alloc: Global,
    rules: &'r [ViewRule],
) -> Result<Vec<&'r ViewRule>, NoMemory>
    ensures { IfOk result (λ all. map (λ r. r.now) all.items ≡ rules.now) }
{
    let mut all = Vec::with_capacity(alloc, rules.len())?;
    for rule in rules {
        all.push(rule)?;
    }
    Ok(all)
}
