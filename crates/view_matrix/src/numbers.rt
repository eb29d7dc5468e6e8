//! The numbers that some edges have in a column.

ghost use Rattle.std.specs.Prelude.{◌≡◌, ◌<◌, ◌≤◌, ◌+◌, ◌&&◌, ℕ, length, nat_lt, IfOk};
ghost use Rattle.graph_model.specs.GraphData.{GraphData, cell_of};
ghost use Rattle.view_matrix.specs.Columns.{is_set};
ghost use Rattle.view_matrix.specs.Bounds.{admits, meets, meets_at};
ghost use Rattle.view_matrix.specs.Numbers.{AreMasks, AreNumbers, AreOfEdges, ShowCells};

use crate::bounds::Bounds;
use crate::word::{more_bit, with_bit, with_mask};
use graph_model::{CellRef, EdgeNo, Graph};
use std::alloc::Global;
use surge_outside::NoMemory;

/// The numbers of so many edges in a column, from the first edge on, at most 64: they are read once for many bounds.
#[derive(Drop)]
pub(crate) struct Numbers {
    first: u32,
    count: u32,
    column: u32,
    numbers: Vec<i64>,
    /// A bit for each edge: whether its cell is a number.
    present: u64,
    /// For each of 64 places the word of which the bit at that place alone is set.
    masks: Vec<u64>,
}

// For each of 64 places the word of which the bit at that place alone is set.
fn place_masks(alloc: Global) -> Result<Vec<u64>, NoMemory>
    ensures { IfOk result (λ masks. AreMasks masks.items) }
{
    let mut masks = vec![in alloc; 0u64; 64]?;
    for place in 0..64u32 {
        masks[place as usize] = more_bit(0, place, true);
    }
    Ok(masks)
}

// The number in a cell, and whether there is one.
fn number_in(cell: CellRef<'_>) -> (i64, bool)
    ensures { (b : Bounds) → (result.1 && admits b result.0) ≡ meets b (cell_of cell.entry) }
{
    match cell {
        CellRef::Int(number) => (number, true),
        _ => (0, false),
    }
}

// Writes the numbers of so many edges in a column, and tells at which of these places there is one.
fn read_numbers(graph: &Graph, column: u32, first: u32, count: u32, numbers: &mut [i64]) -> u64
    requires first { first ≤ 4_000_000 }
    requires few { count ≤ 64 }
    requires edges { first + count ≤ length graph.now.ends }
    requires column { column < length graph.now.edge_columns }
    requires long { length numbers.old ≡ 64 }
    ensures long { length numbers.new ≡ 64 }
    ensures shown { ShowCells graph.now first count column numbers.new result }
{
    let mut present = 0;
    for place in 0..count {
        let cell = graph.edge_cell(EdgeNo(first + place), column as usize);
        let (number, is_number) = number_in(cell);
        numbers[place as usize] = number;
        present = with_bit(present, place, is_number);
    }
    present
}

impl Numbers {
    /// Those of no edges.
    pub(crate) fn new(alloc: Global) -> Result<Numbers, NoMemory>
        ensures { IfOk result (λ numbers. (g : GraphData) → AreNumbers g numbers) }
    {
        let numbers = vec![in alloc; 0i64; 64]?;
        let masks = place_masks(alloc)?;
        Ok(Numbers {
            first: 0,
            count: 0,
            column: 0,
            numbers,
            present: 0,
            masks,
        })
    }

    /// Makes them those of these edges in a column. They are read unless they are these already.
    pub(crate) fn turn_to(&mut self, graph: &Graph, column: u32, first: u32, count: u32)
        requires are { AreNumbers graph.now self.old }
        requires first { first ≤ 4_000_000 }
        requires few { count ≤ 64 }
        requires edges { first + count ≤ length graph.now.ends }
        requires column { column < length graph.now.edge_columns }
        ensures are { AreNumbers graph.now self.new }
        ensures place { AreOfEdges self.new column first count }
    {
        if self.column != column || self.first != first || self.count != count {
            self.present = read_numbers(graph, column, first, count, self.numbers.as_mut_slice());
            self.column = column;
            self.first = first;
            self.count = count;
        }
    }

    /// Of each of the edges whether it meets bounds of their column, as a word, of which the lowest bit is the first's.
    pub(crate) fn meeting_word(&self, graph: &Graph, bounds: Bounds) -> u64
        requires are { AreNumbers graph.now self.now }
        requires column { bounds.column ≡ self.now.column }
        ensures { (i : ℕ) → is_set result i ≡ (nat_lt i self.now.count && meets_at graph.now (self.now.first + i) bounds) }
    {
        // All 64 places are compared, so that the count is fixed and the loop unrolled; `present` clears the rest. Each
        // mask is read before its number is compared: so it is selected by the answer, and nothing branches.
        let mut enclosed = 0;
        for place in 0..64u32 {
            let mask = self.masks[place as usize];
            enclosed = with_mask(
                enclosed,
                mask,
                bounds.encloses(self.numbers[place as usize]),
            );
        }
        bounds.admitted(enclosed) & self.present
    }
}
