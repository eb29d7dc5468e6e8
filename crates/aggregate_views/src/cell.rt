//! The rows of groups.

use surge_outside::Text;

/// The cell by which a node is grouped.
#[derive(Debug, Drop)]
pub enum Cell {
    /// The node has no value in the column.
    Absent,
    /// A whole number.
    Int(i64),
    /// A text.
    Str(Text),
    /// A truth value.
    Bool(bool),
}

/// The edges between two groups of nodes.
#[derive(Debug, Drop)]
pub struct GroupRow {
    /// The group of their sources.
    pub from: Cell,
    /// The group of their destinations.
    pub to: Cell,
    /// How many edges there are, at least 1.
    pub count: u64,
    /// The exact sum of their numbers in the sum column, where an absent number adds nothing; 0 without such a column.
    pub sum: i128,
}
