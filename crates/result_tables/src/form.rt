//! How tables are written.

/// The form in which tables are written.
#[derive(Clone, Copy, Debug, PartialEq, Eq)]
pub enum Form {
    /// A line for each node.
    Tables,
    /// One line for the whole table: how many edges the view has, how many nodes have a value, and the sum of these.
    Summary,
    /// A block of a change text: a line for each node whose value differs from that in the table before. A table alone is a
    /// block with a line for each node.
    Changes,
}
