//! What a block has of its table.

/// What a block has of its table.
#[derive(Clone, Copy, Debug, PartialEq, Eq)]
pub enum Kind {
    /// All rows.
    Full,
    /// The rows that differ from the table before.
    Change,
}
