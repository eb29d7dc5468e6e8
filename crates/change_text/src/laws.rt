//! What follows from the definitions. These functions have no code: the contract of each is one law.

ghost use Rattle.change_text.specs.Laws.{OneFault, OneReading, TablesAreBlocks, TablesComeBack};

/// A text is the change text of one list of blocks at most.
pub fn one_reading()
    ensures { OneReading }
{}

/// A text has one first bad line at most.
pub fn one_fault()
    ensures { OneFault }
{}

/// The text of a table alone is that of a full block.
pub fn tables_are_blocks()
    ensures { TablesAreBlocks }
{}

/// Where all rows of a table are a block, and those of the table before are one, the block that [`crate::write_change`]
/// writes may stand behind the table before, and the table that it comes to has all those rows again.
pub fn tables_come_back()
    ensures { TablesComeBack }
{}
