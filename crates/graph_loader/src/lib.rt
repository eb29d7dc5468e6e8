//! From the bytes of data files to a property graph.
//!
//! It stands on `graph_model`, whose graphs it makes, on `csv`, which cuts a file into records, and on `indexmap`, which
//! numbers ids in their order. It offers [`load`], [`extend`] and the faults that they answer with. The rooms above filter
//! the graph's edges and run programs on it.
//!
//! It promises that [`load`] answers the graph that the bytes spell or their first fault, with its file, record, column
//! and kind: `graph_of` of `specs/DataFiles.antt` cuts each file into records and judges one after the other, each field
//! by its own definition in `specs/Spelling.antt`. [`extend`] puts the edges of a further file behind those of a graph, or
//! tells its first fault (`extended`) and leaves the graph as it was. The code keeps cells in columns and ids in a table of
//! hashes, and the places of small ids in a table beside it. What the definitions say of the names of columns, and of a
//! graph that is extended, stands in `specs/Laws.antt`; these laws are contracts of functions without code.
#![tactic(auto)]

mod cells;
mod edges;
mod ends;
mod extending;
mod fault;
mod fields;
mod header;
mod laws;
mod loading;
mod nodes;
mod places;
mod rows;
mod spelling;

pub use extending::extend;
pub use fault::{DataFault, DataFile, DataKind, LoadFault};
pub use laws::{extended_adds, loaded_names, names_are_lines};
pub use loading::load;
