//! A list whose items lie in chunks that never move.
//!
//! A list in one block has to copy all its items when it outgrows the block. [`ChunkList`] takes its memory 64 items at a
//! time and leaves what it holds where it lies, so it grows without a copy, and room that was taken beforehand makes each
//! push certain: a caller takes all the room that a change needs, and only then begins the change. This room stands on
//! `surge_outside` alone, and the layers of traces lie in its lists. Contracts see the items and a number, how many more
//! can be pushed (`specs/Chunked`). Raw pointers stand in the four functions of `cells` and nowhere else: a new block, a
//! block given back, an item written to a place, and an item read there.
#![tactic(auto)]

mod cells;
mod chunk;
mod iter;
mod list;

// A crate can name a list in a contract only if the types of its fields are exported.
#[doc(hidden)]
pub use cells::{Base, Cells, Deed};
#[doc(hidden)]
pub use chunk::Chunk;
pub use iter::Iter;
pub use list::ChunkList;
