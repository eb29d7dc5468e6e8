//! One chunk of a list.

ghost use Rattle.std.specs.Prelude.{◌≡◌, ◌<◌, ◌≤◌, [], ◌∷◌, ◌++◌, length, slice_get, IfOk};
ghost use Rattle.chunk_list.specs.Places.{somes};

use crate::cells::{Base, Cells, Deed, allocate, deallocate};
use std::alloc::{AllocError, Global};
use std::marker::Model;
use std_alloc::room::may_hold;

/// A block of 64 places that never moves, filled from the front. Contracts see its items.
pub struct Chunk<T: Copy> {
    base: Base<T>,
    len: usize,
    cells: Cells<T>,
    deed: Deed<T, Global>,
    alloc: Global,
}

impl<T: Copy> Model for Chunk<T> {
    ghost use Rattle.std.specs.Prelude.{◌≡◌, ◌≤◌, List, length};
    ghost use Rattle.std.specs.Coded.{coded_list};
    ghost use Rattle.chunk_list.specs.Places.{somes, filled};

    ghost Value = { List T };

    ghost coded = { coded_list T.code };

    ghost view = { λ c. somes c.cells.slots };

    ghost invariant = { λ c. (c.cells.at ≡ c.base.ptr) × (c.deed.at ≡ c.base.ptr) × (c.deed.len ≡ 64) × (c.deed.alloc ≡ c.alloc) × (c.cells.slots ≡ filled (somes c.cells.slots) 64) × (c.len ≡ length (somes c.cells.slots)) × (length (somes c.cells.slots) ≤ 64) };
}

impl<T: Copy> Drop for Chunk<T> {
    fn drop(self) {
        let Chunk {
            base,
            len: _,
            cells,
            deed,
            alloc,
        } = self;
        deallocate(&alloc, base, 64, cells, deed);
    }
}

impl<T: Copy> Chunk<T> {
    /// A chunk with no item.
    pub(crate) fn new(alloc: Global) -> Result<Chunk<T>, AllocError>
        ensures { IfOk result (λ chunk. chunk ≡ []) }
    {
        if !may_hold::<T>(64) {
            return Err(AllocError);
        }
        let (base, cells, deed) = allocate(&alloc, 64)?;
        Ok(Chunk {
            base,
            len: 0,
            cells,
            deed,
            alloc,
        })
    }

    /// Adds an item at the end.
    pub(crate) fn push(&mut self, item: T)
        requires { length self.old < 64 }
        ensures { self.new ≡ self.old ++ item ∷ [] }
    {
        self.cells.write(self.base, self.len, item);
        self.len += 1;
    }

    /// The item at a place.
    pub(crate) fn get(&self, i: usize) -> T
        requires { i < length self.now }
        ensures { slice_get self.now i ≡ Some result }
    {
        *self.cells.get(self.base, i)
    }
}
