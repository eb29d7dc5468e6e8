//! A list in chunks.

ghost use Rattle.std.specs.Prelude.{◌≡◌, ◌+◌, ◌<◌, ◌≤◌, ◌==◌, [], ◌∷◌, ◌++◌, length, slice_get, OnOk, OnErr};
ghost use Rattle.chunk_list.specs.Chunked.{chunked};

use crate::chunk::Chunk;
use std::alloc::Global;
use std::marker::Model;
use surge_outside::NoMemory;

/// A list whose items lie in chunks of 64, which never move: no growth copies an item. Contracts see its items and how
/// many more can be pushed without taking memory.
#[derive(Drop)]
pub struct ChunkList<T: Copy> {
    alloc: Global,
    chunks: Vec<Chunk<T>>,
    len: usize,
    room: usize,
}

impl<T: Copy> Model for ChunkList<T> {
    ghost use Rattle.std.specs.Prelude.{◌≡◌, ◌*◌, ◌-◌, ◌≤◌, length};
    ghost use Rattle.chunk_list.specs.Chunked.{Chunked, chunked, chunked_code};
    ghost use Rattle.chunk_list.specs.Places.{joined, pieces};

    ghost Value = { Chunked T };

    ghost coded = { chunked_code T.code };

    ghost view = { λ l. chunked (joined l.chunks.items) (l.room - l.len) };

    ghost invariant = { λ l. (l.chunks.items ≡ pieces (length l.chunks.items) (joined l.chunks.items)) × (l.len ≡ length (joined l.chunks.items)) × (l.room ≡ 64 * length l.chunks.items) × (l.len ≤ l.room) };
}

impl<T: Copy> ChunkList<T> {
    /// The empty list, with no room. It takes no memory.
    pub fn new(alloc: Global) -> ChunkList<T>
        ensures { result ≡ chunked [] 0 }
    {
        ChunkList {
            alloc,
            chunks: Vec::new(alloc),
            len: 0,
            room: 0,
        }
    }

    /// How many items there are.
    pub fn len(&self) -> usize
        ensures { result ≡ length self.now.items }
    {
        self.len
    }

    /// Whether there is no item.
    pub fn is_empty(&self) -> bool
        ensures { result ≡ (length self.now.items == 0) }
    {
        self.len == 0
    }

    /// How many more items can be pushed without taking memory.
    pub fn spare(&self) -> usize
        ensures { result ≡ self.now.spare }
    {
        self.room - self.len
    }

    /// The item at a place, from 0. It takes no memory.
    pub fn get(&self, i: usize) -> T
        requires { i < length self.now.items }
        ensures { slice_get self.now.items i ≡ Some result }
    {
        self.chunks[i / 64].get(i % 64)
    }

    /// Adds an item at the end. It takes no memory.
    pub fn push(&mut self, item: T)
        requires { 0 < self.old.spare }
        ensures items { self.new.items ≡ self.old.items ++ item ∷ [] }
        ensures spare { self.new.spare + 1 ≡ self.old.spare }
    {
        self.chunks[self.len / 64].push(item);
        self.len += 1;
    }

    /// Makes room for one more chunk.
    fn grow(&mut self) -> Result<(), NoMemory>
        ensures ok { OnOk result ((self.new.items ≡ self.old.items) × (self.new.spare ≡ self.old.spare + 64)) }
        ensures err { OnErr result (self.new ≡ self.old) }
    {
        let Some(room) = self.room.checked_add(64) else {
            return Err(NoMemory);
        };
        let chunk = Chunk::new(self.alloc)?;
        self.chunks.push(chunk)?;
        self.room = room;
        Ok(())
    }

    /// Makes room for `n` more items.
    ///
    /// Errors: out of memory; the list is then as it was, and its room is no smaller.
    pub fn reserve(&mut self, n: usize) -> Result<(), NoMemory>
        ensures items { self.new.items ≡ self.old.items }
        ensures grown { self.old.spare ≤ self.new.spare }
        ensures ok { OnOk result (n ≤ self.new.spare) }
    {
        while self.spare() < n {
            self.grow()?;
        }
        Ok(())
    }

    /// Gives back all items and all room.
    pub fn clear(&mut self)
        ensures { self.new ≡ chunked [] 0 }
    {
        self.chunks.clear();
        self.len = 0;
        self.room = 0;
    }
}
