//! The items of a list in chunks, one after another.

ghost use Rattle.std.specs.Prelude.{◌≡◌};
ghost use Rattle.std.specs.Iterator.{YieldsFirst, item_count};

use crate::list::ChunkList;
use std::marker::Model;

/// An iterator over the items of a list, in order. Contracts see what is left.
#[derive(Drop)]
pub struct Iter<'a, T: Copy> {
    list: &'a ChunkList<T>,
    at: usize,
}

impl<'a, T: Copy> Model for Iter<'a, T> {
    ghost use Rattle.std.specs.Prelude.{◌≤◌, List, length, drop};
    ghost use Rattle.std.specs.Coded.{coded_list};

    ghost Value = { List T };

    ghost coded = { coded_list T.code };

    ghost view = { λ it. drop it.at it.list.now.items };

    ghost invariant = { λ it. it.at ≤ length it.list.now.items };
}

impl<T: Copy> ChunkList<T> {
    /// The items in order. It takes no memory.
    pub fn iter(&self) -> Iter<'_, T>
        ensures { result ≡ self.now.items }
    {
        Iter { list: self, at: 0 }
    }
}

impl<'a, T: Copy> Iterator for Iter<'a, T> {
    type Item = T;

    ghost next_gives = { YieldsFirst (λ rest. rest) };

    ghost remaining = { item_count (λ rest. rest) };

    fn next(&mut self) -> Option<T> {
        if self.at == self.list.len() {
            return None;
        }
        let item = self.list.get(self.at);
        self.at += 1;
        Some(item)
    }
}
