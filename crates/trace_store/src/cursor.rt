//! Searches that go on where the last one ended.

ghost use Rattle.std.specs.Prelude.{◌≡◌, ◌≤◌, ◌-◌, length, take, drop, IfOk};
ghost use Rattle.std.specs.Ordering.{is_eq};
ghost use Rattle.weighted.specs.SumLaws.{filtered};

use crate::lookup::{Entries, run_from};
use lattice_time::Time;
use std::alloc::Global;
use surge_outside::{NoMemory, Record};

/// The places in the layers of a trace at which the last search ended. A search for a greater key goes on from there; any
/// other one begins anew. So no place is ever wrong, whatever the trace was told meanwhile.
#[derive(Drop)]
pub struct Cursor {
    places: Vec<usize>,
    layer: usize,
}

impl Cursor {
    /// At the beginning of each layer. It takes no memory.
    pub fn new(alloc: Global) -> Cursor {
        Cursor {
            places: Vec::new(alloc),
            layer: 0,
        }
    }

    /// The next layer to be searched is the first one.
    pub(crate) fn rewind(&mut self) {
        self.layer = 0;
    }

    /// The place in the next layer.
    fn place(&self) -> usize {
        match self.places.get(self.layer) {
            Some(place) => *place,
            None => 0,
        }
    }

    /// Keeps the place in the next layer, and goes on to the one behind it.
    ///
    /// Errors: out of memory.
    fn keep(&mut self, place: usize) -> Result<(), NoMemory> {
        if self.layer < self.places.len() {
            self.places[self.layer] = place;
        } else {
            self.places.push(place)?;
        }
        self.layer = self.layer.saturating_add(1);
        Ok(())
    }

    /// Where the entries of a key stand in the next layer: the first place, and the first place behind them.
    ///
    /// Errors: out of memory.
    pub(crate) fn run_of<K: Record, V: Record, T: Time>(
        &mut self,
        layer: &Entries<K, V, T>,
        key: &K,
    ) -> Result<(usize, usize), NoMemory>
        ensures bound { IfOk result (λ run. (run.0 ≤ run.1) × (run.1 ≤ length layer.now)) }
        ensures run { IfOk result (λ run. take (run.1 - run.0) (drop run.0 layer.now) ≡ filtered (λ r. is_eq (K.cmp r.0.0 key.now)) layer.now) }
    {
        let run = run_from(layer, key, self.place());
        self.keep(run.1)?;
        Ok(run)
    }
}
