//! The entries of a batch, as a layer.

ghost use Rattle.std.specs.Prelude.{◌≡◌, IfOk};
ghost use Rattle.weighted.specs.WordLaws.{mapped};
ghost use Rattle.trace_store.specs.Traces.{at_time};

use crate::layer::Layer;
use crate::lookup::Entries;
use chunk_list::ChunkList;
use lattice_time::Time;
use std::alloc::Global;
use surge_outside::{NoMemory, Record};
use weighted::Batch;

/// The entries of a batch, each at one time. It takes all its memory first.
pub(crate) fn stamped<K: Record, V: Record, T: Time>(
    alloc: Global,
    batch: &Batch<(K, V)>,
    t: T,
) -> Result<Entries<K, V, T>, NoMemory>
    ensures { IfOk result (λ layer. layer ≡ mapped (at_time t) batch.now) }
{
    let mut entries = ChunkList::new(alloc);
    entries.reserve(batch.len())?;
    for (record, weight) in batch.as_slice() {
        entries.push(((*record, t), *weight));
    }
    Ok(Layer::from_entries(entries))
}
