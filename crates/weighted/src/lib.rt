//! Weights modulo 2^64, and batches of weighted records.
//!
//! A collection of records, and likewise a change of one, is kept as records with weights: a record that was added has
//! weight 1, one that was taken away weight -1, and what counts of a record is the sum of its weights modulo 2^64
//! (McSherry, Murray, Isaacs and Isard, "Differential dataflow", 2013). This room stands on `surge_outside` alone, and
//! traces and operators stand on it. It offers [`Weight`], and [`Batch`], a collection in normal form: records rise, and
//! no weight is zero. It promises that each batch is the one normal form of what it was made of. `Alike` says that two
//! lists of entries are one collection, with no order of their records; its laws, and those of sums, maps, filters and
//! products of collections, stand in `specs/`, so that no room above looks inside a batch.
#![tactic(auto)]

mod batch;
mod consolidate;
mod gather;
mod join;
mod weight;

pub use batch::Batch;
pub use weight::Weight;
