//! What the lowest rooms offer, against answers that were worked out by hand.
//!
//! It stands on the rooms whose tests these are, and nothing stands on it: so none of them is proved a second time with its
//! tests. They go through small types, files and sinks, those of the real system too (`surge_outside`); rounds that begin with
//! given values (`vertex_lang`); lists that are one multiset (`multisets`); the work of views of two edges (`lone_work`);
//! updates that are made at once, and others (`quick_updates`); small walks (`walk_theory`); the first numbers of a seed
//! (`draws`); where a run starts anew (`segment_split`); times and their laws (`lattice_time`); weights and batches
//! (`weighted`); the text of tables, and answers of views that stand behind one another (`result_tables`); and texts of tables
//! as differences, read and written (`change_text`). What the readers of graphs answer (`graph_model`) stands in `data_rows`,
//! and the built-in programs (`graph_algos`) are made by the rooms that run them.
#![tactic(auto)]

#[cfg(test)]
mod tests;
