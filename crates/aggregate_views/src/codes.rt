//! The groups of nodes as numbers that rise with their cells.

ghost use Rattle.std.specs.Prelude.{◌≡◌, ℕ, ◌<◌, ◌≤◌, true, length, map, get_or, slice_get, IfOk, OnOk};
ghost use Rattle.std.specs.List.{list_any};
ghost use Rattle.std.specs.List.Sorted.{IsStrictlySortedBy};
ghost use Rattle.std.specs.Ordering.{is_eq};
ghost use Rattle.graph_model.specs.GraphData.{node_cell_of};
ghost use Rattle.aggregate_views.specs.Rows.{cell_order};
ghost use Rattle.aggregate_views.specs.Coding.{key_cell, AreCodes, HasKeys};

use crate::group_key::{GroupKey, key_of};
use crate::laws::keys_are_ordered;
use graph_model::{Graph, NodeNo};
use std::alloc::Global;
use std::collections::BTreeSet;
use surge_outside::NoMemory;

/// The cells of the groups of a graph's nodes, each once and rising, and the place of each node's cell among them.
#[derive(Drop)]
pub(crate) struct Codes<'g> {
    pub(crate) keys: Vec<GroupKey<'g>>,
    pub(crate) places: Vec<u32>,
}

/// The cells of all nodes in a column.
fn keys_in<'g>(
    alloc: Global,
    graph: &'g Graph,
    column: usize,
) -> Result<BTreeSet<GroupKey<'g>>, NoMemory>
    requires { column < length graph.now.node_columns }
    ensures has { IfOk result (λ set. HasKeys graph.now column (length graph.now.ids) set.keys) }
    ensures few { IfOk result (λ set. length set.keys ≤ length graph.now.ids) }
{
    keys_are_ordered();
    let mut set = BTreeSet::new(alloc);
    for n in 0..graph.node_count() {
        let key = key_of(graph.node_cell(NodeNo(n), column));
        set.insert(key)?;
    }
    Ok(set)
}

/// The keys of a set, rising.
fn rising_keys<K: Copy + Ord>(alloc: Global, set: &BTreeSet<K>) -> Result<Vec<K>, NoMemory>
    ensures keys { IfOk result (λ keys. keys.items ≡ set.now.keys) }
    ensures count { IfOk result (λ keys. length keys.items ≡ length set.now.keys) }
    ensures rise { IfOk result (λ keys. IsStrictlySortedBy K.cmp keys.items) }
{
    let mut keys = Vec::with_capacity(alloc, set.len())?;
    for key in set.iter() {
        keys.push(*key)?;
    }
    Ok(keys)
}

/// The place of a key among rising keys, one of which is equal to it.
fn place_of<K: Copy + Ord>(keys: &[K], key: K) -> usize
    requires rise { IsStrictlySortedBy K.cmp keys.now }
    requires there { list_any (λ k. is_eq (K.cmp key k)) keys.now ≡ true }
    ensures within { result < length keys.now }
    ensures place { (d : K) → is_eq (K.cmp key (get_or keys.now result d)) ≡ true }
{
    match keys.binary_search(&key) {
        Ok(place) => place,
        Err(place) => place,
    }
}

/// The groups of a graph's nodes by a column.
///
/// Errors: out of memory.
pub(crate) fn codes_of<'g>(
    alloc: Global,
    graph: &'g Graph,
    column: usize,
) -> Result<Codes<'g>, NoMemory>
    requires { column < length graph.now.node_columns }
    ensures { IfOk result (λ codes. AreCodes graph.now column (map key_cell codes.keys.items) codes.places.items) }
{
    let set = keys_in(alloc, graph, column)?;
    let keys = rising_keys(alloc, &set)?;
    keys_are_ordered();
    let mut places = Vec::with_capacity(alloc, graph.node_count() as usize)?;
    for n in 0..graph.node_count() {
        let key = key_of(graph.node_cell(NodeNo(n), column));
        let place = place_of(keys.as_slice(), key);
        places.push(place as u32)?;
    }
    Ok(Codes { keys, places })
}
