//! What is listed of columns, by a pass over their words. A word without a bit that is set costs one test.

ghost use Rattle.std.specs.Prelude.{◌≡◌, ◌+◌, ◌++◌, ◌≤◌, ◌&&◌, ◌^◌, length, map, filter, IfOk, OnOk};
ghost use Rattle.std.specs.List.{range_with_len};
ghost use Rattle.edge_predicates.specs.ViewEdges.{edge};
ghost use Rattle.view_matrix.specs.Columns.{at, is_set, set_in};
ghost use Rattle.view_matrix.specs.Matrices.{differ};

use crate::column::Column;
use crate::set_bits::SetBits;
use crate::word::is_set;
use graph_model::EdgeNo;
use std::alloc::Global;
use surge_outside::{List, NoMemory};

// Adds the edges of the bits that are set in a word, of which the lowest stands for the first edge.
fn push_edges(edges: &mut List<EdgeNo>, first: u32, word: u64) -> Result<(), NoMemory>
    requires { first ≤ 4_000_000 }
    ensures { OnOk result (edges.new ≡ edges.old ++ map (λ i. edge (first + i)) (set_in word)) }
{
    let mut bits = SetBits::of(word);
    while let Some(place) = bits.next() {
        edges.push(EdgeNo(first + place))?;
    }
    Ok(())
}

// Adds the edges of the bits that are set in a word, each with the bit of another word at its place.
fn push_signed(
    edges: &mut List<(EdgeNo, bool)>,
    first: u32,
    word: u64,
    signs: u64,
) -> Result<(), NoMemory>
    requires { first ≤ 4_000_000 }
    ensures { OnOk result (edges.new ≡ edges.old ++ map (λ i. (edge (first + i), is_set signs i)) (set_in word)) }
{
    let mut bits = SetBits::of(word);
    while let Some(place) = bits.next() {
        edges.push((EdgeNo(first + place), is_set(signs, place)))?;
    }
    Ok(())
}

/// The edges whose bits are set in both columns.
pub(crate) fn list_both(
    alloc: Global,
    first: &Column,
    second: &Column,
) -> Result<List<EdgeNo>, NoMemory>
    requires { length first.now ≡ length second.now }
    ensures { IfOk result (λ edges. edges ≡ map edge (filter (λ e. at first.now e && at second.now e) (range_with_len 0 (length first.now)))) }
{
    let first_words = first.words();
    let second_words = second.words();
    let mut edges = List::new(alloc);
    for k in 0..first_words.len() {
        let word = first_words[k] & second_words[k];
        push_edges(&mut edges, 64 * k as u32, word)?;
    }
    Ok(edges)
}

/// The edges of these places in which the other two columns differ, each with its bit in the second.
pub(crate) fn list_apart(
    alloc: Global,
    places: &Column,
    first: &Column,
    second: &Column,
) -> Result<List<(EdgeNo, bool)>, NoMemory>
    requires first { length places.now ≡ length first.now }
    requires second { length places.now ≡ length second.now }
    ensures { IfOk result (λ edges. edges ≡ map (λ e. (edge e, at second.now e)) (filter (λ e. at places.now e && differ (at first.now e) (at second.now e)) (range_with_len 0 (length places.now)))) }
{
    let words = places.words();
    let first_words = first.words();
    let second_words = second.words();
    let mut edges = List::new(alloc);
    for k in 0..words.len() {
        let word = words[k] & (first_words[k] ^ second_words[k]);
        push_signed(&mut edges, 64 * k as u32, word, second_words[k])?;
    }
    Ok(edges)
}

/// The edges whose bits are set in both columns, each with its bit in the second.
pub(crate) fn list_new(
    alloc: Global,
    places: &Column,
    column: &Column,
) -> Result<List<(EdgeNo, bool)>, NoMemory>
    requires { length places.now ≡ length column.now }
    ensures { IfOk result (λ edges. edges ≡ map (λ e. (edge e, at column.now e)) (filter (λ e. at places.now e && at column.now e) (range_with_len 0 (length places.now)))) }
{
    let words = places.words();
    let column_words = column.words();
    let mut edges = List::new(alloc);
    for k in 0..words.len() {
        let word = words[k] & column_words[k];
        push_signed(&mut edges, 64 * k as u32, word, column_words[k])?;
    }
    Ok(edges)
}
