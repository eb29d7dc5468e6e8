//! The columns of rules, by one pass over the edges: of each 64 edges a word for each rule, so that their cells are read
//! once for many rules.

ghost use Rattle.std.specs.Prelude.{◌≡◌, ◌+◌, ◌*◌, ◌/◌, [], ◌<◌, ◌≤◌, ◌&&◌, ℕ, length, map, nat_lt, All, IfOk, OnOk};
ghost use Rattle.edge_predicates.specs.Truth.{rule_truth};
ghost use Rattle.view_matrix.specs.Columns.{is_set};
ghost use Rattle.view_matrix.specs.Bounds.{all_meet, AreOf};
ghost use Rattle.view_matrix.specs.Matrices.{rule_column};
ghost use Rattle.view_matrix.specs.Numbers.{AreNumbers};
ghost use Rattle.view_matrix.specs.Scans.{HasWords, HaveWords, IsScan};

use crate::bounds::Bounds;
use crate::column::Column;
use crate::conjunction::bounds_of_rule;
use crate::numbers::Numbers;
use crate::word::{lowest_bits, more_bit};
use edge_predicates::{ViewRule, rule_holds};
use graph_model::{EdgeNo, Graph};
use std::alloc::Global;
use surge_outside::NoMemory;

/// A rule, and the bounds by which it is told, where it is a conjunction of bounds.
#[derive(Drop)]
pub(crate) struct Scan<'r> {
    rule: &'r ViewRule,
    bounds: Option<Vec<Bounds>>,
}

// Of each of so many edges from the first on whether it meets all of these bounds, as a word, of which the lowest bit
// is the first's.
fn meeting_all(graph: &Graph, numbers: &mut Numbers, all: &[Bounds], first: u32, count: u32) -> u64
    requires numbers { AreNumbers graph.now numbers.old }
    requires some { 1 ≤ count }
    requires first { first ≤ 4_000_000 }
    requires few { count ≤ 64 }
    requires edges { first + count ≤ length graph.now.ends }
    requires columns { AreOf (length graph.now.edge_columns) all.now }
    ensures numbers { AreNumbers graph.now numbers.new }
    ensures word { (i : ℕ) → is_set result i ≡ (nat_lt i count && all_meet graph.now (first + i) all.now) }
{
    let mut word = lowest_bits(count);
    for bounds in all {
        numbers.turn_to(graph, bounds.column, first, count);
        word &= numbers.meeting_word(graph, *bounds);
    }
    word
}

// Of each of so many edges from the first on whether a rule holds of it, in the same way.
fn evaluated_word(graph: &Graph, rule: &ViewRule, first: u32, count: u32) -> u64
    requires first { first ≤ 4_000_000 }
    requires few { count ≤ 64 }
    requires edges { first + count ≤ length graph.now.ends }
    ensures { (i : ℕ) → is_set result i ≡ (nat_lt i count && rule_truth graph.now (first + i) rule.now) }
{
    let mut word = 0;
    for place in 0..count {
        word = more_bit(word, place, rule_holds(rule, graph, EdgeNo(first + place)));
    }
    word
}

impl<'r> Scan<'r> {
    /// How a rule is told. A window, and each other conjunction of comparisons of columns of the edges with numbers, is
    /// told from the columns alone.
    pub(crate) fn new(
        alloc: Global,
        graph: &Graph,
        rule: &'r ViewRule,
    ) -> Result<Scan<'r>, NoMemory>
        ensures is { IfOk result (λ scan. IsScan graph.now scan) }
        ensures rule { IfOk result (λ scan. scan.rule.now ≡ rule.now) }
    {
        let bounds = bounds_of_rule(alloc, graph.edge_columns().len(), rule)?;
        Ok(Scan { rule, bounds })
    }

    // Of each of so many edges from the first on whether the rule holds of it, in the same way.
    fn word(&self, graph: &Graph, numbers: &mut Numbers, first: u32, count: u32) -> u64
        requires is { IsScan graph.now self.now }
        requires numbers { AreNumbers graph.now numbers.old }
        requires some { 1 ≤ count }
        requires first { first ≤ 4_000_000 }
        requires few { count ≤ 64 }
        requires edges { first + count ≤ length graph.now.ends }
        ensures numbers { AreNumbers graph.now numbers.new }
        ensures word { (i : ℕ) → is_set result i ≡ (nat_lt i count && rule_truth graph.now (first + i) self.now.rule.now) }
    {
        match &self.bounds {
            Some(all) => meeting_all(graph, numbers, all.as_slice(), first, count),
            None => evaluated_word(graph, self.rule, first, count),
        }
    }
}

// Adds one word more to those of each rule.
fn push_words(
    graph: &Graph,
    numbers: &mut Numbers,
    scans: &[Scan<'_>],
    columns: &mut [Vec<u64>],
    k: u32,
) -> Result<(), NoMemory>
    requires scans { All (IsScan graph.now) scans.now }
    requires numbers { AreNumbers graph.now numbers.old }
    requires room { 64 * k < length graph.now.ends }
    requires so_far { HaveWords graph.now k scans.now columns.old }
    ensures numbers { AreNumbers graph.now numbers.new }
    ensures more { OnOk result (HaveWords graph.now (k + 1) scans.now columns.new) }
{
    let len = graph.edge_count();
    let first = 64 * k;
    let count = (len - first).min(64);
    for i in 0..scans.len() {
        let word = scans[i].word(graph, numbers, first, count);
        columns[i].push(word)?;
    }
    Ok(())
}

// So many empty lists, each with room for as many words.
fn empty_columns(alloc: Global, count: usize, words: usize) -> Result<Vec<Vec<u64>>, NoMemory>
    ensures count { IfOk result (λ columns. length columns.items ≡ count) }
    ensures empty { IfOk result (λ columns. All (λ words. words.items ≡ []) columns.items) }
{
    let mut columns = Vec::with_capacity(alloc, count)?;
    for _place in 0..count {
        columns.push(Vec::with_capacity(alloc, words)?)?;
    }
    Ok(columns)
}

// The words of the columns of these rules.
fn scanned_words(
    alloc: Global,
    graph: &Graph,
    scans: &[Scan<'_>],
) -> Result<Vec<Vec<u64>>, NoMemory>
    requires { All (IsScan graph.now) scans.now }
    ensures { IfOk result (λ columns. HaveWords graph.now ((length graph.now.ends + 63) / 64) scans.now columns.items) }
{
    let count = graph.edge_count().div_ceil(64);
    let mut columns = empty_columns(alloc, scans.len(), count as usize)?;
    let mut numbers = Numbers::new(alloc)?;
    for k in 0..count {
        push_words(graph, &mut numbers, scans, columns.as_mut_slice(), k)?;
    }
    Ok(columns)
}

/// The columns of these rules.
pub(crate) fn scanned_columns(
    alloc: Global,
    graph: &Graph,
    scans: &[Scan<'_>],
) -> Result<Vec<Column>, NoMemory>
    requires { All (IsScan graph.now) scans.now }
    ensures { IfOk result (λ columns. columns.items ≡ map (λ scan. rule_column graph.now scan.rule.now) scans.now) }
{
    let len = graph.edge_count();
    let mut columns = Vec::with_capacity(alloc, scans.len())?;
    for words in scanned_words(alloc, graph, scans)? {
        columns.push(Column::of_words(words, len))?;
    }
    Ok(columns)
}
