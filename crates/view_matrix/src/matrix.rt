//! The matrix.

ghost use Rattle.std.specs.List.{range_with_len};
ghost use Rattle.std.specs.Prelude.{◌≡◌, ◌<◌, ◌≤◌, ◌+◌, length, map, All, IfOk, OnOk, OnErr};
ghost use Rattle.view_matrix.specs.Matrices.{bit_of, live_of, rule_bit_of, column_edges, edges_in, size_of, distance_of, differences_of, in_exactly_one, place_of, IsView, IsColumn, matrix_of, with_views, with_changes};

use crate::column::Column;
use crate::counted::{count_apart, count_both};
use crate::flagged::flags_both;
use crate::listed::{list_apart, list_both, list_new};
use crate::rules::{column_of, references, rule_columns};
use edge_predicates::ViewRule;
use graph_model::{EdgeNo, Graph, ViewNo};
use std::alloc::Global;
use std::marker::Model;
use surge_outside::{List, NoMemory};

/// Which edges of a graph stand in which views, at most 4,000,000 edges and 1,024 views: an edge stands in a view where
/// it is live and the rule of the view holds of it. It takes one bit for each edge and view, and one more for each
/// edge.
#[derive(Debug, Drop)]
pub struct Matrix {
    alloc: Global,
    live: Column,
    columns: Vec<Column>,
}

impl Model for Matrix {
    ghost use Rattle.view_matrix.specs.Matrices.{MatrixData};

    ghost Value = { MatrixData };

    ghost use Rattle.view_matrix.specs.MatrixInside.{data_of, IsMatrix};

    ghost view = { data_of };

    ghost invariant = { IsMatrix };
}

impl Matrix {
    /// The matrix of these views over a graph, in declared order, with one truth value for each edge that says whether
    /// it is live. There are at most 1,024 views. Each rule is told once for each edge. The one error is want of
    /// memory.
    pub fn build(
        alloc: Global,
        graph: &Graph,
        live: &List<bool>,
        views: &[ViewRule],
    ) -> Result<Matrix, NoMemory>
        requires live { length live.now ≡ length graph.now.ends }
        requires few { length views.now ≤ 1_024 }
        ensures { IfOk result (λ m. m ≡ matrix_of graph.now live.now views.now) }
    {
        let _edges = graph.edge_count();
        let live = column_of(alloc, live.as_slice())?;
        let rules = references(alloc, views)?;
        let columns = rule_columns(alloc, graph, rules.as_slice())?;
        Ok(Matrix {
            alloc,
            live,
            columns,
        })
    }

    /// Adds these views over the same graph behind those that are there, at most 1,024 in all. Each rule of theirs is
    /// told once for each edge. The one error is want of memory, and it leaves the matrix as it was.
    pub fn add_views(&mut self, graph: &Graph, views: &[ViewRule]) -> Result<(), NoMemory>
        requires graph { length graph.now.ends ≡ length self.old.live }
        requires few { length self.old.columns + length views.now ≤ 1_024 }
        ensures ok { OnOk result (self.new ≡ with_views self.old graph.now views.now) }
        ensures err { OnErr result (self.new ≡ self.old) }
    {
        let rules = references(self.alloc, views)?;
        self.add_rules(graph, rules.as_slice())
    }

    /// Adds the views of these rules over the same graph, in their order, behind those that are there, at most 1,024 in
    /// all, by one pass over the edges. Each rule is told once for each edge. The one error is want of memory, and it
    /// leaves the matrix as it was.
    pub fn add_rules(&mut self, graph: &Graph, rules: &[&ViewRule]) -> Result<(), NoMemory>
        requires graph { length graph.now.ends ≡ length self.old.live }
        requires few { length self.old.columns + length rules.now ≤ 1_024 }
        ensures ok { OnOk result (self.new ≡ with_views self.old graph.now (map (λ r. r.now) rules.now)) }
        ensures err { OnErr result (self.new ≡ self.old) }
    {
        let mut columns = rule_columns(self.alloc, graph, rules)?;
        self.columns.append(&mut columns)?;
        Ok(())
    }

    /// Makes each of these edges live, or not, one after the other. No rule is evaluated again. It takes no memory.
    pub fn edit(&mut self, changes: &[(EdgeNo, bool)])
        requires { All (λ change. change.0.0 < length self.old.live) changes.now }
        ensures { self.new ≡ with_changes self.old changes.now }
    {
        for (edge, is_live) in changes {
            self.live.set(edge.0, *is_live);
        }
    }

    /// Whether an edge is live.
    pub fn live(&self, edge: EdgeNo) -> bool
        requires { edge.0 < length self.now.live }
        ensures { result ≡ live_of self.now edge.0 }
    {
        self.live.get(edge.0)
    }

    /// Whether the rule of a view holds of an edge.
    pub fn rule_bit(&self, edge: EdgeNo, view: ViewNo) -> bool
        requires edge { edge.0 < length self.now.live }
        requires view { IsView self.now view }
        ensures { result ≡ rule_bit_of self.now edge.0 view.0 }
    {
        self.columns[view.0 as usize].get(edge.0)
    }

    /// Whether an edge stands in a view: it is live, and the rule of the view holds of it.
    pub fn bit(&self, edge: EdgeNo, view: ViewNo) -> bool
        requires edge { edge.0 < length self.now.live }
        requires view { IsView self.now view }
        ensures { result ≡ bit_of self.now edge.0 view.0 }
    {
        self.live(edge) && self.rule_bit(edge, view)
    }

    /// How many views there are, at most 1,024.
    pub fn views(&self) -> u32
        ensures count { result ≡ length self.now.columns }
        ensures limit { result ≤ 1_024 }
    {
        self.columns.len() as u32
    }

    /// How many edges stand in a view, by one pass over its words.
    pub fn size(&self, view: ViewNo) -> u64
        requires { IsView self.now view }
        ensures value { result ≡ size_of self.now view.0 }
        ensures limit { result ≤ 4_000_000 }
    {
        count_both(&self.live, &self.columns[view.0 as usize])
    }

    /// In how many edges a view differs from the view before, or from the empty column where there is none, by one pass
    /// over their words: so many edges stand in exactly one of the two.
    pub fn distance(&self, before: Option<ViewNo>, view: ViewNo) -> u64
        requires before { IsColumn self.now before }
        requires view { IsView self.now view }
        ensures value { result ≡ distance_of self.now (place_of before) view.0 }
        ensures lists { result ≡ in_exactly_one (column_edges self.now (place_of before)) (edges_in self.now view.0) }
        ensures limit { result ≤ 4_000_000 }
    {
        let column = &self.columns[view.0 as usize];
        match before {
            Some(last) => count_apart(&self.live, &self.columns[last.0 as usize], column),
            None => count_both(&self.live, column),
        }
    }

    /// Of each edge whether it stands in a view, in the order of the file, by one pass over the words. The one error is
    /// want of memory.
    pub fn flags(&self, alloc: Global, view: ViewNo) -> Result<Vec<bool>, NoMemory>
        requires { IsView self.now view }
        ensures { IfOk result (λ flags. flags.items ≡ map (λ e. bit_of self.now e view.0) (range_with_len 0 (length self.now.live))) }
    {
        flags_both(alloc, &self.live, &self.columns[view.0 as usize])
    }

    /// The edges that stand in a view, in the order of the file, by one pass over its words. The one error is want of
    /// memory.
    pub fn edges(&self, alloc: Global, view: ViewNo) -> Result<List<EdgeNo>, NoMemory>
        requires { IsView self.now view }
        ensures edges { IfOk result (λ edges. edges ≡ edges_in self.now view.0) }
        ensures limit { IfOk result (λ edges. length edges ≤ 4_000_000) }
    {
        list_both(alloc, &self.live, &self.columns[view.0 as usize])
    }

    /// The edges in which a view differs from the view before, or from the empty column where there is none, in the
    /// order of the file, each with whether it stands in the view. It takes one pass over their words. The one error is
    /// want of memory.
    pub fn differences(
        &self,
        alloc: Global,
        before: Option<ViewNo>,
        view: ViewNo,
    ) -> Result<List<(EdgeNo, bool)>, NoMemory>
        requires before { IsColumn self.now before }
        requires view { IsView self.now view }
        ensures differences { IfOk result (λ differences. differences ≡ differences_of self.now (place_of before) view.0) }
        ensures limit { IfOk result (λ differences. length differences ≤ 4_000_000) }
    {
        let column = &self.columns[view.0 as usize];
        match before {
            Some(last) => list_apart(alloc, &self.live, &self.columns[last.0 as usize], column),
            None => list_new(alloc, &self.live, column),
        }
    }
}
