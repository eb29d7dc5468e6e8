//! The truth of predicates at an edge.

ghost use Rattle.std.specs.Prelude.{◌≡◌, ◌<◌, length, pos};
ghost use Rattle.std.specs.List.{list_any, list_all};
ghost use Rattle.graph_model.specs.GraphData.{cell_of, id_of, Cell};
ghost use Rattle.edge_predicates.specs.Truth.{truth, rule_truth, read_at, node_place, edge_place};

use crate::compare::{compare_cells, is_absent};
use crate::pred::{Place, Pred, ViewRule};
use graph_model::{CellRef, EdgeNo, Graph, NodeNo};

// The id of a node, which is below 2^63.
fn id_cell(graph: &Graph, node: NodeNo) -> CellRef<'static>
    requires { node.0 < length graph.now.ids }
    ensures { cell_of result ≡ Cell.int (pos (id_of graph.now node.0)) }
{
    CellRef::Int(graph.id(node) as i64)
}

// The cell of a node in a column, absent where there is no such column.
fn node_cell(graph: &Graph, node: NodeNo, column: usize) -> CellRef<'_>
    requires { node.0 < length graph.now.ids }
    ensures { cell_of result ≡ node_place graph.now node.0 column }
{
    if column < graph.node_columns().len() {
        graph.node_cell(node, column)
    } else {
        CellRef::Absent
    }
}

// The cell of an edge in a column, absent where there is no such column.
fn edge_cell(graph: &Graph, edge: EdgeNo, column: usize) -> CellRef<'_>
    requires { edge.0 < length graph.now.ends }
    ensures { cell_of result ≡ edge_place graph.now edge.0 column }
{
    if column < graph.edge_columns().len() {
        graph.edge_cell(edge, column)
    } else {
        CellRef::Absent
    }
}

// What is read at a place.
fn read_at<'a>(place: &'a Place, graph: &'a Graph, edge: EdgeNo) -> CellRef<'a>
    requires { edge.0 < length graph.now.ends }
    ensures { cell_of result ≡ read_at graph.now edge.0 place.now }
{
    match place {
        Place::Number(number) => CellRef::Int(*number),
        Place::Str(text) => CellRef::Str(text.as_str()),
        Place::Bool(truth) => CellRef::Bool(*truth),
        Place::SrcId => id_cell(graph, graph.src(edge)),
        Place::DstId => id_cell(graph, graph.dst(edge)),
        Place::Src(column) => node_cell(graph, graph.src(edge), *column as usize),
        Place::Dst(column) => node_cell(graph, graph.dst(edge), *column as usize),
        Place::Edge(column) => edge_cell(graph, edge, *column as usize),
    }
}

/// Whether the predicate holds of the edge. A comparison with an absent cell is false, also for `!=`; a column that the
/// graph lacks is absent. It takes no memory, and reads the cells that it names at most once each time they stand in it.
#[cycle(holds)]
pub fn holds(pred: &Pred, graph: &Graph, edge: EdgeNo) -> bool
    requires { edge.0 < length graph.now.ends }
    ensures { result ≡ truth graph.now edge.0 pred.now }
{
    match pred {
        Pred::Or(members) => some_holds(members.as_slice(), graph, edge),
        Pred::And(members) => all_hold(members.as_slice(), graph, edge),
        Pred::Not(member) => !holds(member.get(), graph, edge),
        Pred::Constant(truth) => *truth,
        Pred::Compare(first, sign, second) => {
            compare_cells(
                read_at(first, graph, edge),
                *sign,
                read_at(second, graph, edge),
            )
        }
        Pred::Missing(place) => is_absent(read_at(place, graph, edge)),
    }
}

// Whether some member holds of the edge.
#[cycle(holds)]
fn some_holds(members: &[Pred], graph: &Graph, edge: EdgeNo) -> bool
    requires { edge.0 < length graph.now.ends }
    ensures { result ≡ list_any (truth graph.now edge.0) members.now }
{
    for member in members {
        if holds(member, graph, edge) {
            return true;
        }
    }
    false
}

// Whether each member holds of the edge.
#[cycle(holds)]
fn all_hold(members: &[Pred], graph: &Graph, edge: EdgeNo) -> bool
    requires { edge.0 < length graph.now.ends }
    ensures { result ≡ list_all (truth graph.now edge.0) members.now }
{
    for member in members {
        if !holds(member, graph, edge) {
            return false;
        }
    }
    true
}

/// Whether each predicate of a view holds of the edge. It takes no memory.
pub fn rule_holds(rule: &ViewRule, graph: &Graph, edge: EdgeNo) -> bool
    requires { edge.0 < length graph.now.ends }
    ensures { result ≡ rule_truth graph.now edge.0 rule.now }
{
    all_hold(rule.rules.as_slice(), graph, edge)
}
