//! The arcs of one view by head, and of each only what a message is made of.

ghost use Rattle.std.specs.Prelude.{◌≡◌, ◌<◌, ◌≤◌, ◌+◌, ◌^◌, length, All, IfOk};
ghost use Rattle.arc_rows.specs.RowLists.{AreRows, IsGrouped};
ghost use Rattle.arc_rows.specs.Lives.{AreLive, AreRenewed, ArePut, IsLaid, IsRenewed, place_at, row_in};
ghost use Rattle.arc_rows.specs.Links.{tail_of, link_of};
ghost use Rattle.message_forms.specs.Forms.{AreProper};

use crate::rows::Rows;
use graph_model::{Graph, NodeNo};
use message_forms::{Link, step_of};
use std::alloc::Global;
use surge_outside::NoMemory;
use vertex_lang::Arc;

/// For each node some items. There is room for one of each arc that comes to the node in any view.
#[derive(Debug, Drop)]
pub struct Live<T> {
    pub items: Vec<T>,
    /// Where those of each node stand.
    pub places: Vec<Place>,
}

/// Where the items of a node begin, and how many there are.
#[derive(Clone, Copy, Debug)]
pub struct Place {
    pub from: u32,
    pub count: u32,
}

impl<T> Live<T> {
    /// The items of a node.
    pub fn row(&self, node: NodeNo) -> &[T]
        requires node { node.0 < length self.now.places.items }
        requires within { let place = place_at self.now.places.items node.0 in
            place.from + place.count ≤ length self.now.items.items }
        ensures { result.now ≡ row_in self.now.items.items self.now.places.items node.0 }
    {
        let place = self.places[node.0 as usize];
        let from = place.from as usize;
        &self.items[from..from + place.count as usize]
    }
}

/// The tails of the arcs of a view into each node. The error is want of memory.
pub fn live_tails(
    alloc: Global,
    graph: &Graph,
    rows: &Rows,
    edges: &[bool],
) -> Result<Live<NodeNo>, NoMemory>
    requires rows { AreRows graph.now rows.now }
    requires edges { length edges.now ≡ length graph.now.ends }
    ensures { IfOk result (AreLive tail_of rows.now.by_head edges.now (length graph.now.ids)) }
{
    let count = graph.node_count();
    let mut live = laid(alloc, rows, count, NodeNo(0))?;
    let everyone = vec![in alloc; true; count as usize]?;
    renew_tails(&mut live, graph, rows, edges, &everyone);
    Ok(live)
}

/// The tails of the arcs of a view by head, and with each a property of its edge. The error is want of memory.
pub fn live_links(
    alloc: Global,
    graph: &Graph,
    rows: &Rows,
    edges: &[bool],
    column: u32,
) -> Result<Live<Link>, NoMemory>
    requires rows { AreRows graph.now rows.now }
    requires edges { length edges.now ≡ length graph.now.ends }
    ensures links { IfOk result (AreLive (link_of graph.now column) rows.now.by_head edges.now (length graph.now.ids)) }
    ensures proper { IfOk result (λ live. AreProper graph.now column) }
{
    // No cell is the number that stands for none.
    let _columns = graph.edge_columns();
    let count = graph.node_count();
    let nothing = Link {
        tail: NodeNo(0),
        step: 0,
    };
    let mut live = laid(alloc, rows, count, nothing)?;
    let everyone = vec![in alloc; true; count as usize]?;
    renew_links(&mut live, graph, rows, edges, column, &everyone);
    Ok(live)
}

// Room for one item of each arc, and none in it yet.
fn laid<T: Copy>(alloc: Global, rows: &Rows, count: u32, item: T) -> Result<Live<T>, NoMemory>
    requires grouped { IsGrouped (λ a. a.head.0) rows.now.by_head rows.now.head_ends count }
    requires few { length rows.now.by_head < 2 ^ 32 }
    ensures { IfOk result (IsLaid rows.now.by_head count) }
{
    let items = vec![in alloc; item; rows.arcs().len()]?;
    let mut places = Vec::with_capacity(alloc, count as usize)?;
    let mut from = 0;
    for node in 0..count {
        places.push(Place {
            from: from as u32,
            count: 0,
        })?;
        from += rows.into(NodeNo(node)).len();
    }
    Ok(Live { items, places })
}

/// Makes the tails of these nodes anew, for a view.
pub fn renew_tails(
    live: &mut Live<NodeNo>,
    graph: &Graph,
    rows: &Rows,
    edges: &[bool],
    nodes: &[bool],
)
    requires rows { AreRows graph.now rows.now }
    requires edges { length edges.now ≡ length graph.now.ends }
    requires nodes { length nodes.now ≡ length graph.now.ids }
    requires laid { IsLaid rows.now.by_head (length graph.now.ids) live.old }
    ensures { let count = length graph.now.ids in
        AreRenewed tail_of rows.now.by_head edges.now count nodes.now count live.old live.new }
{
    for node in 0..graph.node_count() {
        if nodes[node as usize] {
            renew_tails_of(live, graph, rows, edges, NodeNo(node));
        }
    }
}

// Those of one node.
fn renew_tails_of(live: &mut Live<NodeNo>, graph: &Graph, rows: &Rows, edges: &[bool], node: NodeNo)
    requires rows { AreRows graph.now rows.now }
    requires edges { length edges.now ≡ length graph.now.ends }
    requires node { node.0 < length graph.now.ids }
    requires laid { IsLaid rows.now.by_head (length graph.now.ids) live.old }
    ensures { IsRenewed tail_of rows.now.by_head edges.now (length graph.now.ids) node.0 live.old live.new }
{
    let from = live.places[node.0 as usize].from;
    let row = rows.into(node);
    let count = put_tails(&mut live.items, from as usize, row, edges);
    live.places[node.0 as usize] = Place {
        from,
        count: count as u32,
    };
}

// Puts the tails of those of these arcs whose edge is in the view behind the first so many, and tells how many they are.
// Each tail is put there, and counted only where it stays: so no branch rests on the view.
fn put_tails(tails: &mut Vec<NodeNo>, from: usize, row: &[Arc], edges: &[bool]) -> usize
    requires row { All (λ a. a.edge.0 < length edges.now) row.now }
    requires room { from + length row.now ≤ length tails.old.items }
    ensures { ArePut tail_of edges.now from (length row.now) row.now result tails.old.items tails.new.items }
{
    let mut count = 0;
    for arc in row {
        tails[from + count] = arc.tail;
        count += usize::from(edges[arc.edge.0 as usize]);
    }
    count
}

/// Makes the links of these nodes anew, for a view.
pub fn renew_links(
    live: &mut Live<Link>,
    graph: &Graph,
    rows: &Rows,
    edges: &[bool],
    column: u32,
    nodes: &[bool],
)
    requires rows { AreRows graph.now rows.now }
    requires edges { length edges.now ≡ length graph.now.ends }
    requires nodes { length nodes.now ≡ length graph.now.ids }
    requires laid { IsLaid rows.now.by_head (length graph.now.ids) live.old }
    ensures { let count = length graph.now.ids in
        AreRenewed (link_of graph.now column) rows.now.by_head edges.now count nodes.now count live.old live.new }
{
    for node in 0..graph.node_count() {
        if nodes[node as usize] {
            renew_links_of(live, graph, rows, edges, column, NodeNo(node));
        }
    }
}

// Those of one node.
fn renew_links_of(
    live: &mut Live<Link>,
    graph: &Graph,
    rows: &Rows,
    edges: &[bool],
    column: u32,
    node: NodeNo,
)
    requires rows { AreRows graph.now rows.now }
    requires edges { length edges.now ≡ length graph.now.ends }
    requires node { node.0 < length graph.now.ids }
    requires laid { IsLaid rows.now.by_head (length graph.now.ids) live.old }
    ensures { IsRenewed (link_of graph.now column) rows.now.by_head edges.now (length graph.now.ids) node.0 live.old live.new }
{
    let from = live.places[node.0 as usize].from;
    let row = rows.into(node);
    let count = put_links(&mut live.items, from as usize, graph, row, edges, column);
    live.places[node.0 as usize] = Place {
        from,
        count: count as u32,
    };
}

// Puts the tails of those arcs that are in the view, each with the property of its edge, from a place on, and tells how many.
fn put_links(
    links: &mut Vec<Link>,
    from: usize,
    graph: &Graph,
    row: &[Arc],
    edges: &[bool],
    column: u32,
) -> usize
    requires row { All (λ a. a.edge.0 < length edges.now) row.now }
    requires edges { length edges.now ≡ length graph.now.ends }
    requires room { from + length row.now ≤ length links.old.items }
    ensures { ArePut (link_of graph.now column) edges.now from (length row.now) row.now result links.old.items links.new.items }
{
    let mut count = 0;
    for arc in row {
        if edges[arc.edge.0 as usize] {
            links[from + count] = Link {
                tail: arc.tail,
                step: step_of(graph, arc.edge, column),
            };
            count += 1;
        }
    }
    count
}
