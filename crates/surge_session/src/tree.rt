//! The text of a tree of views.

ghost use Rattle.std.specs.Prelude.{◌≡◌, ◌++◌, ◌<◌, ◌≤◌, None, length, map, flat_map, codes, All, IfSome, OnOk, OnErr, IfOk};
ghost use Rattle.std.specs.Fmt.{decimal};
ghost use Rattle.std.specs.List.{range_with_len};
ghost use Rattle.surge_outside.specs.Counts.{HasRisen};
ghost use Rattle.surge_outside.specs.Written.{GrewByFront, appended};
ghost use Rattle.result_tables.specs.TableText.{line_end};
ghost use Rattle.view_matrix.specs.Matrices.{place_of, IsColumn, IsView};
ghost use Rattle.view_order.specs.Greedy.{numbers};
ghost use Rattle.tree_order.specs.Trees.{parents_of, tree, tree_walk, views_of, walked, weight};
ghost use Rattle.surge_session.specs.Output.{branch_line, difference, point_name, tree_text};
ghost use Rattle.surge_session.specs.State.{Shows, shown_graph};

use graph_model::{Graph, ViewNo};
use gvdl_check::ViewPlan;
use std::alloc::Global;
use surge_outside::{NoMemory, Sink, Text, Trouble, put_all};
use tree_order::{TreeOrder, tree_order};
use view_matrix::Matrix;
use view_order::views_from;

// The name of a point: a view, or the empty column.
fn point_name<'a>(views: &'a [ViewPlan], point: Option<ViewNo>) -> &'a str
    requires { IfSome point (λ v. v.0 < length views.now) }
    ensures { result.now ≡ point_name views.now (place_of point) }
{
    match point {
        None => "-",
        Some(view) => views[view.0 as usize].name.as_str(),
    }
}

// Adds the line of a view.
fn push_line(
    alloc: Global,
    text: &mut Vec<u8>,
    name: &str,
    point: &str,
    distance: u64,
) -> Result<(), NoMemory>
    ensures { OnOk result (text.new.items ≡ text.old.items ++ (name.now ++ (codes " " ++ (point.now ++ (codes " " ++ (decimal distance ++ line_end)))))) }
{
    text.extend_from_slice(name.as_bytes())?;
    let rest = format!(in alloc; " {point} {distance}\n")?;
    text.extend_from_slice(rest.as_bytes())?;
    Ok(())
}

// The tree order of these views, which are those of the matrix.
fn found_tree(
    alloc: Global,
    views: &[ViewPlan],
    matrix: &Matrix,
    graph: &Graph,
) -> Result<TreeOrder, NoMemory>
    requires shown { Shows (shown_graph graph.now matrix.now) matrix.now 0 views.now }
    requires all { length matrix.now.columns ≡ length views.now }
    ensures order { IfOk result (λ found. numbers found.order ≡ views_of (tree_walk (difference (shown_graph graph.now matrix.now) views.now) (range_with_len 0 (length views.now)))) }
    ensures parents { IfOk result (λ found. map place_of found.parents ≡ parents_of (tree_walk (difference (shown_graph graph.now matrix.now) views.now) (range_with_len 0 (length views.now)))) }
    ensures tree { IfOk result (λ found. found.tree ≡ weight (difference (shown_graph graph.now matrix.now) views.now) (tree (difference (shown_graph graph.now matrix.now) views.now) (range_with_len 0 (length views.now)))) }
    ensures length { IfOk result (λ found. found.length ≡ walked (difference (shown_graph graph.now matrix.now) views.now) None (views_of (tree_walk (difference (shown_graph graph.now matrix.now) views.now) (range_with_len 0 (length views.now))))) }
    ensures views { IfOk result (λ found. All (IsView matrix.now) found.order) }
    ensures points { IfOk result (λ found. All (IsColumn matrix.now) found.parents) }
{
    let _all = matrix.views();
    let declared = views_from(alloc, matrix, 0)?;
    let found = tree_order(alloc, matrix, declared.as_slice())?;
    Ok(found)
}

// A line for each view in the tree order, with its parent and the distance to it.
fn tree_lines(
    alloc: Global,
    views: &[ViewPlan],
    matrix: &Matrix,
    found: &TreeOrder,
    graph: &Graph,
) -> Result<Vec<u8>, NoMemory>
    requires shown { Shows (shown_graph graph.now matrix.now) matrix.now 0 views.now }
    requires all { length matrix.now.columns ≡ length views.now }
    requires order { numbers found.now.order ≡ views_of (tree_walk (difference (shown_graph graph.now matrix.now) views.now) (range_with_len 0 (length views.now))) }
    requires parents { map place_of found.now.parents ≡ parents_of (tree_walk (difference (shown_graph graph.now matrix.now) views.now) (range_with_len 0 (length views.now))) }
    requires views { All (IsView matrix.now) found.now.order }
    requires points { All (IsColumn matrix.now) found.now.parents }
    ensures { IfOk result (λ text. text.items ≡ flat_map (branch_line (difference (shown_graph graph.now matrix.now) views.now) views.now) (tree_walk (difference (shown_graph graph.now matrix.now) views.now) (range_with_len 0 (length views.now)))) }
{
    let mut text = Vec::new(alloc);
    let order = found.order.as_slice();
    let parents = found.parents.as_slice();
    for i in 0..order.len() {
        let view = order[i];
        let parent = parents[i];
        let distance = matrix.distance(parent, view);
        push_line(
            alloc,
            &mut text,
            views[view.0 as usize].name.as_str(),
            point_name(views, parent),
            distance,
        )?;
    }
    Ok(text)
}

fn tree_text(
    alloc: Global,
    collection: &str,
    views: &[ViewPlan],
    matrix: &Matrix,
    graph: &Graph,
) -> Result<Vec<u8>, NoMemory>
    requires shown { Shows (shown_graph graph.now matrix.now) matrix.now 0 views.now }
    requires all { length matrix.now.columns ≡ length views.now }
    ensures { IfOk result (λ text. text.items ≡ tree_text (shown_graph graph.now matrix.now) collection.now views.now) }
{
    let found = found_tree(alloc, views, matrix, graph)?;
    let lines = tree_lines(alloc, views, matrix, &found, graph)?;
    let weight = found.tree;
    let length = found.length;
    let mut text = format!(in alloc; "tree {collection} {weight} {length}\n")?.into_bytes();
    text.extend_from_slice(lines.as_slice())?;
    text.extend_from_slice(b"end\n")?;
    Ok(text)
}

/// Writes the tree order of these views, which are those of the matrix, with the tree, as one piece.
pub(crate) fn write_tree<O: Sink>(
    alloc: Global,
    collection: &Text,
    views: &[ViewPlan],
    matrix: &Matrix,
    graph: &Graph,
    out: &mut O,
) -> Result<(), Trouble>
    requires shown { Shows (shown_graph graph.now matrix.now) matrix.now 0 views.now }
    requires all { length matrix.now.columns ≡ length views.now }
    ensures ok { OnOk result (O.written out.new ≡ appended (O.written out.old) (tree_text (shown_graph graph.now matrix.now) collection.now views.now)) }
    ensures err { OnErr result (GrewByFront (O.written out.old) (O.written out.new) (tree_text (shown_graph graph.now matrix.now) collection.now views.now)) }
    ensures faults { O.faults out.old ≤ O.faults out.new }
    ensures failed { result ≡ Err Trouble.Failed → HasRisen (O.faults out.old) (O.faults out.new) }
{
    match tree_text(alloc, collection.as_str(), views, matrix, graph) {
        Ok(text) => put_all(out, text.as_slice()),
        Err(NoMemory) => Err(Trouble::NoMemory),
    }
}
