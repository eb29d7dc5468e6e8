//! The text of an order of views.

ghost use Rattle.std.specs.Prelude.{◌≡◌, ◌++◌, ◌≤◌, None, length, flat_map, codes, All, IfOk, OnOk, OnErr};
ghost use Rattle.std.specs.Prelude.{sum_by};
ghost use Rattle.std.specs.Fmt.{decimal};
ghost use Rattle.std.specs.List.{range_with_len};
ghost use Rattle.surge_outside.specs.Counts.{HasRisen};
ghost use Rattle.surge_outside.specs.Written.{GrewByFront, appended};
ghost use Rattle.result_tables.specs.TableText.{line_end};
ghost use Rattle.view_matrix.specs.Matrices.{IsView};
ghost use Rattle.view_order.specs.Greedy.{greedy, numbers};
ghost use Rattle.surge_session.specs.Output.{difference, with_distances, order_line, order_text};
ghost use Rattle.surge_session.specs.State.{Shows, shown_graph};

use graph_model::{Graph, ViewNo};
use gvdl_check::ViewPlan;
use std::alloc::Global;
use surge_outside::{List, NoMemory, Sink, Text, Trouble, put_all};
use view_matrix::Matrix;
use view_order::{greedy, views_from};

/// The lines of an order, and the sum of its distances.
#[derive(Drop)]
struct Lines {
    text: Vec<u8>,
    total: u64,
}

// The views of a matrix in greedy order.
fn greedy_order(
    alloc: Global,
    views: &[ViewPlan],
    matrix: &Matrix,
    graph: &Graph,
) -> Result<List<ViewNo>, NoMemory>
    requires shown { Shows (shown_graph graph.now matrix.now) matrix.now 0 views.now }
    requires all { length matrix.now.columns ≡ length views.now }
    ensures order { IfOk result (λ order. numbers order ≡ greedy (difference (shown_graph graph.now matrix.now) views.now) None (range_with_len 0 (length views.now))) }
    ensures views { IfOk result (All (IsView matrix.now)) }
    ensures few { IfOk result (λ order. length order ≤ 1_024) }
{
    let _all = matrix.views();
    let declared = views_from(alloc, matrix, 0)?;
    let order = greedy(alloc, matrix, None, declared.as_slice())?;
    Ok(order)
}

// Adds the line of a view.
fn push_line(alloc: Global, text: &mut Vec<u8>, name: &str, distance: u64) -> Result<(), NoMemory>
    ensures { OnOk result (text.new.items ≡ text.old.items ++ (name.now ++ (codes " " ++ (decimal distance ++ line_end)))) }
{
    text.extend_from_slice(name.as_bytes())?;
    let rest = format!(in alloc; " {distance}\n")?;
    text.extend_from_slice(rest.as_bytes())?;
    Ok(())
}

// A line for each view, with its distance from the one before.
fn order_lines(
    alloc: Global,
    views: &[ViewPlan],
    matrix: &Matrix,
    order: &[ViewNo],
    graph: &Graph,
) -> Result<Lines, NoMemory>
    requires shown { Shows (shown_graph graph.now matrix.now) matrix.now 0 views.now }
    requires all { length matrix.now.columns ≡ length views.now }
    requires views { All (IsView matrix.now) order.now }
    requires few { length order.now ≤ 1_024 }
    ensures text { IfOk result (λ lines. lines.text.items ≡ flat_map (order_line views.now) (with_distances (difference (shown_graph graph.now matrix.now) views.now) None (numbers order.now))) }
    ensures total { IfOk result (λ lines. lines.total ≡ sum_by (λ line. line.1) (with_distances (difference (shown_graph graph.now matrix.now) views.now) None (numbers order.now))) }
{
    let mut text = Vec::new(alloc);
    let mut total = 0u64;
    let mut before = None;
    for number in order {
        let distance = matrix.distance(before, *number);
        push_line(
            alloc,
            &mut text,
            views[number.0 as usize].name.as_str(),
            distance,
        )?;
        total += distance;
        before = Some(*number);
    }
    Ok(Lines { text, total })
}

// The greedy order of these views, which are those of the matrix, with the distance of each from the one before.
fn order_text(
    alloc: Global,
    collection: &str,
    views: &[ViewPlan],
    matrix: &Matrix,
    graph: &Graph,
) -> Result<Vec<u8>, NoMemory>
    requires shown { Shows (shown_graph graph.now matrix.now) matrix.now 0 views.now }
    requires all { length matrix.now.columns ≡ length views.now }
    ensures { IfOk result (λ text. text.items ≡ order_text (shown_graph graph.now matrix.now) collection.now views.now) }
{
    let order = greedy_order(alloc, views, matrix, graph)?;
    let Lines { text: lines, total } = order_lines(alloc, views, matrix, order.as_slice(), graph)?;
    let mut text = format!(in alloc; "order {collection} {total}\n")?.into_bytes();
    text.extend_from_slice(lines.as_slice())?;
    text.extend_from_slice(b"end\n")?;
    Ok(text)
}

/// Writes the greedy order of these views, which are those of the matrix, as one piece.
pub(crate) fn write_order<O: Sink>(
    alloc: Global,
    collection: &Text,
    views: &[ViewPlan],
    matrix: &Matrix,
    graph: &Graph,
    out: &mut O,
) -> Result<(), Trouble>
    requires shown { Shows (shown_graph graph.now matrix.now) matrix.now 0 views.now }
    requires all { length matrix.now.columns ≡ length views.now }
    ensures ok { OnOk result (O.written out.new ≡ appended (O.written out.old) (order_text (shown_graph graph.now matrix.now) collection.now views.now)) }
    ensures err { OnErr result (GrewByFront (O.written out.old) (O.written out.new) (order_text (shown_graph graph.now matrix.now) collection.now views.now)) }
    ensures faults { O.faults out.old ≤ O.faults out.new }
    ensures failed { result ≡ Err Trouble.Failed → HasRisen (O.faults out.old) (O.faults out.new) }
{
    match order_text(alloc, collection.as_str(), views, matrix, graph) {
        Ok(text) => put_all(out, text.as_slice()),
        Err(NoMemory) => Err(Trouble::NoMemory),
    }
}
