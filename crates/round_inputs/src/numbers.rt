//! Values as numbers of eight bytes, so that those of many nodes stay near.

ghost use Rattle.std.specs.Prelude.{◌≡◌, ◌<◌, ◌^◌, length, All};
ghost use Rattle.vertex_lang.specs.Values.{added};
ghost use Rattle.message_forms.specs.Codes.{value_in};
ghost use Rattle.round_inputs.specs.Numbers.{brought_by, brought_with, sent_in_view, sent_with};
ghost use Rattle.value_codes.specs.Tallies.{tally_of};

use graph_model::Graph;
use message_forms::{NONE, step_of, sum_of};
use value_codes::{Codes, Span, Tally};
use vertex_lang::{Arc, Gather};

/// What comes of arcs that bring the numbers of their tails. What isn't in the view brings none.
pub fn tally_arcs(kind: Gather, numbers: &Codes, edges: &[bool], row: &[Arc]) -> Tally
    requires few { length row.now < 2 ^ 32 }
    requires tails { All (λ a. a.tail.0 < length numbers.now) row.now }
    requires edges { All (λ a. a.edge.0 < length edges.now) row.now }
    ensures { result ≡ tally_of kind (sent_in_view numbers.now edges.now row.now) }
{
    let mut span = Span::new();
    for arc in row {
        span = span.with(number_over(numbers, edges, *arc));
    }
    span.tally(kind)
}

// The number that an arc brings.
fn number_over(numbers: &Codes, edges: &[bool], arc: Arc) -> i64
    requires tail { arc.tail.0 < length numbers.now }
    requires edge { arc.edge.0 < length edges.now }
    ensures { value_in result ≡ brought_by numbers.now edges.now arc }
{
    if edges[arc.edge.0 as usize] {
        numbers.at(arc.tail.0 as usize)
    } else {
        NONE
    }
}

/// What comes of arcs that bring the number of their tail and a property of their edge added. What isn't in the view brings
/// none.
pub fn tally_steps(
    kind: Gather,
    graph: &Graph,
    column: u32,
    numbers: &[i64],
    edges: &[bool],
    row: &[Arc],
) -> Tally
    requires few { length row.now < 2 ^ 32 }
    requires tails { All (λ a. a.tail.0 < length numbers.now) row.now }
    requires edges { All (λ a. a.edge.0 < length edges.now) row.now }
    requires size { length edges.now ≡ length graph.now.ends }
    ensures { result ≡ tally_of kind (sent_with graph.now column numbers.now edges.now row.now) }
{
    let mut span = Span::new();
    for arc in row {
        span = span.with(number_with_step(graph, column, numbers, edges, *arc));
    }
    span.tally(kind)
}

// The number that an arc brings, with the property of its edge added.
fn number_with_step(graph: &Graph, column: u32, numbers: &[i64], edges: &[bool], arc: Arc) -> i64
    requires tail { arc.tail.0 < length numbers.now }
    requires edge { arc.edge.0 < length edges.now }
    requires size { length edges.now ≡ length graph.now.ends }
    ensures { value_in result ≡ brought_with graph.now column numbers.now edges.now arc }
{
    if edges[arc.edge.0 as usize] {
        sum_of(
            numbers[arc.tail.0 as usize],
            step_of(graph, arc.edge, column),
        )
    } else {
        NONE
    }
}
