//! What an arc brings in a round of a view.

ghost use Rattle.std.specs.Prelude.{true, if◌then◌else◌, ℕ, ◌≡◌, ◌<◌, ◌++◌, not, false, List, length, fold, filter, All, IfOk, OnOk, IsTrue, IsFalse, [], ◌∷◌};
ghost use Rattle.graph_model.specs.declared.value.Val.{Val};
ghost use Rattle.vertex_lang.specs.Arcs.{IsArc, is_sent};
ghost use Rattle.vertex_lang.specs.Lone.{same_value};
ghost use Rattle.multisets.specs.Multisets.{are_one};
ghost use Rattle.graph_model.specs.declared.value.Val.TheVariants.{Nil};
ghost use Rattle.vertex_lang.specs.Values.{lesser, added};
ghost use Rattle.vertex_lang.specs.Rounds.{value_at};
ghost use Rattle.message_forms.specs.Codes.{value_in};
ghost use Rattle.arc_rows.specs.Views.{in_view};
ghost use Rattle.round_inputs.specs.Inputs.{AreLeft};
ghost use Rattle.round_inputs.specs.Movers.{InMovers, moves};
ghost use Rattle.round_inputs.specs.TwoRounds.{bring_other, left_brings, left_brought, right_brings, right_brought, AreSentRight, AreTwoRounds, TellsTurned};

use crate::rounds::TwoRounds;
use arc_rows::has_edge;
use change_lists::is_other;
use graph_model::{NodeNo, Val};
use message_forms::{send, step_column, step_of, with_step};
use multisets::are_one_multiset;
use round_messages::{Side, message};
use surge_outside::NoMemory;
use vertex_lang::Arc;
use vertex_lang::arithmetic::lesser_of;

/// Lists that are filled and emptied again.
#[derive(Drop)]
pub struct Scratch {
    pub left: Vec<Val>,
    pub right: Vec<Val>,
    /// Nodes that were picked stand first in it, and what is behind them means nothing.
    pub picked: Vec<NodeNo>,
}

/// Whether these arcs bring different messages in two rounds, as multisets. The error is want of memory.
pub fn differ(rounds: &TwoRounds<'_>, row: &[Arc], scratch: &mut Scratch) -> Result<bool, NoMemory>
    requires rounds { AreTwoRounds rounds.now }
    requires row { All (IsArc rounds.now.left.now.graph.now) row.now }
    requires turned { All (TellsTurned rounds.now) row.now }
    requires right_sent { AreSentRight rounds.now }
    ensures { IfOk result (λ b. b ≡ bring_other rounds.now row.now) }
{
    scratch.left.clear();
    scratch.right.clear();
    fill(rounds, row, &mut scratch.left, &mut scratch.right)?;
    Ok(are_unlike(scratch))
}

/// Whether the two lists are different multisets. Their order may change.
pub fn are_unlike(scratch: &mut Scratch) -> bool
    ensures { result ≡ not (are_one same_value scratch.old.left.items scratch.old.right.items) }
{
    if scratch.left.is_empty() && scratch.right.is_empty() {
        return false;
    }
    if told_apart(&scratch.left, &scratch.right) {
        return true;
    }
    let same = are_one_multiset(&mut scratch.left, &mut scratch.right);
    !same
}

// Whether two lists are seen to be different multisets by how many messages they have and by the least one, with no sort.
fn told_apart(left: &[Val], right: &[Val]) -> bool
    ensures { IsTrue result → are_one same_value left.now right.now ≡ false }
{
    if left.len() != right.len() {
        return true;
    }
    is_other(least_of(left), least_of(right))
}

// The least of some messages, and none of no message.
fn least_of(messages: &[Val]) -> Val
    ensures { result ≡ fold lesser Nil messages.now }
{
    let mut least = Val::Nil;
    for message in messages {
        least = lesser_of(least, *message);
    }
    least
}

// Puts into two lists what these arcs bring in two rounds, without what they bring in both.
fn fill(
    rounds: &TwoRounds<'_>,
    row: &[Arc],
    first: &mut Vec<Val>,
    second: &mut Vec<Val>,
) -> Result<(), NoMemory>
    requires rounds { AreTwoRounds rounds.now }
    requires row { All (IsArc rounds.now.left.now.graph.now) row.now }
    requires turned { All (TellsTurned rounds.now) row.now }
    requires right_sent { AreSentRight rounds.now }
    requires first { first.old.items ≡ [] }
    requires second { second.old.items ≡ [] }
    ensures { OnOk result (AreLeft first.new.items second.new.items (left_brought rounds.now row.now) (right_brought rounds.now row.now)) }
{
    for arc in row {
        push_both(rounds, *arc, first, second)?;
    }
    Ok(())
}

// Adds to two lists what an arc brings in two rounds, but to neither what it brings in both.
fn push_both(
    rounds: &TwoRounds<'_>,
    arc: Arc,
    first: &mut Vec<Val>,
    second: &mut Vec<Val>,
) -> Result<(), NoMemory>
    requires rounds { AreTwoRounds rounds.now }
    requires arc { IsArc rounds.now.left.now.graph.now arc }
    requires turned { TellsTurned rounds.now arc }
    requires right_sent { AreSentRight rounds.now }
    ensures { OnOk result ((all more : List Val) → AreLeft first.old.items second.old.items all more → AreLeft first.new.items second.new.items
        (all ++ filter is_sent (left_brings rounds.now arc ∷ []))
        (more ++ filter is_sent (right_brings rounds.now arc ∷ []))) }
{
    if !may_differ(rounds, arc) {
        return Ok(());
    }
    let (here, there) = messages(rounds, arc);
    push_unlike(first, second, here, there)
}

// What an arc brings in two rounds. Where a property of its edge is added, that is looked up once for both.
fn messages(rounds: &TwoRounds<'_>, arc: Arc) -> (Val, Val)
    requires rounds { AreTwoRounds rounds.now }
    requires arc { IsArc rounds.now.left.now.graph.now arc }
    requires right_sent { AreSentRight rounds.now }
    ensures left { result.0 ≡ left_brings rounds.now arc }
    ensures right { result.1 ≡ right_brings rounds.now arc }
{
    let left = rounds.left;
    if !left.side.alike {
        if let Some(column) = step_column(left.program) {
            let step = step_of(left.graph, arc.edge, column);
            return (
                stepped_over(&left.side, arc, step),
                stepped_over(rounds.right, arc, step),
            );
        }
    }
    (
        message(left.program, left.graph, &left.side, arc),
        message(left.program, left.graph, rounds.right, arc),
    )
}

// What an arc brings where that is the value of its tail and this number added: none where its edge is not in the view.
fn stepped_over(side: &Side<'_>, arc: Arc, step: i64) -> Val
    requires edge { arc.edge.0 < length side.now.edges.now }
    requires tail { arc.tail.0 < length side.now.values.now }
    ensures { result ≡ (if in_view side.now.edges.now arc then added true (value_at side.now.values.now arc.tail.0) (value_in step) else Nil) }
{
    if side.edges[arc.edge.0 as usize] {
        with_step(side.values[arc.tail.0 as usize], step)
    } else {
        Val::Nil
    }
}

/// Adds a message to each of two lists, but no message to both.
pub fn push_unlike(
    first: &mut Vec<Val>,
    second: &mut Vec<Val>,
    here: Val,
    there: Val,
) -> Result<(), NoMemory>
    ensures { OnOk result ((all more : List Val) → AreLeft first.old.items second.old.items all more
        → AreLeft first.new.items second.new.items (all ++ filter is_sent (here ∷ [])) (more ++ filter is_sent (there ∷ []))) }
{
    if is_other(here, there) {
        push_sent(first, here)?;
        push_sent(second, there)?;
    }
    Ok(())
}

// Whether an arc may bring something else in one round than in the other: where its tail may send something else, or
// its edge is in one of the two views alone.
fn may_differ(rounds: &TwoRounds<'_>, arc: Arc) -> bool
    requires movers { InMovers rounds.now.movers arc.tail.0 }
    requires left_edges { arc.edge.0 < length rounds.now.left.now.side.edges.now }
    requires right_edges { arc.edge.0 < length rounds.now.right.now.edges.now }
    requires turned { TellsTurned rounds.now arc }
    ensures edges { IsFalse result → in_view rounds.now.left.now.side.edges.now arc ≡ in_view rounds.now.right.now.edges.now arc }
    ensures tail { IsFalse result → moves rounds.now.movers arc.tail.0 ≡ false }
{
    rounds.movers.moves(arc.tail) || is_turned(rounds, arc)
}

// Whether the edge of an arc is in one of two views alone, given the arcs for which it may be so. Where they are few they
// are near at hand, and the views are not looked at.
fn is_turned(rounds: &TwoRounds<'_>, arc: Arc) -> bool
    requires left { arc.edge.0 < length rounds.now.left.now.side.edges.now }
    requires right { arc.edge.0 < length rounds.now.right.now.edges.now }
    requires told { TellsTurned rounds.now arc }
    ensures { IsFalse result → in_view rounds.now.left.now.side.edges.now arc ≡ in_view rounds.now.right.now.edges.now arc }
{
    if rounds.turned.len() > 8 {
        let edge = arc.edge.0 as usize;
        let left = rounds.left;
        let right = rounds.right;
        return left.side.edges[edge] != right.edges[edge];
    }
    has_edge(rounds.turned, arc.edge)
}

// Adds a message. None is not sent.
fn push_sent(messages: &mut Vec<Val>, message: Val) -> Result<(), NoMemory>
    ensures { OnOk result (messages.new.items ≡ messages.old.items ++ filter is_sent (message ∷ [])) }
{
    if message != Val::Nil {
        messages.push(message)?;
    }
    Ok(())
}
