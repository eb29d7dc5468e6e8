//! Whether a node gets something else in two rounds, found by what is listed of its arcs: no arc and no view is looked at.

ghost use Rattle.std.specs.Prelude.{◌≡◌, ◌<◌, ◌≤◌, ◌==◌, ◌++◌, ◌∷◌, [], ℕ, not, true, false, List, length, take, filter, get_or, All, IfOk, IfSome, OnOk};
ghost use Rattle.graph_model.specs.declared.value.Val.{Val};
ghost use Rattle.vertex_lang.specs.Arcs.{is_sent};
ghost use Rattle.vertex_lang.specs.Lone.{same_value};
ghost use Rattle.multisets.specs.Multisets.{are_one};
ghost use Rattle.message_forms.specs.Forms.{HasForm};
ghost use Rattle.round_inputs.specs.Links.{brought_over, values_over};
ghost use Rattle.value_codes.specs.Numbers.{number_over, sent_over};
ghost use Rattle.round_inputs.specs.Inputs.{AreLeft};
ghost use Rattle.round_inputs.specs.Movers.{InMovers, moves};
ghost use Rattle.round_inputs.specs.StillLinks.{IsStillOver};
ghost use Rattle.round_inputs.specs.TwoRounds.{bring_other, left_sends, left_sent, right_sends, right_sent, row_in, send_other, AreTwoRounds, IsSourceOf, IsViewRound, TellsTurned};

use crate::compare::{Scratch, are_unlike, push_unlike};
use crate::movers::Movers;
use crate::rounds::TwoRounds;
use crate::source::MessageSource;
use graph_model::{EdgeNo, NodeNo, Val};
use message_forms::{Form, Link, form_of, send_by, value_of, with_step};
use round_messages::kept;
use surge_outside::NoMemory;
use vertex_lang::Updater;

/// Whether the messages that a node gets differ in two rounds, as multisets. Nothing where arcs are told that may be in one of two
/// views alone, or the tails of those in the view aren't listed. The error is want of memory.
pub fn differ_if_listed<U: Updater>(
    rounds: &TwoRounds<'_>,
    source: &MessageSource,
    node: NodeNo,
    scratch: &mut Scratch,
    _updater: &U,
) -> Result<Option<bool>, NoMemory>
    requires round { IsViewRound U.answer rounds.now.left.now }
    requires rounds { AreTwoRounds rounds.now }
    requires node { node.0 < length rounds.now.left.now.graph.now.ids }
    requires source { IsSourceOf U.answer rounds.now.left.now source.now }
    requires turned { All (TellsTurned rounds.now) (row_in rounds.now.left.now node.0) }
    ensures { IfOk result (λ found. IfSome found (λ b. b ≡ bring_other rounds.now (row_in rounds.now.left.now node.0))) }
{
    if !rounds.turned.is_empty() {
        return Ok(None);
    }
    match source {
        MessageSource::Messages(live) if rounds.left.side.alike => match live {
            Some(tails) => {
                let row = tails.row(node);
                let differ = differ_by_tails(rounds, row, scratch)?;
                Ok(Some(differ))
            }
            None => Ok(None),
        },
        MessageSource::Steps(_, numbers, live) => match live {
            Some(links) => {
                let row = links.row(node);
                let values = rounds.right.values;
                let differ = differ_by_links(numbers, values, rounds.movers, row, scratch)?;
                Ok(Some(differ))
            }
            None => Ok(None),
        },
        _ => Ok(None),
    }
}

// Whether these nodes send different messages in two rounds, as multisets, where those of the first round are kept. The message
// of a node is the same along each edge.
fn differ_by_tails(
    rounds: &TwoRounds<'_>,
    tails: &[NodeNo],
    scratch: &mut Scratch,
) -> Result<bool, NoMemory>
    requires rounds { AreTwoRounds rounds.now }
    requires edge { 0 < length rounds.now.left.now.graph.now.ends }
    requires tails { All (λ t. t.0 < length rounds.now.left.now.graph.now.ids) tails.now }
    requires alike { rounds.now.left.now.side.alike ≡ true }
    ensures { IfOk result (λ b. b ≡ send_other rounds.now tails.now) }
{
    scratch.left.clear();
    scratch.right.clear();
    fill_by_tails(
        rounds,
        tails,
        &mut scratch.picked,
        &mut scratch.left,
        &mut scratch.right,
    )?;
    Ok(are_unlike(scratch))
}

// Puts into two lists what these nodes send in two rounds, without what they send in both. Those that may send something else
// are picked first, into a list that may hold anything.
fn fill_by_tails(
    rounds: &TwoRounds<'_>,
    tails: &[NodeNo],
    picked: &mut Vec<NodeNo>,
    first: &mut Vec<Val>,
    second: &mut Vec<Val>,
) -> Result<(), NoMemory>
    requires rounds { AreTwoRounds rounds.now }
    requires edge { 0 < length rounds.now.left.now.graph.now.ends }
    requires tails { All (λ t. t.0 < length rounds.now.left.now.graph.now.ids) tails.now }
    requires alike { rounds.now.left.now.side.alike ≡ true }
    requires first { first.old.items ≡ [] }
    requires second { second.old.items ≡ [] }
    ensures { OnOk result (AreLeft first.new.items second.new.items (left_sent rounds.now tails.now) (right_sent rounds.now tails.now)) }
{
    let form = form_of(rounds.left.program);
    let count = pick(rounds.movers, tails, picked)?;
    for tail in &picked[..count] {
        push_from_tail(form, rounds, *tail, first, second)?;
    }
    Ok(())
}

// Puts those of these nodes that may send something else into the first places of a list, whatever it holds, and tells how
// many they are. What tells it is asked once, and no longer at each node.
fn pick(movers: Movers<'_>, tails: &[NodeNo], picked: &mut Vec<NodeNo>) -> Result<usize, NoMemory>
    requires { All (λ t. InMovers movers t.0) tails.now }
    ensures within { IfOk result (λ count. count ≤ length picked.new.items) }
    ensures picked { IfOk result (λ count. take count picked.new.items ≡ filter (λ t. moves movers.entry t.0) tails.now) }
{
    make_room(picked, tails.len())?;
    match movers {
        Movers::Views(apart) => Ok(pick_apart(apart, tails, picked)),
        Movers::Rounds(moved, stamp) => Ok(pick_moved(moved, stamp, tails, picked)),
    }
}

// Brings a list to at least so many items.
fn make_room(picked: &mut Vec<NodeNo>, count: usize) -> Result<(), NoMemory>
    ensures { OnOk result (count ≤ length picked.new.items) }
{
    while picked.len() < count {
        picked.push(NodeNo(0))?;
    }
    Ok(())
}

// Picks the nodes with a flag. Each is put there, and counted only where it has one: so no branch rests on what is told.
fn pick_apart(apart: &[bool], tails: &[NodeNo], picked: &mut [NodeNo]) -> usize
    requires tails { All (λ t. t.0 < length apart.now) tails.now }
    requires room { length tails.now ≤ length picked.old }
    ensures size { length picked.new ≡ length picked.old }
    ensures within { result ≤ length picked.new }
    ensures picked { take result picked.new ≡ filter (λ t. get_or apart.now t.0 false) tails.now }
{
    let mut count = 0;
    for tail in tails {
        picked[count] = *tail;
        count += usize::from(apart[tail.0 as usize]);
    }
    count
}

// Picks the nodes with this stamp, in the same way.
fn pick_moved(moved: &[u8], stamp: u8, tails: &[NodeNo], picked: &mut [NodeNo]) -> usize
    requires tails { All (λ t. t.0 < length moved.now) tails.now }
    requires room { length tails.now ≤ length picked.old }
    ensures size { length picked.new ≡ length picked.old }
    ensures within { result ≤ length picked.new }
    ensures picked { take result picked.new ≡ filter (λ t. get_or moved.now t.0 0 == stamp) tails.now }
{
    let mut count = 0;
    for tail in tails {
        picked[count] = *tail;
        count += usize::from(moved[tail.0 as usize] == stamp);
    }
    count
}

// Adds to two lists what a node sends in two rounds, but to neither what it sends in both, given the form of the message.
fn push_from_tail(
    form: Form,
    rounds: &TwoRounds<'_>,
    tail: NodeNo,
    first: &mut Vec<Val>,
    second: &mut Vec<Val>,
) -> Result<(), NoMemory>
    requires form { HasForm rounds.now.left.now.program.now form }
    requires rounds { AreTwoRounds rounds.now }
    requires edge { 0 < length rounds.now.left.now.graph.now.ends }
    requires tail { tail.0 < length rounds.now.left.now.graph.now.ids }
    requires alike { rounds.now.left.now.side.alike ≡ true }
    ensures { OnOk result ((all more : List Val) → AreLeft first.old.items second.old.items all more → AreLeft first.new.items second.new.items
        (all ++ filter is_sent (left_sends rounds.now tail ∷ []))
        (more ++ filter is_sent (right_sends rounds.now tail ∷ []))) }
{
    let place = tail.0 as usize;
    let left = rounds.left;
    let right = rounds.right;
    let here = kept(left.side.sent, place);
    let there = send_by(
        form,
        left.program,
        left.graph,
        tail,
        right.values[place],
        right.degrees[place],
        EdgeNo(0),
    );
    push_unlike(first, second, here, there)
}

// Whether these arcs bring different messages in two rounds, as multisets, where each brings the value of its tail and its
// number added, and it is told which nodes may send something else. In the first round values are kept as numbers.
fn differ_by_links(
    numbers: &[i64],
    values: &[Val],
    movers: Movers<'_>,
    links: &[Link],
    scratch: &mut Scratch,
) -> Result<bool, NoMemory>
    requires numbers { All (λ l. l.tail.0 < length numbers.now) links.now }
    requires values { All (λ l. l.tail.0 < length values.now) links.now }
    requires movers { All (λ l. InMovers movers l.tail.0) links.now }
    requires still { All (IsStillOver movers numbers.now values.now) links.now }
    ensures { IfOk result (λ b. b ≡ not (are_one same_value (sent_over numbers.now links.now) (values_over values.now links.now))) }
{
    scratch.left.clear();
    scratch.right.clear();
    fill_by_links(
        numbers,
        values,
        movers,
        links,
        &mut scratch.left,
        &mut scratch.right,
    )?;
    Ok(are_unlike(scratch))
}

// Puts into two lists what these arcs bring in two rounds, without what they bring in both.
fn fill_by_links(
    numbers: &[i64],
    values: &[Val],
    movers: Movers<'_>,
    links: &[Link],
    first: &mut Vec<Val>,
    second: &mut Vec<Val>,
) -> Result<(), NoMemory>
    requires numbers { All (λ l. l.tail.0 < length numbers.now) links.now }
    requires values { All (λ l. l.tail.0 < length values.now) links.now }
    requires movers { All (λ l. InMovers movers l.tail.0) links.now }
    requires still { All (IsStillOver movers numbers.now values.now) links.now }
    requires first { first.old.items ≡ [] }
    requires second { second.old.items ≡ [] }
    ensures { OnOk result (AreLeft first.new.items second.new.items (sent_over numbers.now links.now) (values_over values.now links.now)) }
{
    for link in links {
        push_over_link(numbers, values, movers, *link, first, second)?;
    }
    Ok(())
}

// Adds to two lists what an arc brings in two rounds, but to neither what it brings in both.
fn push_over_link(
    numbers: &[i64],
    values: &[Val],
    movers: Movers<'_>,
    link: Link,
    first: &mut Vec<Val>,
    second: &mut Vec<Val>,
) -> Result<(), NoMemory>
    requires number { link.tail.0 < length numbers.now }
    requires value { link.tail.0 < length values.now }
    requires movers { InMovers movers link.tail.0 }
    requires still { IsStillOver movers numbers.now values.now link }
    ensures { OnOk result ((all more : List Val) → AreLeft first.old.items second.old.items all more → AreLeft first.new.items second.new.items
        (all ++ filter is_sent (number_over numbers.now link ∷ []))
        (more ++ filter is_sent (brought_over values.now link ∷ []))) }
{
    if !movers.moves(link.tail) {
        return Ok(());
    }
    let place = link.tail.0 as usize;
    let here = with_step(value_of(numbers[place]), link.step);
    let there = with_step(values[place], link.step);
    push_unlike(first, second, here, there)
}
