//! What is kept of the arcs of a view and of a round's values, so that a node's messages are found fast.

ghost use Rattle.std.specs.Prelude.{◌≡◌, ◌<◌, ◌+◌, length, IfOk, IfSome};
ghost use Rattle.round_kernel.specs.Sources.{StandsSource};
ghost use Rattle.round_kernel.specs.Frames.{IsFrame, StandAt, count_in, lone_at, was_touched_at};
ghost use Rattle.change_lists.specs.ChangeLists.{HasChanges};
ghost use Rattle.arc_rows.specs.Listings.{AreLinks, AreTails, IsListed};
ghost use Rattle.arc_rows.specs.RowLists.{AreRows};

use crate::frame::{Frame, Lists, is_brief};
use arc_rows::{Listed, Live, live_links, live_tails};
use change_lists::Change;
use graph_model::NodeNo;
use message_forms::{Link, step_column};
use round_inputs::MessageSource;
use std::alloc::Global;
use surge_outside::NoMemory;
use value_codes::{numbers_of, renew};
use vertex_lang::Updater;

/// At round 0. In a brief step nothing is kept. The error is want of memory.
pub(crate) fn first_source<U: Updater>(
    alloc: Global,
    frame: Frame<'_>,
    lists: &Lists,
    listed: Listed,
    _updater: &U,
) -> Result<MessageSource, NoMemory>
    requires frame { IsFrame U.answer frame frame.limit }
    requires at { StandAt U.answer frame 0 (was_touched_at U.answer frame 0) lists.now }
    requires listed { IsListed frame.graph.now frame.rows.now.by_head frame.new.now listed }
    ensures { IfOk result (StandsSource U.answer frame.entry 0) }
{
    if is_brief(frame) {
        return Ok(MessageSource::Nothing);
    }
    if lists.alike {
        return Ok(MessageSource::Messages(listed.tails()));
    }
    match step_column(frame.program) {
        Some(column) => match numbers_of(alloc, &lists.new_now)? {
            Some(numbers) => Ok(MessageSource::Steps(column, numbers, listed.links(column))),
            None => Ok(MessageSource::Nothing),
        },
        None => Ok(MessageSource::Nothing),
    }
}

/// With the arcs of the new view, made where they aren't kept yet. The error is want of memory.
pub(crate) fn with_arcs<U: Updater>(
    source: MessageSource,
    alloc: Global,
    frame: Frame<'_>,
    _round: u32,
    _updater: &U,
) -> Result<MessageSource, NoMemory>
    requires frame { IsFrame U.answer frame frame.limit }
    requires source { StandsSource U.answer frame _round source }
    ensures { IfOk result (StandsSource U.answer frame.entry _round) }
{
    match source {
        MessageSource::Messages(kept) => {
            let live = tails_of(alloc, frame, kept)?;
            Ok(MessageSource::Messages(Some(live)))
        }
        MessageSource::Steps(column, numbers, kept) => {
            let live = links_of(alloc, frame, column, kept)?;
            Ok(MessageSource::Steps(column, numbers, Some(live)))
        }
        MessageSource::Nothing => Ok(MessageSource::Nothing),
    }
}

/// The arcs of the new view, if they are kept.
pub(crate) fn listed_in<U: Updater>(
    source: MessageSource,
    frame: Frame<'_>,
    _round: u32,
    _updater: &U,
) -> Listed
    requires source { StandsSource U.answer frame _round source }
    ensures { IsListed frame.entry.graph.now frame.entry.rows.now.by_head frame.entry.new.now result }
{
    match source {
        MessageSource::Messages(kept) => match kept {
            Some(tails) => Listed::Tails(tails),
            None => Listed::Nothing,
        },
        MessageSource::Steps(column, _numbers, kept) => match kept {
            Some(links) => Listed::Links(column, links),
            None => Listed::Nothing,
        },
        MessageSource::Nothing => Listed::Nothing,
    }
}

/// One round on, given what changes to it in the new view, and the lists as they stand in it.
pub(crate) fn next_source<U: Updater>(
    source: &mut MessageSource,
    frame: Frame<'_>,
    round: u32,
    lists: &Lists,
    changes: &[Change],
    _updater: &U,
)
    requires frame { IsFrame U.answer frame frame.limit }
    requires round { round < frame.limit }
    requires at { StandAt U.answer frame (round + 1) (was_touched_at U.answer frame (round + 1)) lists.now }
    requires changes { HasChanges (count_in frame) (lone_at U.answer frame round) (lone_at U.answer frame (round + 1)) changes.now }
    requires source { StandsSource U.answer frame round source.old }
    ensures { StandsSource U.answer frame.entry (round + 1) source.new }
{
    let all = match source {
        MessageSource::Messages(_) => true,
        MessageSource::Steps(_, numbers, _) => renew(numbers, &lists.new_now, changes),
        MessageSource::Nothing => true,
    };
    if !all {
        *source = MessageSource::Nothing;
    }
}

// The tails of the arcs of the new view, made where they aren't kept yet.
fn tails_of(
    alloc: Global,
    frame: Frame<'_>,
    kept: Option<Live<NodeNo>>,
) -> Result<Live<NodeNo>, NoMemory>
    requires rows { AreRows frame.graph.now frame.rows.now }
    requires edges { length frame.new.now ≡ length frame.graph.now.ends }
    requires kept { IfSome kept (AreTails frame.graph.now frame.rows.now.by_head frame.new.now) }
    ensures { IfOk result (AreTails frame.entry.graph.now frame.entry.rows.now.by_head frame.entry.new.now) }
{
    match kept {
        Some(live) => Ok(live),
        None => live_tails(alloc, frame.graph, frame.rows, frame.new),
    }
}

// The tails of the arcs of the new view, each with a property of its edge, made where they aren't kept yet.
fn links_of(
    alloc: Global,
    frame: Frame<'_>,
    column: u32,
    kept: Option<Live<Link>>,
) -> Result<Live<Link>, NoMemory>
    requires rows { AreRows frame.graph.now frame.rows.now }
    requires edges { length frame.new.now ≡ length frame.graph.now.ends }
    requires kept { IfSome kept (AreLinks frame.graph.now frame.rows.now.by_head frame.new.now column) }
    ensures { IfOk result (AreLinks frame.entry.graph.now frame.entry.rows.now.by_head frame.entry.new.now column) }
{
    match kept {
        Some(live) => Ok(live),
        None => live_links(alloc, frame.graph, frame.rows, frame.new, column),
    }
}
