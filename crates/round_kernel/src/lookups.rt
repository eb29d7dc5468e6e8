//! What makes the visits of a round fast.

ghost use Rattle.std.specs.Prelude.{◌<◌, ◌+◌, IfOk, OnOk};
ghost use Rattle.round_kernel.specs.Lookups.{StandLookups};
ghost use Rattle.round_kernel.specs.Frames.{IsFrame, StandAt, was_touched_at};
ghost use Rattle.round_kernel.specs.Changes.{HasMade};
ghost use Rattle.arc_rows.specs.Listings.{IsListed};

use crate::frame::{Frame, Lists};
use crate::made::Made;
use crate::source::{first_source, next_source, with_arcs};
use crate::suspects::Suspects;
use arc_rows::Listed;
use round_inputs::MessageSource;
use std::alloc::Global;
use std::mem;
use surge_outside::NoMemory;
use vertex_lang::Updater;

/// What messages are found by, and which nodes are told to send the same.
#[derive(Drop)]
pub(crate) struct Lookups {
    pub(crate) source: MessageSource,
    pub(crate) suspects: Suspects,
    /// How many nodes were visited so far.
    pub(crate) visits: usize,
}

impl Lookups {
    /// At round 0. The error is want of memory.
    pub(crate) fn new<U: Updater>(
        alloc: Global,
        frame: Frame<'_>,
        lists: &Lists,
        listed: Listed,
        updater: &U,
    ) -> Result<Lookups, NoMemory>
        requires frame { IsFrame U.answer frame frame.limit }
        requires at { StandAt U.answer frame 0 (was_touched_at U.answer frame 0) lists.now }
        requires listed { IsListed frame.graph.now frame.rows.now.by_head frame.new.now listed }
        ensures lookups { IfOk result (StandLookups U.answer frame.entry 0) }
    {
        let source = first_source(alloc, frame, lists, listed, updater)?;
        let suspects = Suspects::new(alloc, frame, lists, updater)?;
        Ok(Lookups {
            source,
            suspects,
            visits: 0,
        })
    }

    /// So many nodes are visited next: where all in all many are, the arcs of the new view are made. The error is want of
    /// memory.
    pub(crate) fn expect<U: Updater>(
        &mut self,
        alloc: Global,
        frame: Frame<'_>,
        round: u32,
        count: usize,
        updater: &U,
    ) -> Result<(), NoMemory>
        requires frame { IsFrame U.answer frame frame.limit }
        requires lookups { StandLookups U.answer frame round self.old }
        ensures lookups { OnOk result (StandLookups U.answer frame.entry round self.new) }
    {
        self.visits = self.visits.saturating_add(count);
        let nodes = frame.graph.node_count() as usize;
        // Where hardly an arc comes to a node, its messages are found as fast without.
        let many = if frame.rows.arcs().len() < 2 * nodes {
            2 * nodes
        } else {
            nodes / 8
        };
        if self.visits < many {
            return Ok(());
        }
        let source = mem::replace(&mut self.source, MessageSource::Nothing);
        self.source = with_arcs(source, alloc, frame, round, updater)?;
        Ok(())
    }

    /// One round on, given what changes to it, and the lists as they stand in it.
    pub(crate) fn go_on<U: Updater>(
        &mut self,
        frame: Frame<'_>,
        round: u32,
        lists: &Lists,
        made: &Made,
        updater: &U,
    )
        requires frame { IsFrame U.answer frame frame.limit }
        requires round { round < frame.limit }
        requires at { StandAt U.answer frame (round + 1) (was_touched_at U.answer frame (round + 1)) lists.now }
        requires made { HasMade U.answer frame round made.now }
        requires lookups { StandLookups U.answer frame round self.old }
        ensures lookups { StandLookups U.answer frame.entry (round + 1) self.new }
    {
        let new = made.changed();
        next_source(&mut self.source, frame, round, lists, new, updater);
        self.suspects.go_on(frame, round, lists, made, updater);
    }
}
