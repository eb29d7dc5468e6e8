//! Which nodes may send something else in two rounds: in those of two views, or in a round and the one before it.

ghost use Rattle.std.specs.Prelude.{◌≡◌, ◌<◌, ◌+◌, ◌==◌, ◌≢◌, ℕ, true, false, filter, length, get_or, All, IfOk};
ghost use Rattle.vertex_lang.specs.Ignoring.{IgnoresOutdeg};
ghost use Rattle.round_kernel.specs.Frames.{IsFrame, StandAt, count_in, was_touched_at};
ghost use Rattle.round_kernel.specs.Changes.{HasMade};
ghost use Rattle.round_kernel.specs.Suspects.{StandSuspects, stamp};
ghost use Rattle.change_lists.specs.ChangeLists.{is_changed};
ghost use Rattle.round_kernel.specs.Flags.{IsFlagged, IsSettled, AreLong, AreSet};
ghost use Rattle.arc_rows.specs.RowLists.{IsGrouped};

use crate::frame::{Frame, Lists, is_brief};
use crate::made::Made;
use arc_rows::Turned;
use change_lists::{Change, is_other};
use graph_model::NodeNo;
use std::alloc::Global;
use surge_outside::NoMemory;
use vertex_lang::{Arc, Updater};

/// What is told of each node.
#[derive(Drop)]
pub(crate) struct Suspects {
    /// Whether it may send something else in the new view than in the view before.
    pub(crate) apart: Vec<bool>,
    /// The stamp of the last round to which its value changed in the new view, and 0 where it never did. So a node whose stamp isn't
    /// that of the round in which this is told didn't change to it, and one whose stamp it is may have.
    pub(crate) moved: Vec<u8>,
    /// The arcs of all edges that are in one of the two views alone, by head.
    pub(crate) turned: Turned,
}

impl Suspects {
    /// At round 0. The error is want of memory.
    pub(crate) fn new<U: Updater>(
        alloc: Global,
        frame: Frame<'_>,
        lists: &Lists,
        updater: &U,
    ) -> Result<Suspects, NoMemory>
        requires frame { IsFrame U.answer frame frame.limit }
        requires at { StandAt U.answer frame 0 (was_touched_at U.answer frame 0) lists.now }
        ensures { IfOk result (StandSuspects U.answer frame.entry 0) }
    {
        let count = frame.graph.node_count();
        let apart = apart_at_start(alloc, frame, lists, updater)?;
        let moved = vec![in alloc; 0u8; count as usize]?;
        let turned = Turned::new(alloc, count, frame.turned, true)?;
        Ok(Suspects {
            apart,
            moved,
            turned,
        })
    }

    /// The arcs to a node that are in one of the two views alone.
    pub(crate) fn turned_into(&self, node: NodeNo) -> &[Arc]
        requires grouped { IsGrouped (λ a. a.head.0) self.now.turned.arcs self.now.turned.ends (length self.now.turned.ends) }
        requires node { node.0 < length self.now.turned.ends }
        ensures { result.now ≡ filter (λ a. a.head.0 == node.0) self.now.turned.arcs }
    {
        self.turned.coming_to(node)
    }

    /// One round on, given what changes to it, and the lists as they stand in it. Where there is no view before, nobody asks which
    /// nodes differ.
    pub(crate) fn go_on<U: Updater>(
        &mut self,
        frame: Frame<'_>,
        round: u32,
        lists: &Lists,
        made: &Made,
        _updater: &U,
    )
        requires frame { IsFrame U.answer frame frame.limit }
        requires round { round < frame.limit }
        requires at { StandAt U.answer frame (round + 1) (was_touched_at U.answer frame (round + 1)) lists.now }
        requires made { HasMade U.answer frame round made.now }
        requires suspects { StandSuspects U.answer frame round self.old }
        ensures { StandSuspects U.answer frame.entry (round + 1) self.new }
    {
        self.move_all(frame, round + 1, made.changed());
        if frame.first {
            return;
        }
        if made.few {
            self.part_all(frame, lists, made.stirred.as_slice());
        } else {
            self.part_everyone(frame, lists);
        }
    }

    // Nodes change in the new view to a round: that they did so. Where many do, all nodes are said to, which is less work; a brief
    // step says it early, since hardly anybody asks.
    fn move_all(&mut self, frame: Frame<'_>, round: u32, changes: &[Change])
        requires { All (λ c. c.node.0 < length self.old.moved.items) changes.now }
        ensures size { length self.new.moved.items ≡ length self.old.moved.items }
        ensures moved { (u : ℕ) → is_changed u changes.now ≡ true → get_or self.new.moved.items u 0 ≡ stamp round }
        ensures apart { self.new.apart ≡ self.old.apart }
        ensures turned { self.new.turned ≡ self.old.turned }
    {
        if are_many(frame, changes) {
            self.stamp_everyone(round);
            return;
        }
        self.stamp_each(round, changes);
    }

    // Each node is said to change to a round.
    fn stamp_everyone(&mut self, round: u32)
        ensures size { length self.new.moved.items ≡ length self.old.moved.items }
        ensures all { (u : ℕ) → u < length self.old.moved.items → get_or self.new.moved.items u 0 ≡ stamp round }
        ensures apart { self.new.apart ≡ self.old.apart }
        ensures turned { self.new.turned ≡ self.old.turned }
    {
        self.moved.fill(stamp_of(round));
    }

    // These nodes are said to change to a round.
    fn stamp_each(&mut self, round: u32, changes: &[Change])
        requires { All (λ c. c.node.0 < length self.old.moved.items) changes.now }
        ensures moved { AreSet (λ u to. to ≡ stamp round) 0 changes.now self.old.moved.items self.new.moved.items }
        ensures apart { self.new.apart ≡ self.old.apart }
        ensures turned { self.new.turned ≡ self.old.turned }
    {
        let stamp = stamp_of(round);
        for change in changes {
            self.moved[change.node.0 as usize] = stamp;
        }
    }

    // Nodes change in one of the two views: whether they may send something else in both.
    fn part_all(&mut self, frame: Frame<'_>, lists: &Lists, changes: &[Change])
        requires within { All (λ c. c.node.0 < count_in frame) changes.now }
        requires long { AreLong (count_in frame) lists.now }
        requires degree { frame.by_degree ≡ false → IgnoresOutdeg frame.program.now.send }
        requires apart { length self.old.apart.items ≡ count_in frame }
        ensures apart { AreSet (IsSettled frame.entry lists.now) false changes.now
            self.old.apart.items self.new.apart.items }
        ensures moved { self.new.moved ≡ self.old.moved }
        ensures turned { self.new.turned ≡ self.old.turned }
    {
        for change in changes {
            self.flag(frame, lists, change.node);
        }
    }

    // Whether any node may send something else in both views. Where nearly all nodes were touched hardly any is asked for it: then
    // all are said to.
    fn part_everyone(&mut self, frame: Frame<'_>, lists: &Lists)
        requires long { AreLong (count_in frame) lists.now }
        requires degree { frame.by_degree ≡ false → IgnoresOutdeg frame.program.now.send }
        requires apart { length self.old.apart.items ≡ count_in frame }
        ensures apart { (u : ℕ) → u < count_in frame.entry → IsFlagged frame.entry lists.now u (get_or self.new.apart.items u false) }
        ensures size { length self.new.apart.items ≡ length self.old.apart.items }
        ensures moved { self.new.moved ≡ self.old.moved }
        ensures turned { self.new.turned ≡ self.old.turned }
    {
        if are_nearly_all(&lists.touched) {
            self.suspect_everyone();
            return;
        }
        for node in 0..frame.graph.node_count() {
            self.flag_anew(frame, lists, NodeNo(node));
        }
    }

    // Each node may send something else in both views.
    fn suspect_everyone(&mut self)
        ensures size { length self.new.apart.items ≡ length self.old.apart.items }
        ensures all { (u : ℕ) → u < length self.old.apart.items → get_or self.new.apart.items u false ≡ true }
        ensures moved { self.new.moved ≡ self.old.moved }
        ensures turned { self.new.turned ≡ self.old.turned }
    {
        self.apart.fill(true);
    }

    // Whether a node that changes may send something else in both views. One that was never touched has the same value in
    // both, so it sends the same unless the message depends on how many arcs leave it.
    fn flag(&mut self, frame: Frame<'_>, lists: &Lists, node: NodeNo)
        requires node { node.0 < count_in frame }
        requires long { AreLong (count_in frame) lists.now }
        requires degree { frame.by_degree ≡ false → IgnoresOutdeg frame.program.now.send }
        requires apart { length self.old.apart.items ≡ count_in frame }
        ensures size { length self.new.apart.items ≡ length self.old.apart.items }
        ensures right { IsSettled frame.entry lists.now node.0 (get_or self.new.apart.items node.0 false) }
        ensures others { (u : ℕ) → u ≢ node.0 → get_or self.new.apart.items u false ≡ get_or self.old.apart.items u false }
        ensures moved { self.new.moved ≡ self.old.moved }
        ensures turned { self.new.turned ≡ self.old.turned }
    {
        if frame.by_degree || lists.touched[node.0 as usize] {
            self.flag_anew(frame, lists, node);
        }
    }

    // Whether a node may send something else in both views.
    fn flag_anew(&mut self, frame: Frame<'_>, lists: &Lists, node: NodeNo)
        requires node { node.0 < count_in frame }
        requires long { AreLong (count_in frame) lists.now }
        requires degree { frame.by_degree ≡ false → IgnoresOutdeg frame.program.now.send }
        requires apart { length self.old.apart.items ≡ count_in frame }
        ensures size { length self.new.apart.items ≡ length self.old.apart.items }
        ensures right { IsFlagged frame.entry lists.now node.0 (get_or self.new.apart.items node.0 false) }
        ensures others { (u : ℕ) → u ≢ node.0 → get_or self.new.apart.items u false ≡ get_or self.old.apart.items u false }
        ensures moved { self.new.moved ≡ self.old.moved }
        ensures turned { self.new.turned ≡ self.old.turned }
    {
        self.apart[node.0 as usize] = is_apart(frame, lists, node);
    }
}

// Whether so many nodes change that all are stamped: nearly all do, or a sixteenth in a brief step.
fn are_many(frame: Frame<'_>, changes: &[Change]) -> bool {
    let nodes = frame.graph.node_count() as usize;
    let most = if is_brief(frame) {
        nodes / 16
    } else {
        nodes - nodes / 8
    };
    changes.len() > most
}

/// The stamp of a round, which takes a fourth of the memory of its number: rounds that are 256 apart have the same.
pub(crate) fn stamp_of(round: u32) -> u8
    ensures { result ≡ stamp round }
{
    (round % 256) as u8
}

// Whether all but one of 16 of these flags are set.
fn are_nearly_all(flags: &[bool]) -> bool {
    let mut unset = 0;
    for flag in flags {
        unset += usize::from(!*flag);
    }
    unset <= flags.len() / 16
}

// Whether each node may send something else in both views at round 0. There it has the same value in both, so none does
// unless the message depends on how many arcs leave a node.
fn apart_at_start<U: Updater>(
    alloc: Global,
    frame: Frame<'_>,
    lists: &Lists,
    _updater: &U,
) -> Result<Vec<bool>, NoMemory>
    requires frame { IsFrame U.answer frame frame.limit }
    requires at { StandAt U.answer frame 0 (was_touched_at U.answer frame 0) lists.now }
    ensures size { IfOk result (λ flags. length flags.items ≡ count_in frame.entry) }
    ensures flags { IfOk result (λ flags. frame.entry.first ≡ false → (u : ℕ) → u < count_in frame.entry → IsFlagged frame.entry lists.now u (get_or flags.items u false)) }
{
    let count = frame.graph.node_count();
    if !frame.by_degree {
        let none = vec![in alloc; false; count as usize]?;
        return Ok(none);
    }
    let mut flags = Vec::with_capacity(alloc, count as usize)?;
    for node in 0..count {
        flags.push(is_apart(frame, lists, NodeNo(node)))?;
    }
    Ok(flags)
}

// Whether a node may send something else in both views: where its value or the number of arcs that leave it differs.
fn is_apart(frame: Frame<'_>, lists: &Lists, node: NodeNo) -> bool
    requires node { node.0 < count_in frame }
    requires long { AreLong (count_in frame) lists.now }
    requires degree { frame.by_degree ≡ false → IgnoresOutdeg frame.program.now.send }
    ensures { IsFlagged frame.entry lists.now node.0 result }
{
    let place = node.0 as usize;
    if is_other(lists.old_now[place], lists.new_now[place]) {
        return true;
    }
    frame.by_degree && lists.old_degrees[place] != lists.new_degrees[place]
}
