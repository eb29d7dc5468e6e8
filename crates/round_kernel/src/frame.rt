//! One round of a step.

ghost use Rattle.std.specs.Prelude.{◌≡◌, ◌<◌, ◌-◌, true, false, length, get_or, All, IfOk};
ghost use Rattle.arc_rows.specs.Counts.{AreBoth};
ghost use Rattle.message_forms.specs.Forms.{MayKeep};
ghost use Rattle.round_kernel.specs.Rounds.{AreIdle};
ghost use Rattle.round_kernel.specs.Frames.{IsFrame, StandAt, was_touched_at};

use crate::values::known_starts;
use arc_rows::{Degrees, Rows, Turned};
use change_lists::History;
use graph_model::{Graph, NodeNo, Val};
use message_forms::may_keep;
use round_inputs::Scratch;
use round_messages::{Sender, send_all};
use std::alloc::Global;
use std::rc::Rc;
use surge_outside::{List, NoMemory};
use value_codes::Codes;
use vertex_lang::{Arc, Program, Updater};
use waiting_nodes::Queue;

/// What stays the same in all rounds of a step.
#[derive(Clone, Copy)]
pub(crate) struct Frame<'a> {
    pub(crate) program: &'a Program,
    pub(crate) graph: &'a Graph,
    pub(crate) rows: &'a Rows,
    /// Whether there is no view before.
    pub(crate) first: bool,
    /// Which edges are in the view before, and in the new view.
    pub(crate) old: &'a [bool],
    pub(crate) new: &'a [bool],
    /// Whether the message may depend on how many arcs leave a node.
    pub(crate) by_degree: bool,
    /// The history of the view before, without rounds where there is none.
    pub(crate) history: &'a History,
    /// The arcs of all edges that are in one of the two views alone.
    pub(crate) turned: &'a [Arc],
    /// How many rounds are allowed.
    pub(crate) limit: u32,
}

/// What is kept of each node while the rounds go on.
#[derive(Drop)]
pub(crate) struct Lists {
    pub(crate) starts: Rc<List<Val>>,
    pub(crate) old_now: Vec<Val>,
    pub(crate) new_now: Vec<Val>,
    pub(crate) new_before: Vec<Val>,
    /// Of a touched node that changed from the round before in one of the two views: whether its values in them differed there.
    /// Of any other node it tells nothing.
    pub(crate) parted: Vec<bool>,
    /// Whether the message of a node is the same along all arcs that leave it, and has a number. Then the numbers of those of
    /// this round in the new view follow.
    pub(crate) alike: bool,
    pub(crate) new_sent: Codes,
    pub(crate) old_degrees: Vec<u64>,
    pub(crate) new_degrees: Vec<u64>,
    /// The nodes that were active in an earlier round.
    pub(crate) touched: Vec<bool>,
    /// The nodes to be visited that have a mark in this round of the view before.
    pub(crate) marked: Vec<bool>,
    /// These nodes as a list.
    pub(crate) shown: List<NodeNo>,
    /// The tails of arcs whose edge is in one of the two views alone.
    pub(crate) watched: Vec<bool>,
    /// These arcs, by tail.
    pub(crate) turned: Turned,
    pub(crate) queue: Queue,
    pub(crate) scratch: Scratch,
}

impl Lists {
    /// At round 0.
    pub(crate) fn new<U: Updater>(
        alloc: Global,
        frame: Frame<'_>,
        degrees: Degrees,
        _updater: &U,
    ) -> Result<Lists, NoMemory>
        requires frame { IsFrame U.answer frame frame.limit }
        requires degrees { AreBoth frame.by_degree frame.graph.now frame.rows.now.by_head frame.old.now frame.new.now degrees }
        ensures at { IfOk result (StandAt U.answer frame.entry 0 (was_touched_at U.answer frame.entry 0)) }
        ensures idle { IfOk result AreIdle }
    {
        let count = frame.graph.node_count();
        let size = count as usize;
        let known = &frame.history.starts;
        let starts = known_starts(alloc, frame.program, frame.graph, known)?;
        let values = starts.as_slice();
        let old_now = Vec::from_slice(alloc, values)?;
        let new_now = Vec::from_slice(alloc, values)?;
        let new_before = Vec::from_slice(alloc, values)?;
        let parted = vec![in alloc; false; size]?;
        let Degrees {
            old: old_degrees,
            new: new_degrees,
        } = degrees;
        let may = keeps_messages(frame);
        let sender = Sender {
            program: frame.program,
            graph: frame.graph,
            degrees: &new_degrees,
        };
        let (alike, new_sent) = send_all(alloc, &sender, may, values)?;
        let touched = vec![in alloc; frame.first; size]?;
        let marked = vec![in alloc; false; size]?;
        let watched = watch(alloc, size, frame.turned)?;
        let turned = Turned::new(alloc, count, frame.turned, false)?;
        let queue = Queue::new(alloc, size)?;
        let scratch = Scratch {
            left: Vec::new(alloc),
            right: Vec::new(alloc),
            picked: Vec::new(alloc),
        };
        Ok(Lists {
            starts,
            old_now,
            new_now,
            new_before,
            parted,
            alike,
            new_sent,
            old_degrees,
            new_degrees,
            touched,
            marked,
            shown: List::new(alloc),
            watched,
            turned,
            queue,
            scratch,
        })
    }
}

impl Lists {
    /// How many arcs leave each node.
    pub(crate) fn degrees(self) -> Degrees
        ensures { result ≡ record { old = self.old_degrees; new = self.new_degrees } }
    {
        Degrees {
            old: self.old_degrees,
            new: self.new_degrees,
        }
    }
}

// Whether what each node sends may be kept, as it may be where nearly all messages are alike. A brief step keeps nothing: hardly
// anybody asks.
fn keeps_messages(frame: Frame<'_>) -> bool
    ensures { MayKeep result frame.entry.program.now frame.entry.graph.now }
{
    if is_brief(frame) {
        return false;
    }
    may_keep(frame.program, frame.graph)
}

/// Whether a step is likely to be brief: there is a view before, and hardly an edge is in one of the two alone, fewer arcs than one
/// for 4,096 nodes. Then hardly a node is visited, and what is made of all nodes to visit many of them fast isn't worth it.
pub(crate) fn is_brief(frame: Frame<'_>) -> bool {
    let few = frame.graph.node_count() as usize / 4_096;
    !frame.first && frame.turned.len() < few
}

// The tails of these arcs.
fn watch(alloc: Global, size: usize, turned: &[Arc]) -> Result<Vec<bool>, NoMemory>
    requires { All (λ a. a.tail.0 < size) turned.now }
    ensures size { IfOk result (λ w. length w.items ≡ size) }
    ensures tails { IfOk result (λ w. All (λ a. get_or w.items a.tail.0 false ≡ true) turned.now) }
{
    let mut watched = vec![in alloc; false; size]?;
    for arc in turned {
        watched[arc.tail.0 as usize] = true;
    }
    Ok(watched)
}
