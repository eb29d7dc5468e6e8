//! The step from a view to the next.

ghost use Rattle.std.specs.Prelude.{◌≡◌, ◌<◌, ◌≤◌, ◌+◌, ◌-◌, [], true, false, length, get_or, IfOk, OnOk, IsTrue};
ghost use Rattle.vertex_lang.specs.Lone.{number_of};
ghost use Rattle.lone_work.specs.Work.{work};
ghost use Rattle.arc_rows.specs.Counts.{AreBoth};
ghost use Rattle.arc_rows.specs.Listings.{IsListed};
ghost use Rattle.arc_rows.specs.RowLists.{AreAlong};
ghost use Rattle.arc_rows.specs.Views.{arcs_in};
ghost use Rattle.round_kernel.specs.Changes.{passed_changes, StandsBefore};
ghost use Rattle.round_kernel.specs.Frames.{IsFrame, new_arcs, old_arcs, count_in};
ghost use Rattle.round_kernel.specs.Kernels.{IsKernel};
ghost use Rattle.round_kernel.specs.Plans.{IsBehind, IsFirst, IsNext, MayRun};
ghost use Rattle.round_kernel.specs.Steps.{IsFirstLogged, IsLog, IsNextLogged, IsRun, outcome_of};

use crate::ended::Ended;
use crate::frame::{Frame, Lists};
use crate::kernel::Kernel;
use crate::log::{Log, trim};
use crate::lookups::Lookups;
use crate::made::Made;
use crate::plan::{Behind, Plan};
use crate::round::{go_on, run_round};
use crate::sorted::in_node_order;
use crate::source::listed_in;
use crate::spare::{Spare, kept_of};
use crate::state::State;
use arc_rows::{CachedArcs, Degrees, Listed, TwoViews};
use change_lists::{Change, History, all_changes, changes_between};
use graph_model::Graph;
use std::alloc::Global;
use std::mem;
use surge_outside::{List, NoMemory};
use value_codes::Kept;
use vertex_lang::{Outcome, Rounds, Updater, arcs_of, names_outdeg};

/// What a step gives.
#[derive(Debug, Drop)]
pub struct Stepped {
    /// The history of the view.
    pub history: History,
    /// The outcome of its plain run.
    pub outcome: Outcome,
    /// How its values after all rounds differ from those of the view before; of a first view all of them.
    pub change: List<Change>,
    /// Its work, which is the number of calls of the updater in the step.
    pub work: u64,
}

impl Kernel {
    /// Steps a view that none stands before, with these edges, so many of them. Where they are less than half of those of the graph,
    /// it goes over their arcs alone. The error is want of memory.
    pub fn first_step<U: Updater>(
        &mut self,
        alloc: Global,
        plan: Plan<'_>,
        edges: &[bool],
        count: u64,
        updater: &mut U,
    ) -> Result<Stepped, NoMemory>
        requires plan { MayRun plan self.old }
        requires edges { length edges.now ≡ length plan.graph.now.ends }
        ensures kernel { OnOk result (IsKernel plan.entry.graph.now self.new) }
        ensures rows { self.new.rows ≡ self.old.rows }
        ensures step { IfOk result (IsFirst U.answer plan.entry (arcs_in self.old.rows.by_head edges.now)) }
        ensures calls { IfOk result (λ s. U.calls updater.new ≡ U.calls updater.old + s.work) }
    {
        let logged = self.first_logged(alloc, plan, edges, count, true, updater)?;
        Ok(logged.stepped())
    }

    /// Steps a view behind another one, where so many edges are in one of the two or in both. Where they are less than half of those of
    /// the graph, it goes over their arcs alone. Where no edge is turned, nothing is evaluated, and the history is shared with the view
    /// before. The error is want of memory.
    pub fn next_step<U: Updater>(
        &mut self,
        alloc: Global,
        plan: Plan<'_>,
        behind: Behind<'_>,
        count: u64,
        updater: &mut U,
    ) -> Result<Stepped, NoMemory>
        requires plan { MayRun plan self.old }
        requires along { AreAlong plan.program.now.along plan.graph.now self.old.rows }
        requires behind { IsBehind U.answer plan self.old behind }
        ensures kernel { OnOk result (IsKernel plan.entry.graph.now self.new) }
        ensures rows { self.new.rows ≡ self.old.rows }
        ensures step { IfOk result (IsNext U.answer plan.entry (arcs_in self.old.rows.by_head behind.entry.old.now) (arcs_in self.old.rows.by_head behind.entry.new.now)) }
        ensures calls { IfOk result (λ s. U.calls updater.new ≡ U.calls updater.old + s.work) }
    {
        let logged = self.next_logged(alloc, plan, behind, count, true, updater)?;
        Ok(logged.stepped())
    }

    // Steps a view that none stands before; where it is asked for, a history is kept.
    pub(crate) fn first_logged<U: Updater>(
        &mut self,
        alloc: Global,
        plan: Plan<'_>,
        edges: &[bool],
        count: u64,
        keeps: bool,
        updater: &mut U,
    ) -> Result<Logged, NoMemory>
        requires plan { MayRun plan self.old }
        requires edges { length edges.now ≡ length plan.graph.now.ends }
        ensures kernel { OnOk result (IsKernel plan.entry.graph.now self.new) }
        ensures rows { self.new.rows ≡ self.old.rows }
        ensures step { IfOk result (IsFirstLogged U.answer plan.entry (arcs_in self.old.rows.by_head edges.now) keeps) }
        ensures calls { IfOk result (λ s. U.calls updater.new ≡ U.calls updater.old + s.ended.work) }
    {
        if are_few(plan.graph, count) {
            let mut chosen = self.within(alloc, plan.graph, edges, edges)?;
            return first_step(alloc, plan, &mut chosen, edges, keeps, updater);
        }
        first_step(alloc, plan, self, edges, keeps, updater)
    }

    // Steps a view behind another one; where it is asked for, a history is kept.
    pub(crate) fn next_logged<U: Updater>(
        &mut self,
        alloc: Global,
        plan: Plan<'_>,
        behind: Behind<'_>,
        count: u64,
        keeps: bool,
        updater: &mut U,
    ) -> Result<Logged, NoMemory>
        requires plan { MayRun plan self.old }
        requires along { AreAlong plan.program.now.along plan.graph.now self.old.rows }
        requires behind { IsBehind U.answer plan self.old behind }
        ensures kernel { OnOk result (IsKernel plan.entry.graph.now self.new) }
        ensures rows { self.new.rows ≡ self.old.rows }
        ensures step { IfOk result (IsNextLogged U.answer plan.entry (arcs_in self.old.rows.by_head behind.entry.old.now) (arcs_in self.old.rows.by_head behind.entry.new.now) keeps) }
        ensures calls { IfOk result (λ s. U.calls updater.new ≡ U.calls updater.old + s.ended.work) }
    {
        if behind.turned.is_empty() {
            return repeated(alloc, plan, self, behind, updater);
        }
        if are_few(plan.graph, count) {
            let mut chosen = self.within(alloc, plan.graph, behind.old, behind.new)?;
            return next_step(alloc, plan, &mut chosen, behind, keeps, updater);
        }
        next_step(alloc, plan, self, behind, keeps, updater)
    }
}

/// What a step gives, with the history of the view where one is kept.
#[derive(Drop)]
pub(crate) struct Logged {
    pub(crate) history: History,
    pub(crate) ended: Ended,
}

impl Logged {
    // The same in one.
    fn stepped(self) -> Stepped
        ensures history { result.history ≡ self.history }
        ensures outcome { result.outcome ≡ self.ended.outcome }
        ensures change { result.change ≡ self.ended.change }
        ensures work { result.work ≡ self.ended.work }
    {
        let Logged { history, ended } = self;
        let Ended {
            outcome,
            change,
            work,
        } = ended;
        Stepped {
            history,
            outcome,
            change,
            work,
        }
    }
}

// Whether so many edges are less than half of those of the graph: then their arcs are filtered first, since a step goes over arcs
// more than once.
fn are_few(graph: &Graph, count: u64) -> bool {
    count < u64::from(graph.edge_count()) / 2
}

// Steps a view that none stands before, over all arcs of the kernel.
fn first_step<'a, U: Updater>(
    alloc: Global,
    plan: Plan<'a>,
    kernel: &mut Kernel,
    edges: &'a [bool],
    keeps: bool,
    updater: &mut U,
) -> Result<Logged, NoMemory>
    requires plan { MayRun plan kernel.old }
    requires edges { length edges.now ≡ length plan.graph.now.ends }
    ensures kernel { OnOk result (IsKernel plan.entry.graph.now kernel.new) }
    ensures rows { kernel.new.rows ≡ kernel.old.rows }
    ensures step { IfOk result (IsFirstLogged U.answer plan.entry (arcs_in kernel.old.rows.by_head edges.now) keeps) }
    ensures calls { IfOk result (λ s. U.calls updater.new ≡ U.calls updater.old + s.ended.work) }
{
    let Plan {
        program,
        graph,
        rounds,
    } = plan;
    nodes_are_few(graph);
    let nothing = History::new(alloc);
    let none = vec![in alloc; false; edges.len()]?;
    let by_degree = names_outdeg(&program.send);
    kernel.cached = CachedArcs::nothing(alloc);
    kernel.spare = Spare::nothing(alloc);
    let degrees = Degrees::counted(alloc, by_degree, graph, &kernel.rows, &none, edges)?;
    let kept = kept_of(alloc, Vec::new(alloc), graph.node_count())?;
    let frame = Frame {
        program,
        graph,
        rows: &kernel.rows,
        first: true,
        old: &none,
        new: edges,
        by_degree,
        history: &nothing,
        turned: &[],
        limit: limit_of(rounds),
    };
    let counted = degrees.kept(alloc, by_degree)?;
    let run = run_rounds(alloc, frame, degrees, Listed::Nothing, kept, keeps, updater)?;
    let change = all_changes(alloc, &run.lists.new_now)?;
    kernel.spare = Spare::of(run.kept, by_degree, run.lists.degrees());
    kernel.cached = CachedArcs::of(alloc, edges, None, run.listed, counted);
    let ended = Ended {
        outcome: outcome(run.last, rounds),
        change,
        work: run.work,
    };
    Ok(Logged {
        history: run.history,
        ended,
    })
}

// Steps a view behind another one, over all arcs of the kernel.
fn next_step<'a, U: Updater>(
    alloc: Global,
    plan: Plan<'a>,
    kernel: &mut Kernel,
    behind: Behind<'a>,
    keeps: bool,
    updater: &mut U,
) -> Result<Logged, NoMemory>
    requires plan { MayRun plan kernel.old }
    requires along { AreAlong plan.program.now.along plan.graph.now kernel.old.rows }
    requires behind { IsBehind U.answer plan kernel.old behind }
    ensures kernel { OnOk result (IsKernel plan.entry.graph.now kernel.new) }
    ensures rows { kernel.new.rows ≡ kernel.old.rows }
    ensures step { IfOk result (IsNextLogged U.answer plan.entry (arcs_in kernel.old.rows.by_head behind.entry.old.now) (arcs_in kernel.old.rows.by_head behind.entry.new.now) keeps) }
    ensures calls { IfOk result (λ s. U.calls updater.new ≡ U.calls updater.old + s.ended.work) }
{
    let Plan {
        program,
        graph,
        rounds,
    } = plan;
    nodes_are_few(graph);
    let arcs = arcs_of(alloc, graph, program.along, behind.turned)?;
    let by_degree = names_outdeg(&program.send);
    let cached = mem::replace(&mut kernel.cached, CachedArcs::nothing(alloc));
    let spare = mem::replace(&mut kernel.spare, Spare::nothing(alloc));
    let kept = kept_of(alloc, spare.kept, graph.node_count())?;
    let views = TwoViews {
        graph,
        rows: &kernel.rows,
        old: behind.old,
        new: behind.new,
        edges: behind.turned,
        arcs: arcs.as_slice(),
    };
    let (listed, known, flags) = cached.turned(alloc, &views)?;
    let degrees = Degrees::turned(alloc, by_degree, &views, known, spare.degrees)?;
    let frame = Frame {
        program,
        graph,
        rows: &kernel.rows,
        first: false,
        old: behind.old,
        new: behind.new,
        by_degree,
        history: behind.history,
        turned: arcs.as_slice(),
        limit: limit_of(rounds),
    };
    let counted = degrees.kept(alloc, by_degree)?;
    let run = run_rounds(alloc, frame, degrees, listed, kept, keeps, updater)?;
    let change = changes_between(
        alloc,
        &run.lists.touched,
        &run.lists.old_now,
        &run.lists.new_now,
    )?;
    kernel.spare = Spare::of(run.kept, by_degree, run.lists.degrees());
    kernel.cached = CachedArcs::of(alloc, behind.new, flags, run.listed, counted);
    let ended = Ended {
        outcome: outcome(run.last, rounds),
        change,
        work: run.work,
    };
    Ok(Logged {
        history: run.history,
        ended,
    })
}

// Steps a view behind one with the same edges: nothing is evaluated, and its run is that of the view before. The history that is
// given may say more than the rounds that are allowed, or end in rounds without a change; what is answered does neither.
fn repeated<U: Updater>(
    alloc: Global,
    plan: Plan<'_>,
    kernel: &Kernel,
    behind: Behind<'_>,
    updater: &U,
) -> Result<Logged, NoMemory>
    requires plan { MayRun plan kernel.now }
    requires behind { IsBehind U.answer plan kernel.now behind }
    requires none { behind.turned.now ≡ [] }
    ensures step { IfOk result (IsNextLogged U.answer plan.entry (arcs_in kernel.now.rows.by_head behind.entry.old.now) (arcs_in kernel.now.rows.by_head behind.entry.new.now) true) }
    ensures work { IfOk result (λ s. s.ended.work ≡ 0) }
{
    let mut history = behind.history.shared(alloc)?;
    history.changes.truncate(limit_of(plan.rounds) as usize);
    trim(&mut history.changes);
    let ended = Ended {
        outcome: outcome(changing(&history), plan.rounds),
        change: List::new(alloc),
        work: 0,
    };
    Ok(Logged { history, ended })
}

// What all rounds give.
#[derive(Drop)]
struct Run {
    history: History,
    last: u32,
    lists: Lists,
    listed: Listed,
    kept: Vec<Kept>,
    work: u64,
}

// Goes through the rounds, until nothing changes in either view.
fn run_rounds<U: Updater>(
    alloc: Global,
    frame: Frame<'_>,
    degrees: Degrees,
    listed: Listed,
    kept: Vec<Kept>,
    keeps: bool,
    updater: &mut U,
) -> Result<Run, NoMemory>
    requires frame { IsFrame U.answer frame frame.limit }
    requires limit { frame.limit ≤ 1_000_000 }
    requires degrees { AreBoth frame.by_degree frame.graph.now frame.rows.now.by_head frame.old.now frame.new.now degrees }
    requires listed { IsListed frame.graph.now frame.rows.now.by_head frame.new.now listed }
    requires kept { length kept.items ≡ count_in frame }
    ensures listed { IfOk result (λ run. IsListed frame.entry.graph.now frame.entry.rows.now.by_head frame.entry.new.now run.listed) }
    ensures run { IfOk result (IsRun U.answer frame.entry keeps) }
    ensures calls { IfOk result (λ run. U.calls updater.new ≡ U.calls updater.old + run.work) }
{
    let lists = Lists::new(alloc, frame, degrees, updater)?;
    let lookups = Lookups::new(alloc, frame, &lists, listed, updater)?;
    let mut log = Log::new(alloc, keeps, frame.history, frame.graph.node_count())?;
    let made = Made::new(alloc, frame.graph.node_count())?;
    let mut state = State {
        lists,
        kept,
        lookups,
        made,
    };
    let mut work = 0;
    let mut round = 0;
    while round < frame.limit && !is_quiet(frame.history, &log, round) {
        work += run_one(alloc, frame, round, &mut log, &mut state, updater)?;
        round += 1;
    }
    let State {
        lists,
        kept,
        lookups,
        made: _,
    } = state;
    trim(&mut log.history.changes);
    log.history.starts = Some(lists.starts.clone()?);
    let Log {
        keeps: _,
        history,
        same: _,
        own: _,
        last,
    } = log;
    Ok(Run {
        history,
        last,
        lists,
        listed: listed_in(lookups.source, frame, round, updater),
        kept,
        work,
    })
}

// Whether nothing changed in the round before this one in either view.
fn is_quiet(old: &History, log: &Log, round: u32) -> bool
    ensures first { IsTrue result → 0 < round }
    ensures old { IsTrue result → get_or old.now.changes (round - 1) [] ≡ [] }
    ensures kept { IsTrue result → log.now.keeps ≡ true → get_or log.now.history.changes (round - 1) [] ≡ [] }
    ensures passed { IsTrue result → log.now.keeps ≡ false → passed_changes log.now ≡ [] }
{
    round > 0 && old.changes_after(round - 1).is_empty() && log.before(round).is_empty()
}

// Goes through one round. The answer is the number of counted nodes.
fn run_one<U: Updater>(
    alloc: Global,
    frame: Frame<'_>,
    round: u32,
    log: &mut Log,
    state: &mut State,
    updater: &mut U,
) -> Result<u64, NoMemory>
    requires frame { IsFrame U.answer frame frame.limit }
    requires round { round < frame.limit }
    requires few { frame.limit ≤ 1_000_000 }
    requires log { IsLog U.answer frame round log.old }
    requires state { StandsBefore U.answer frame round state.old }
    ensures keeps { log.new.keeps ≡ log.old.keeps }
    ensures log { OnOk result (IsLog U.answer frame.entry (round + 1) log.new) }
    ensures state { OnOk result (StandsBefore U.answer frame.entry (round + 1) state.new) }
    ensures work { IfOk result (λ n. work U.answer frame.entry.program.now frame.entry.graph.now (new_arcs frame.entry) (old_arcs frame.entry) (round + 1) ≡ work U.answer frame.entry.program.now frame.entry.graph.now (new_arcs frame.entry) (old_arcs frame.entry) round + n) }
    ensures few { IfOk result (λ n. n ≤ 1_000_000) }
    ensures calls { IfOk result (λ n. U.calls updater.new ≡ U.calls updater.old + n) }
{
    let before = log.before(round);
    let work = run_round(alloc, frame, round, state, updater)?;
    let State {
        lists,
        kept: _,
        lookups,
        made,
    } = state;
    go_on(alloc, frame, round, before, made, lists, updater);
    lookups.go_on(frame, round, lists, made, updater);
    let suspects = &lookups.suspects;
    in_node_order(frame, round, lists, suspects, made, updater)?;
    log.add_round(alloc, round, made, frame.graph.node_count())?;
    Ok(work)
}

// How many rounds a history has. Where it ends in a change, that is the last round with other values than the one before it.
fn changing(history: &History) -> u32
    requires { length history.now.changes ≤ 1_000_000 }
    ensures { result ≡ length history.now.changes }
{
    history.changes.len() as u32
}

// The outcome of a run, given the last round with other values than the one before it.
fn outcome(last: u32, rounds: Rounds) -> Outcome
    ensures { result ≡ outcome_of last rounds }
{
    match rounds {
        Rounds::For(count) => Outcome::After(count),
        Rounds::Within(limit) => {
            if last == limit {
                Outcome::Unsettled
            } else {
                Outcome::Settled(last)
            }
        }
    }
}

// A graph has at most 1,000,000 nodes.
fn nodes_are_few(graph: &Graph)
    ensures { length graph.now.ids ≤ 1_000_000 }
{
    let _count = graph.node_count();
}

// How many rounds are allowed.
fn limit_of(rounds: Rounds) -> u32
    ensures { result ≡ number_of rounds }
{
    match rounds {
        Rounds::Within(limit) => limit,
        Rounds::For(count) => count,
    }
}
