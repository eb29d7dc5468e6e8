//! The plain run of a program.

ghost use Rattle.std.specs.Prelude.{◌≡◌, ◌<◌, ◌≤◌, ◌+◌, ◌*◌, ◌^◌, length, All, Contains, IfOk, OnErr};
ghost use Rattle.vertex_lang.specs.Values.{lowest, lowest_number};
ghost use Rattle.vertex_lang.specs.Leaves.{HoldsNumber, IsChecked};
ghost use Rattle.vertex_lang.specs.Arcs.{IsArc};
ghost use Rattle.vertex_lang.specs.Phases.{rounds_from};
ghost use Rattle.vertex_lang.specs.RunsTo.{RunsTo, RunsWithin, told};
ghost use Rattle.vertex_lang.specs.Settings.{HasSizes};
ghost use Rattle.vertex_lang.specs.Lone.{number_of, answer_of, IsAnswer, HasAllValues, rounds_run};

use crate::arc::Arc;
use crate::program::Program;
use crate::setting::{Lists, Setting, start_values};
use crate::updater::Updater;
use crate::words::cells_are_proper;
use graph_model::{Graph, Val};
use std::alloc::Global;
use surge_outside::{List, NoMemory};

/// How long a run may go on.
#[derive(Clone, Copy, Debug, PartialEq, Eq)]
pub enum Rounds {
    /// Until nothing changes, and so many rounds at most, from 1 to 1,000,000.
    Within(u32),
    /// Exactly so many rounds, from 1 to 1,000,000, whether anything changes or not.
    For(u32),
}

/// How a run ended.
#[derive(Clone, Copy, Debug, PartialEq, Eq)]
pub enum Outcome {
    /// After this number of rounds, the least after which one more round changes nothing.
    Settled(u32),
    /// After this number of rounds, which is the one that was asked for.
    After(u32),
    /// After this number of phases, each of which is a number of rounds of which the last changed nothing.
    Phases(u32),
    /// Each of the rounds allowed changed something; in phases: so did the last round of one of them.
    Unsettled,
}

/// The answer of a plain run: how it ended, and the value of each node by its number (no values where it is unsettled).
#[derive(Debug, Drop)]
pub struct Lone {
    pub outcome: Outcome,
    pub values: List<Val>,
}

/// Runs a program alone, round by round, over these arcs. All nodes change together, from their start values on. A run
/// within a number of rounds stops where nothing changes, so it costs the arcs and nodes once for each round until then;
/// a run for a number of rounds goes through all of them. A message that names no property of the edge is computed once
/// for each node, and any other once for each arc. The updater is called once for each node in each round, also in the
/// last one of a run that settles, which changes nothing. The error is want of memory, before the first round, and then
/// the updater was not called. A value is the number -(2^63) only where the program holds that number. (Rounds over all
/// vertices: Malewicz et al. 2010; as the plain run that a view collection is compared with: Sahu and Salihoglu 2021.)
pub fn lone_run<U: Updater>(
    alloc: Global,
    program: &Program,
    graph: &Graph,
    arcs: &[Arc],
    rounds: Rounds,
    updater: &mut U,
) -> Result<Lone, NoMemory>
    requires checked { IsChecked program.now graph.now }
    requires arcs { All (IsArc graph.now) arcs.now }
    requires few { length arcs.now < 2 ^ 32 }
    requires some { 1 ≤ number_of rounds }
    requires limit { number_of rounds ≤ 1_000_000 }
    ensures answer { IfOk result (λ l. l ≡ answer_of U.answer program.now graph.now arcs.now rounds) }
    ensures meaning { IfOk result (λ l. IsAnswer U.answer program.now graph.now arcs.now rounds l) }
    ensures size { IfOk result (λ l. HasAllValues graph.now l) }
    ensures lowest { IfOk result (λ l. Contains l.values lowest → HoldsNumber program.now lowest_number) }
    ensures calls { IfOk result (λ l. U.calls updater.new ≡ U.calls updater.old + length graph.now.ids * rounds_run (number_of rounds) l.outcome) }
    ensures few_rounds { IfOk result (λ l. rounds_run (number_of rounds) l.outcome ≤ number_of rounds) }
    ensures refused { OnErr result (U.calls updater.new ≡ U.calls updater.old) }
{
    cells_are_proper(graph);
    let starts = start_values(alloc, program, graph)?;
    let setting = Setting::new(alloc, program, graph, arcs, &starts)?;
    let mut lists = Lists::new(alloc, &setting)?;
    let outcome = setting.run(rounds, &mut lists, updater);
    Ok(answer(alloc, outcome, lists.values))
}

// The answer with this outcome, where the run ended with these values.
fn answer(alloc: Global, outcome: Outcome, values: Vec<Val>) -> Lone
    ensures { result ≡ told outcome values.items }
{
    let values = match outcome {
        Outcome::Settled(_) | Outcome::After(_) | Outcome::Phases(_) => List::from_vec(values),
        Outcome::Unsettled => List::new(alloc),
    };
    Lone { outcome, values }
}

impl Setting<'_> {
    // Takes the values on from the start for these rounds.
    fn run<U: Updater>(&self, rounds: Rounds, lists: &mut Lists, updater: &mut U) -> Outcome
        requires sizes { HasSizes self.now.graph.now lists.old.values.items lists.old.sent.items lists.old.mail.items }
        requires values { lists.old.values.items ≡ self.now.starts.now }
        ensures outcome { RunsTo (rounds_from U.answer self.now.program.now self.now.graph.now self.now.starts.now self.now.arcs.now) rounds result lists.new.values.items }
        ensures calls { U.calls updater.new ≡ U.calls updater.old + length self.now.graph.now.ids * rounds_run (number_of rounds) result }
    {
        match rounds {
            Rounds::Within(limit) => self.run_within(limit, lists, updater),
            Rounds::For(count) => {
                self.run_for(count, lists, updater);
                Outcome::After(count)
            }
        }
    }

    /// Takes the values on from the start until nothing changes, and so many rounds at most.
    pub(crate) fn run_within<U: Updater>(
        &self,
        limit: u32,
        lists: &mut Lists,
        updater: &mut U,
    ) -> Outcome
        requires sizes { HasSizes self.now.graph.now lists.old.values.items lists.old.sent.items lists.old.mail.items }
        requires values { lists.old.values.items ≡ self.now.starts.now }
        ensures outcome { RunsWithin (rounds_from U.answer self.now.program.now self.now.graph.now self.now.starts.now self.now.arcs.now) limit result lists.new.values.items }
        ensures calls { U.calls updater.new ≡ U.calls updater.old + length self.now.graph.now.ids * rounds_run limit result }
    {
        for round in 0..limit {
            if !self.advance(lists, updater) {
                return Outcome::Settled(round);
            }
        }
        Outcome::Unsettled
    }

    // Takes them on for exactly so many rounds.
    fn run_for<U: Updater>(&self, count: u32, lists: &mut Lists, updater: &mut U)
        requires sizes { HasSizes self.now.graph.now lists.old.values.items lists.old.sent.items lists.old.mail.items }
        requires values { lists.old.values.items ≡ self.now.starts.now }
        ensures values { lists.new.values.items ≡ rounds_from U.answer self.now.program.now self.now.graph.now self.now.starts.now self.now.arcs.now count }
        ensures calls { U.calls updater.new ≡ U.calls updater.old + length self.now.graph.now.ids * count }
    {
        for _round in 0..count {
            self.advance(lists, updater);
        }
    }
}
