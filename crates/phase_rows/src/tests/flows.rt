//! What dataflows in phases make.

ghost use Rattle.flow_core.specs.Runs.{IsFresh};
ghost use Rattle.phase_rows.specs.Fits.{IsFitting};

use crate::tests::cases::Case;
use flow_core::Operator;
use flow_rows::{Fed, Timed, driven};
use graph_model::{NodeNo, Val};
use lattice_time::{Pair, Round, Time};
use phase_flow::{MakesRounds, PhaseFlow, PhaseItem, StartFlows, phases_over};
use std::alloc::Global;
use surge_outside::{List, NoMemory, Record};
use vertex_items::StartInput;
use vertex_lang::Updater;

/// What is made: a value of a node at a phase, or what a last round changed.
pub(crate) type Made = (Round, PhaseItem);

// What the rounds of a phase make.
type Changed = (Round, (NodeNo, Val));

// Takes a new dataflow, whatever its type is. The check takes no function that names the type of a dataflow of rounds over pairs
// of pairs of times, so whoever makes one is generic in its time as a whole, and hands it on.
trait TakesFlow<T: Time, U: Updater, A: Record, B: Record> {
    // What is told of it.
    type Told;

    fn take<F: Operator<T, U, Input = A, Output = B> + Drop>(
        &self,
        flow: F,
        updater: &mut U,
    ) -> Result<Self::Told, NoMemory>
        requires { IsFresh F.stands F.due F.seal F.spent T.least flow };
}

// Hands a new dataflow on.
fn handed<
    T: Time,
    U: Updater,
    A: Record,
    B: Record,
    F: Operator<T, U, Input = A, Output = B> + Drop,
    C: TakesFlow<T, U, A, B>,
>(flow: F, taker: &C, updater: &mut U) -> Result<C::Told, NoMemory>
    requires { IsFresh F.stands F.due F.seal F.spent T.least flow }
{
    taker.take(flow, updater)
}

// Hands on the dataflow of the rounds of a program, as `R` makes it.
fn made_and_handed<
    'c,
    T: Time,
    U: Updater,
    R: MakesRounds<'c, T, U>,
    C: TakesFlow<T, U, StartInput, Changed>,
>(alloc: Global, case: Case<'c>, taker: &C, updater: &mut U) -> Result<C::Told, NoMemory>
    requires { IsFitting case.program.now case.graph.now case.rounds case.phases }
{
    let flow: R::Flow = R::make(alloc, case.graph, case.program, case.rounds);
    handed::<T, U, StartInput, Changed, R::Flow, C>(flow, taker, updater)
}

// The same, as `StartFlows` makes it.
fn rounds_handed<T: Time, U: Updater, C: TakesFlow<T, U, StartInput, Changed>>(
    alloc: Global,
    case: Case<'_>,
    taker: &C,
    updater: &mut U,
) -> Result<C::Told, NoMemory>
    requires { IsFitting case.program.now case.graph.now case.rounds case.phases }
{
    made_and_handed::<T, U, StartFlows, C>(alloc, case, taker, updater)
}

// What a dataflow in phases is made of beside its rounds, and what it is fed.
#[derive(Drop)]
struct InPhases<T: Time> {
    alloc: Global,
    rounds: u32,
    phases: u32,
    fed: List<Fed<T, StartInput>>,
    seals: bool,
}

// What a new dataflow makes of what it is fed, each entry with its time, sealed behind each step where that is asked, or None
// where its contract doesn't allow a step.
fn made_of<T: Time, U: Updater, O: Operator<T, U, Input = StartInput, Output = Made> + Drop>(
    alloc: Global,
    flow: O,
    fed: &[Fed<T, StartInput>],
    seals: bool,
    updater: &mut U,
) -> Result<Option<List<Timed<T, Made>>>, NoMemory>
    requires { IsFresh O.stands O.due O.seal O.spent T.least flow }
{
    let mut flow = flow;
    driven(alloc, &mut flow, fed, seals, updater)
}

impl<T: Time, U: Updater> TakesFlow<Pair<T, Round>, U, StartInput, Changed> for InPhases<T> {
    type Told = Option<List<Timed<T, Made>>>;

    fn take<F: Operator<Pair<T, Round>, U, Input = StartInput, Output = Changed> + Drop>(
        &self,
        flow: F,
        updater: &mut U,
    ) -> Result<Option<List<Timed<T, Made>>>, NoMemory> {
        if self.phases < 1 || self.phases > 1_000 {
            return Ok(None);
        }
        let flow: PhaseFlow<F, T, U> = phases_over(self.alloc, flow, self.rounds, self.phases);
        made_of(self.alloc, flow, self.fed.as_slice(), self.seals, updater)
    }
}

/// What a new dataflow of a program in phases makes of what it is fed, each entry with its time, sealed behind each step where
/// that is asked, or None where its contract doesn't allow a step.
pub(crate) fn made_by<T: Time, U: Updater>(
    alloc: Global,
    case: Case<'_>,
    fed: List<Fed<T, StartInput>>,
    seals: bool,
    updater: &mut U,
) -> Result<Option<List<Timed<T, Made>>>, NoMemory>
    requires { IsFitting case.program.now case.graph.now case.rounds case.phases }
{
    let taker = InPhases {
        alloc,
        rounds: case.rounds,
        phases: case.phases,
        fed,
        seals,
    };
    rounds_handed::<Pair<T, Round>, U, InPhases<T>>(alloc, case, &taker, updater)
}
