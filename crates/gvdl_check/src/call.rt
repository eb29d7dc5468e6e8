//! The parts of a run.

ghost use Rattle.std.specs.Prelude.{◌≡◌};
ghost use Rattle.gvdl_programs.specs.Judging.{Tells};
ghost use Rattle.gvdl_check.specs.Plans.{are_rounds, rounds_of, order_of, are_phases, phases_of, every, split_of, limits_meant};

use crate::plan::OrderRule;
use gvdl_programs::{Refusal, Stop};
use gvdl_tree::{OrderWord, SplitWord};
use segment_split::SplitRule;
use vertex_lang::Rounds;

const ROUND_LIMIT: u64 = 1_000_000;

const PHASE_LIMIT: u64 = 1_000;

/// How long a run goes on, how often, in which order it takes the views, and where it starts anew, as they are written.
#[derive(Clone, Copy)]
pub(crate) struct Limits {
    /// Whether it goes on `within` the number of rounds, and not for exactly so many.
    pub(crate) within: bool,
    pub(crate) number: u64,
    pub(crate) order: Option<OrderWord>,
    pub(crate) split: Option<SplitWord>,
    pub(crate) phases: Option<u64>,
}

fn are_rounds(number: u64) -> bool
    ensures { result ≡ are_rounds number }
{
    1 <= number && number <= ROUND_LIMIT
}

// How long a run goes on: `within` the number of rounds, or for exactly so many.
fn rounds_of(within: bool, number: u64) -> Result<Rounds, Stop>
    ensures { Tells (rounds_of within number) result }
{
    if !are_rounds(number) {
        return Err(Stop::Refused(Refusal::BadRounds));
    }
    let number = number as u32;
    if within {
        Ok(Rounds::Within(number))
    } else {
        Ok(Rounds::For(number))
    }
}

/// In which order a run takes the views: greedily, unless another order is written.
pub(crate) fn order_of(order: Option<OrderWord>) -> OrderRule
    ensures { result ≡ order_of order }
{
    match order {
        None => OrderRule::Greedy,
        Some(OrderWord::Greedy) => OrderRule::Greedy,
        Some(OrderWord::Declared) => OrderRule::Declared,
        Some(OrderWord::Tree) => OrderRule::Tree,
    }
}

fn are_phases(number: u64) -> bool
    ensures { result ≡ are_phases number }
{
    1 <= number && number <= PHASE_LIMIT
}

// How often the rounds are done, where that is written.
fn phases_of(phases: Option<u64>) -> Result<Option<u32>, Stop>
    ensures { Tells (phases_of phases) result }
{
    match phases {
        None => Ok(None),
        Some(number) => {
            if !are_phases(number) {
                return Err(Stop::Refused(Refusal::BadRounds));
            }
            Ok(Some(number as u32))
        }
    }
}

// Into segments of so many views.
fn every(number: u64) -> Result<SplitRule, Stop>
    ensures { Tells (every number) result }
{
    if number == 0 {
        return Err(Stop::Refused(Refusal::BadSplit));
    }
    Ok(SplitRule::Every(number))
}

// Where a run starts anew: nowhere, unless a split is written.
fn split_of(split: Option<SplitWord>) -> Result<SplitRule, Stop>
    ensures { Tells (split_of split) result }
{
    match split {
        None => Ok(SplitRule::Whole),
        Some(SplitWord::Whole) => Ok(SplitRule::Whole),
        Some(SplitWord::Every(number)) => every(number),
        Some(SplitWord::Auto) => Ok(SplitRule::Auto),
    }
}

impl Limits {
    /// How long the run goes on, how often, and then where it starts anew.
    pub(crate) fn judged(self) -> Result<(Rounds, Option<u32>, SplitRule), Stop>
        ensures { Tells (limits_meant self) result }
    {
        let rounds = rounds_of(self.within, self.number)?;
        let phases = phases_of(self.phases)?;
        let split = split_of(self.split)?;
        Ok((rounds, phases, split))
    }
}
