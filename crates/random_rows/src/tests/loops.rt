//! Loops at random times, against the same loops computed round by round from all that was fed.

ghost use Rattle.flow_core.specs.Runs.{IsFresh};
ghost use Rattle.random_rows.specs.Logic.{without_round};

use super::bodies::{AsPairs, AsSides, Body, Least, Next, Pairs};
use super::joins::{Sides, TestJoin, Unequal};
use super::rounds::{Rounds, once};
use super::runs::{Runs, some_are_right, steps_of};
use diff_iterate::Iterate;
use diff_join::Join;
use diff_reduce::Reduce;
use flow_core::{Chain, Each, Map, NoCalls, Operator};
use flow_rows::Grid;
use lattice_time::{Pair, Round, Time};
use std::alloc::Global;
use std::test::Fail;
use surge_outside::NoMemory;

/// A function on each record.
type EachBody<T> = Map<Next, Pairs, (u32, u32), T, NoCalls>;

/// A join of the fixed pairs with the moving ones.
type JoinBody<T> = Chain<Map<AsSides, Pairs, Sides, T, NoCalls>, TestJoin<T>>;

/// A reduce of all pairs.
type ReduceBody<T> = Chain<Map<AsPairs, Pairs, (u32, u32), T, NoCalls>, Reduce<Least, T, NoCalls>>;

/// What an inner loop comes to in the end.
type LoopBody<T> = Chain<
    Iterate<JoinBody<Pair<T, Round>>, T, NoCalls>,
    Map<WithoutRound, (Round, (u32, u32)), (u32, u32), T, NoCalls>,
>;

/// A record without its round.
#[derive(Drop)]
struct WithoutRound;

impl Each<(Round, (u32, u32)), (u32, u32)> for WithoutRound {
    ghost gives = { λ _ made. without_round made };

    fn apply(&self, made: (Round, (u32, u32))) -> (u32, u32) {
        made.1
    }
}

fn join_body<T: Time>(alloc: Global) -> JoinBody<T>
    ensures { let it = ⟦<JoinBody<T> as Operator<T, NoCalls>>⟧ in IsFresh it.stands it.due it.seal it.spent T.least result }
{
    let sides: Map<AsSides, Pairs, Sides, T, NoCalls> = Map::new(alloc, AsSides);
    let join: TestJoin<T> = Join::new(alloc, Unequal);
    Chain::new(sides, join)
}

fn reduce_body<T: Time>(alloc: Global) -> ReduceBody<T>
    ensures { let it = ⟦<ReduceBody<T> as Operator<T, NoCalls>>⟧ in IsFresh it.stands it.due it.seal it.spent T.least result }
{
    let pairs: Map<AsPairs, Pairs, (u32, u32), T, NoCalls> = Map::new(alloc, AsPairs);
    let reduce: Reduce<Least, T, NoCalls> = Reduce::new(alloc, Least);
    Chain::new(pairs, reduce)
}

fn loop_body<T: Time>(alloc: Global) -> LoopBody<T>
    ensures { let it = ⟦<LoopBody<T> as Operator<T, NoCalls>>⟧ in IsFresh it.stands it.due it.seal it.spent T.least result }
{
    let inner: Iterate<JoinBody<Pair<T, Round>>, T, NoCalls> = Iterate::new(
        alloc,
        join_body::<Pair<T, Round>>(alloc),
        2,
    );
    let last: Map<WithoutRound, (Round, (u32, u32)), (u32, u32), T, NoCalls> = Map::new(
        alloc,
        WithoutRound,
    );
    Chain::new(inner, last)
}

// How many steps a run of a loop of three rounds of this new body takes from a seed, or None where something that it made
// is wrong.
fn loop_steps<
    T: Grid,
    B: Operator<Pair<T, Round>, NoCalls, Input = Pairs, Output = (u32, u32)> + Drop,
>(alloc: Global, body: B, rounds: Rounds, seed: u64) -> Result<Option<usize>, NoMemory>
    requires { IsFresh B.stands B.due B.seal B.spent ⟦<Pair<T, Round> as Time>⟧.least body }
{
    let looped: Iterate<B, T, NoCalls> = Iterate::new(alloc, body, 3);
    steps_of(alloc, looped, &rounds, seed)
}

/// Loops of a function on each record.
#[derive(Drop)]
struct EachLoops;

impl Runs for EachLoops {
    fn steps<T: Grid>(&self, alloc: Global, seed: u64) -> Result<Option<usize>, NoMemory> {
        let each: EachBody<Pair<T, Round>> = Map::new(alloc, Next);
        loop_steps::<T, _>(alloc, each, once(Body::Each), seed)
    }
}

/// Loops of a join.
#[derive(Drop)]
struct JoinLoops;

impl Runs for JoinLoops {
    fn steps<T: Grid>(&self, alloc: Global, seed: u64) -> Result<Option<usize>, NoMemory> {
        let join = join_body::<Pair<T, Round>>(alloc);
        loop_steps::<T, _>(alloc, join, once(Body::Join), seed)
    }
}

/// Loops of a reduce.
#[derive(Drop)]
struct ReduceLoops;

impl Runs for ReduceLoops {
    fn steps<T: Grid>(&self, alloc: Global, seed: u64) -> Result<Option<usize>, NoMemory> {
        let reduce = reduce_body::<Pair<T, Round>>(alloc);
        loop_steps::<T, _>(alloc, reduce, once(Body::Reduce), seed)
    }
}

/// Loops whose body is a loop of a join.
#[derive(Drop)]
struct LoopLoops;

impl Runs for LoopLoops {
    fn steps<T: Grid>(&self, alloc: Global, seed: u64) -> Result<Option<usize>, NoMemory> {
        let body = loop_body::<Pair<T, Round>>(alloc);
        let twice = Rounds {
            body: Body::Join,
            times: 2,
        };
        loop_steps::<T, _>(alloc, body, twice, seed)
    }
}

#[test]
fn loops_at_random_times(rt: HostRuntime) -> Result<(), Fail> {
    assert!(rt; some_are_right(rt.alloc(), &EachLoops, 4)?);
    assert!(rt; some_are_right(rt.alloc(), &JoinLoops, 4)?);
    assert!(rt; some_are_right(rt.alloc(), &ReduceLoops, 4)?);
    Ok(())
}

#[test]
fn loops_in_loops_at_random_times(rt: HostRuntime) -> Result<(), Fail> {
    assert!(rt; some_are_right(rt.alloc(), &LoopLoops, 1)?);
    Ok(())
}
