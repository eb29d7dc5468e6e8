//! Worked examples of the operators that take no memory of what they were fed.

ghost use Rattle.std.specs.Prelude.{◌≡◌, ℕ, ◌+◌, ◌%◌, ◌^◌, ◌==◌, ◌∷◌, [], OnOk};
ghost use Rattle.flow_core.specs.Runs.{Run, Answers, IsFresh};

use crate::tests::inputs::{Nested, at, has, have, once_each};
use crate::tests::steps::{first_step, in_turn};
use flow_core::{
    Bypass, Chain, Concat, Each, Expand, Filter, FlatMap, Fork, Keep, Map, NoCalls, Operator,
    Quiet, Side, lawful, settled, settled_below,
};
use lattice_time::{Pair, Position, Round, Time};
use std::alloc::Global;
use std::test::Fail;
use surge_outside::{Counted, List, NoMemory};
use weighted::{Batch, Weight};

/// The next number.
#[derive(Drop)]
struct Next;

impl Each<u32, u32> for Next {
    ghost gives = { λ _ a. (a + 1) % 2 ^ 32 };

    fn apply(&self, a: u32) -> u32 {
        a.wrapping_add(1)
    }
}

/// Whether a number is even.
#[derive(Drop)]
struct Even;

impl Keep<u32> for Even {
    ghost keeps = { λ _ a. a % 2 == 0 };

    fn keep(&self, a: &u32) -> bool {
        *a % 2 == 0
    }
}

/// Both ends of an edge.
#[derive(Drop)]
struct Ends;

impl Expand<(u32, u32), u32> for Ends {
    ghost gives = { λ _ edge. edge.0 ∷ edge.1 ∷ [] };

    fn expand(&self, edge: (u32, u32), into: &mut List<u32>) -> Result<(), NoMemory> {
        into.push(edge.0)?;
        into.push(edge.1)
    }
}

/// The first end of an edge.
#[derive(Drop)]
struct FirstEnd;

impl Expand<(u32, u32), u32> for FirstEnd {
    ghost gives = { λ _ edge. edge.0 ∷ [] };

    fn expand(&self, edge: (u32, u32), into: &mut List<u32>) -> Result<(), NoMemory> {
        into.push(edge.0)
    }
}

/// The map to the next number.
type NextMap<T> = Map<Next, u32, u32, T, NoCalls>;

/// The filter of even numbers.
type EvenFilter<T> = Filter<Even, u32, T, NoCalls>;

/// The next numbers, of which the even ones are kept.
type NextEven<T, U> = Chain<Map<Next, u32, u32, T, U>, Filter<Even, u32, T, U>>;

/// A step of a new operator and a seal at its time, at which nothing can be due.
fn step_and_seal<T: Time, U: Counted, O: Operator<T, U>>(
    operator: &mut O,
    t: T,
    delta: &Batch<O::Input>,
    updater: &mut U,
) -> Result<Batch<O::Output>, NoMemory>
    requires { IsFresh O.stands O.due O.seal O.spent T.least operator.old }
    ensures { OnOk result (O.seal operator.new ≡ t) }
{
    t.proper();
    let made = operator.step(t, delta, updater)?;
    settled_below(operator, t);
    settled(operator);
    operator.seal(t)?;
    Ok(made)
}

/// Whether it may be stepped, and nothing is due.
fn is_live<T: Time, U: Counted, O: Operator<T, U>>(operator: &O) -> bool {
    !operator.is_spent() && operator.next_due().is_none()
}

/// What holds of each run of a chain in hand.
fn told<T: Time, U: Counted>(chain: &NextEven<T, U>)
    ensures { let it = ⟦<NextEven<T, U> as Operator<T, U>>⟧ in (run : Run T ℕ ℕ) → it.stands chain.now run → Answers T.leq T.lub (it.apply chain.now) (it.seal chain.now) (it.due chain.now) run }
{
    lawful::<T, U, NextEven<T, U>>(chain);
}

/// A chain of a map and a filter, stepped once.
fn chained<T: Time, U: Counted>(
    alloc: Global,
    t: T,
    delta: &Batch<u32>,
    updater: &mut U,
) -> Result<Batch<u32>, NoMemory> {
    let map: Map<Next, u32, u32, T, U> = Map::new(alloc, Next);
    let filter: Filter<Even, u32, T, U> = Filter::new(alloc, Even);
    let mut chain = Chain::new(map, filter);
    told::<T, U>(&chain);
    first_step(&mut chain, t, delta, updater)
}

/// The same, after a sum of two sides.
fn concatenated<T: Time, U: Counted>(
    alloc: Global,
    t: T,
    delta: &Batch<Side<u32, u32>>,
    updater: &mut U,
) -> Result<Batch<u32>, NoMemory> {
    let concat: Concat<u32, T, U> = Concat::new(alloc);
    let map: Map<Next, u32, u32, T, U> = Map::new(alloc, Next);
    let filter: Filter<Even, u32, T, U> = Filter::new(alloc, Even);
    let mut chain = Chain::new(concat, Chain::new(map, filter));
    first_step(&mut chain, t, delta, updater)
}

/// A map and a filter side by side, stepped once.
fn forked<T: Time, U: Counted>(
    alloc: Global,
    t: T,
    delta: &Batch<u32>,
    updater: &mut U,
) -> Result<Batch<Side<u32, u32>>, NoMemory> {
    let map: Map<Next, u32, u32, T, U> = Map::new(alloc, Next);
    let filter: Filter<Even, u32, T, U> = Filter::new(alloc, Even);
    let mut fork = Fork::new(alloc, map, filter);
    first_step(&mut fork, t, delta, updater)
}

/// A fork whose sides are added up again: each even number, and the number after each.
fn rejoined<T: Time, U: Counted>(
    alloc: Global,
    t: T,
    delta: &Batch<u32>,
    updater: &mut U,
) -> Result<Batch<u32>, NoMemory> {
    let map: Map<Next, u32, u32, T, U> = Map::new(alloc, Next);
    let filter: Filter<Even, u32, T, U> = Filter::new(alloc, Even);
    let fork = Fork::new(alloc, map, filter);
    let concat: Concat<u32, T, U> = Concat::new(alloc);
    let mut sum = Chain::new(fork, concat);
    first_step(&mut sum, t, delta, updater)
}

/// The ends of edges, by an operator that calls no updater of its caller's: how many edges each vertex has.
fn degrees<T: Time, U: Counted>(
    alloc: Global,
    t: T,
    delta: &Batch<(u32, u32)>,
    updater: &mut U,
) -> Result<Batch<u32>, NoMemory> {
    let ends: FlatMap<Ends, (u32, u32), u32, T, NoCalls> = FlatMap::new(alloc, Ends);
    let mut quiet = Quiet::new::<T, U>(ends);
    step_and_seal::<T, U, Quiet<FlatMap<Ends, (u32, u32), u32, T, NoCalls>>>(
        &mut quiet, t, delta, updater,
    )
}

/// The number after the first end of each edge, and past it both ends.
fn bypassed<T: Time, U: Counted>(
    alloc: Global,
    t: T,
    delta: &Batch<(u32, u32)>,
    updater: &mut U,
) -> Result<Batch<u32>, NoMemory> {
    let map: Map<Next, u32, u32, T, U> = Map::new(alloc, Next);
    let mut flow: Bypass<Ends, FirstEnd, (u32, u32), Map<Next, u32, u32, T, U>> = Bypass::new::<
        T,
        U,
    >(alloc, Ends, FirstEnd, map);
    first_step(&mut flow, t, delta, updater)
}

// ---- one step, at any time

/// Whether the chain makes 2 of 1 and 2.
fn chain_answers<T: Time>(alloc: Global, t: T) -> Result<bool, NoMemory> {
    let delta = once_each(alloc, &[1, 2])?;
    let made = chained(alloc, t, &delta, &mut NoCalls)?;
    Ok(has(&made, &[(2, Weight(1))]))
}

/// Whether it does of 1 on the left side and 2 on the right side.
fn concat_answers<T: Time>(alloc: Global, t: T) -> Result<bool, NoMemory> {
    let delta = once_each(alloc, &[Side::Left(1), Side::Right(2)])?;
    let made = concatenated(alloc, t, &delta, &mut NoCalls)?;
    Ok(has(&made, &[(2, Weight(1))]))
}

/// Whether the fork makes 3 on the left side and 2 on the right side of 2.
fn fork_answers<T: Time>(alloc: Global, t: T) -> Result<bool, NoMemory> {
    let delta = once_each(alloc, &[2])?;
    let made = forked(alloc, t, &delta, &mut NoCalls)?;
    Ok(has(
        &made,
        &[(Side::Left(3), Weight(1)), (Side::Right(2), Weight(1))],
    ))
}

#[test]
fn chain_of_map_and_filter(rt: HostRuntime) -> Result<(), Fail> {
    assert!(rt; chain_answers(rt.alloc(), Position(0))?);
    assert!(rt; chain_answers(rt.alloc(), at(0, 0))?);
    Ok(())
}

#[test]
fn chain_after_concat(rt: HostRuntime) -> Result<(), Fail> {
    assert!(rt; concat_answers(rt.alloc(), Position(0))?);
    assert!(rt; concat_answers(rt.alloc(), at(0, 0))?);
    Ok(())
}

#[test]
fn fork_of_map_and_filter(rt: HostRuntime) -> Result<(), Fail> {
    assert!(rt; fork_answers(rt.alloc(), Position(0))?);
    assert!(rt; fork_answers(rt.alloc(), at(0, 0))?);
    Ok(())
}

#[test]
fn fork_joined_again(rt: HostRuntime) -> Result<(), Fail> {
    let delta = once_each(rt.alloc(), &[3, 4])?;
    let made = rejoined(rt.alloc(), at(1, 2), &delta, &mut NoCalls)?;
    assert!(rt; has(&made, &[(4, Weight(2)), (5, Weight(1))]));
    Ok(())
}

#[test]
fn flat_map_that_is_quiet(rt: HostRuntime) -> Result<(), Fail> {
    let delta = once_each(rt.alloc(), &[(1, 2), (2, 3), (3, 3)])?;
    let made = degrees(rt.alloc(), at(1, 2), &delta, &mut NoCalls)?;
    assert!(rt; has(&made, &[(1, Weight(1)), (2, Weight(2)), (3, Weight(3))]));
    Ok(())
}

#[test]
fn bypass_of_a_map(rt: HostRuntime) -> Result<(), Fail> {
    let delta = once_each(rt.alloc(), &[(1, 2), (4, 1)])?;
    let made = bypassed(rt.alloc(), at(1, 2), &delta, &mut NoCalls)?;
    let wanted = [
        (1, Weight(2)),
        (2, Weight(2)),
        (4, Weight(1)),
        (5, Weight(1)),
    ];
    assert!(rt; has(&made, &wanted));
    Ok(())
}

// ---- two steps

/// What two steps made, of 1 and 2 and of 3 behind a seal, and whether the chain and its parts are live then.
fn chain_in_turn(alloc: Global) -> Result<(Option<(Batch<u32>, Batch<u32>)>, bool), NoMemory> {
    let delta = once_each(alloc, &[1, 2])?;
    let more = once_each(alloc, &[3])?;
    let map: Map<Next, u32, u32, Position, NoCalls> = Map::new(alloc, Next);
    let filter: Filter<Even, u32, Position, NoCalls> = Filter::new(alloc, Even);
    let mut chain = Chain::new(map, filter);
    let made = in_turn(
        &mut chain,
        Position(1),
        &delta,
        Position(2),
        &more,
        &mut NoCalls,
    )?;
    let whole = is_live::<Position, NoCalls, NextEven<Position, NoCalls>>(&chain);
    let first = is_live::<Position, NoCalls, NextMap<Position>>(chain.first());
    let second = is_live::<Position, NoCalls, EvenFilter<Position>>(chain.second());
    Ok((made, whole && first && second))
}

#[test]
fn chain_steps_with_a_seal_between(rt: HostRuntime) -> Result<(), Fail> {
    let (made, are_live) = chain_in_turn(rt.alloc())?;
    assert!(rt; have(&made, &[(2, Weight(1))], &[(4, Weight(1))]));
    assert!(rt; are_live);
    Ok(())
}

/// What two steps made, of 1 and 2 and of 4 behind a seal, and whether both sides of the fork are live then.
fn fork_in_turn(alloc: Global) -> Result<(Option<(Batch<u32>, Batch<u32>)>, bool), NoMemory> {
    let delta = once_each(alloc, &[1, 2])?;
    let more = once_each(alloc, &[4])?;
    let concat: Concat<u32, Pair<Position, Round>, NoCalls> = Concat::new(alloc);
    let map: Map<Next, u32, u32, Pair<Position, Round>, NoCalls> = Map::new(alloc, Next);
    let filter: Filter<Even, u32, Pair<Position, Round>, NoCalls> = Filter::new(alloc, Even);
    let mut sum = Chain::new(Fork::new(alloc, map, filter), concat);
    let first_time = Pair {
        outer: Position(1),
        inner: Round(0),
    };
    let second_time = Pair {
        outer: Position(2),
        inner: Round(3),
    };
    let made = in_turn(
        &mut sum,
        first_time,
        &delta,
        second_time,
        &more,
        &mut NoCalls,
    )?;
    let fork = sum.first();
    let left = is_live::<Nested, NoCalls, NextMap<Nested>>(fork.first());
    let right = is_live::<Nested, NoCalls, EvenFilter<Nested>>(fork.second());
    Ok((made, left && right))
}

#[test]
fn fork_steps_with_a_seal_between(rt: HostRuntime) -> Result<(), Fail> {
    let (made, are_live) = fork_in_turn(rt.alloc())?;
    let early = [(2, Weight(2)), (3, Weight(1))];
    let late = [(4, Weight(1)), (5, Weight(1))];
    assert!(rt; have(&made, &early, &late));
    assert!(rt; are_live);
    Ok(())
}
