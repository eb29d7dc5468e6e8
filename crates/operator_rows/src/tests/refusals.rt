//! A logic that wants memory for one key: the reduce is spent then, and so is what holds it.

ghost use Rattle.std.specs.Prelude.{◌≤◌, ◌==◌, ◌∷◌, [], length, if◌then◌else◌, refl};
ghost use Rattle.flow_core.specs.Runs.{IsFresh};
ghost use Rattle.operator_rows.specs.Rows.{next_pair};

use crate::tests::inputs::{Nested, at, once_each};
use crate::tests::steps::first_step;
use diff_iterate::{Iterate, LoopInput};
use diff_reduce::{KeyLogic, Reduce};
use flow_core::{Chain, Each, Map, NoCalls, Operator};
use lattice_time::{Position, Time};
use std::alloc::Global;
use std::test::Fail;
use surge_outside::{Counted, List, NoMemory};
use weighted::{Batch, Weight};

/// The record 1 for each key that has values, but for the key 7, for which it wants memory.
#[derive(Drop)]
struct ButSeven;

impl<U: Counted> KeyLogic<U> for ButSeven {
    type Key = u32;

    type Value = u32;

    type Output = u32;

    ghost gives = { λ _ _ words. if length words == 0 then [] else (1, 1) ∷ [] };

    ghost nothing = { λ _ _. refl };

    fn eval(
        &self,
        key: u32,
        words: &[(u32, Weight)],
        into: &mut List<(u32, Weight)>,
        updater: &mut U,
    ) -> Result<(), NoMemory> {
        if key == 7 {
            return Err(NoMemory);
        }
        if words.is_empty() {
            return Ok(());
        }
        into.push((1, Weight(1)))
    }
}

/// A key with a value.
type Keyed = (u32, u32);

/// A moving record under the next key, and a fixed one as it is.
#[derive(Drop)]
struct NextKey;

impl Each<LoopInput<Keyed, Keyed>, Keyed> for NextKey {
    ghost gives = { λ _ input. next_pair input };

    fn apply(&self, input: LoopInput<Keyed, Keyed>) -> Keyed {
        match input {
            LoopInput::Fixed(pair) => pair,
            LoopInput::Moving((key, value)) => (key.wrapping_add(1), value),
        }
    }
}

/// A reduce behind a map.
type Behind<T> = Chain<
    Map<NextKey, LoopInput<Keyed, Keyed>, Keyed, T, NoCalls>,
    Reduce<ButSeven, T, NoCalls>,
>;

/// Whether the first step of a new operator wanted memory, and whether the operator is spent behind it.
fn refused<T: Time, U: Counted, O: Operator<T, U>>(
    mut operator: O,
    t: T,
    delta: &Batch<O::Input>,
    updater: &mut U,
) -> (bool, bool)
where
    O: Drop,
    requires { IsFresh O.stands O.due O.seal O.spent T.least operator }
{
    let refused = first_step(&mut operator, t, delta, updater).is_err();
    (refused, operator.is_spent())
}

/// The reduce behind a map, new.
fn behind<T: Time>(alloc: Global) -> Behind<T>
    ensures { let it = ⟦<Behind<T> as Operator<T, NoCalls>>⟧ in IsFresh it.stands it.due it.seal it.spent T.least result }
{
    Chain::new(Map::new(alloc, NextKey), Reduce::new(alloc, ButSeven))
}

/// A reduce that is fed these keys.
fn reduced(alloc: Global, keys: &[Keyed]) -> Result<(bool, bool), NoMemory> {
    let delta = once_each(alloc, keys)?;
    let reduce: Reduce<ButSeven, Nested, NoCalls> = Reduce::new(alloc, ButSeven);
    Ok(refused(reduce, at(0, 0), &delta, &mut NoCalls))
}

/// A reduce behind a map to the next key, that is fed a moving record under this key.
fn chained(alloc: Global, key: u32) -> Result<(bool, bool), NoMemory> {
    let delta = once_each(alloc, &[LoopInput::Moving((key, 0))])?;
    Ok(refused(behind::<Nested>(alloc), at(0, 0), &delta, &mut NoCalls))
}

/// A loop of so many rounds of both, that begins with a record under this key.
fn looped(alloc: Global, key: u32, rounds: u32) -> Result<(bool, bool), NoMemory>
    requires some { 1 ≤ rounds }
    requires few { rounds ≤ 1000000 }
{
    let delta = once_each(alloc, &[LoopInput::Moving((key, 0))])?;
    let body = behind::<Nested>(alloc);
    let steps: Iterate<Behind<Nested>, Position, NoCalls> = Iterate::new(alloc, body, rounds);
    Ok(refused(steps, Position(0), &delta, &mut NoCalls))
}

#[test]
fn a_refused_key_spends_what_holds_its_reduce(rt: HostRuntime) -> Result<(), Fail> {
    let alloc = rt.alloc();
    assert!(rt; reduced(alloc, &[(3, 5), (6, 5)])? == (false, false));
    assert!(rt; reduced(alloc, &[(3, 5), (7, 5)])? == (true, true));
    assert!(rt; chained(alloc, 5)? == (false, false));
    assert!(rt; chained(alloc, 6)? == (true, true));
    // The second round comes to the key.
    assert!(rt; looped(alloc, 5, 1)? == (false, false));
    assert!(rt; looped(alloc, 5, 2)? == (true, true));
    Ok(())
}
