//! Bodies of loops over pairs, and what each gives, computed from all that was fed.

ghost use Rattle.std.specs.Prelude.{refl};
ghost use Rattle.random_rows.specs.Logic.{as_pairs, as_sides, least, next_of};

use super::joins::{PairByPair, Sides};
use super::reduces::KeyByKey;
use diff_iterate::LoopInput;
use diff_reduce::KeyLogic;
use flow_core::{Each, NoCalls, Side};
use flow_rows::Reference;
use std::alloc::Global;
use surge_outside::{List, NoMemory, Record};
use weighted::{Batch, Weight};

/// What the loops are fed: fixed and moving pairs.
pub(super) type Pairs = LoopInput<(u32, u32), (u32, u32)>;

/// A moving pair turned round, with one more, below four; a fixed one as it is.
#[derive(Drop)]
pub(super) struct Next;

impl Each<Pairs, (u32, u32)> for Next {
    ghost gives = { λ _ input. next_of input };

    fn apply(&self, input: Pairs) -> (u32, u32) {
        match input {
            LoopInput::Fixed(pair) => pair,
            LoopInput::Moving((a, b)) => (b.wrapping_add(1) % 4, a),
        }
    }
}

/// Fixed pairs as the left side of a join, moving ones as the right one.
#[derive(Drop)]
pub(super) struct AsSides;

impl Each<Pairs, Sides> for AsSides {
    ghost gives = { λ _ input. as_sides input };

    fn apply(&self, input: Pairs) -> Sides {
        match input {
            LoopInput::Fixed(pair) => Side::Left(pair),
            LoopInput::Moving(pair) => Side::Right(pair),
        }
    }
}

/// Fixed pairs as they are, moving ones turned round.
#[derive(Drop)]
pub(super) struct AsPairs;

impl Each<Pairs, (u32, u32)> for AsPairs {
    ghost gives = { λ _ input. as_pairs input };

    fn apply(&self, input: Pairs) -> (u32, u32) {
        match input {
            LoopInput::Fixed(pair) => pair,
            LoopInput::Moving((a, b)) => (b, a),
        }
    }
}

/// The least value of a key.
#[derive(Drop)]
pub(super) struct Least;

impl KeyLogic<NoCalls> for Least {
    type Key = u32;

    type Value = u32;

    type Output = u32;

    ghost gives = { λ _ k words. least words };

    ghost nothing = { λ _ _. refl };

    fn eval(
        &self,
        key: u32,
        words: &[(u32, Weight)],
        into: &mut List<(u32, Weight)>,
        updater: &mut NoCalls,
    ) -> Result<(), NoMemory> {
        if let Some((value, _)) = words.first() {
            into.push((*value, Weight(1)))?;
        }
        Ok(())
    }
}

/// A body of a loop.
#[derive(Clone, Copy, Drop)]
pub(super) enum Body {
    /// A function on each record.
    Each,
    /// A join of the fixed pairs with the moving ones.
    Join,
    /// A reduce of all pairs.
    Reduce,
}

impl Body {
    /// What the body gives, of all that was fed.
    pub(super) fn output(
        &self,
        alloc: Global,
        fed: &Batch<Pairs>,
    ) -> Result<Batch<(u32, u32)>, NoMemory> {
        match self {
            Body::Each => each_of(alloc, &Next, fed),
            Body::Join => joined(alloc, fed),
            Body::Reduce => reduced(alloc, fed),
        }
    }
}

// The fixed pairs joined with the moving ones.
fn joined(alloc: Global, fed: &Batch<Pairs>) -> Result<Batch<(u32, u32)>, NoMemory> {
    let sides = each_of(alloc, &AsSides, fed)?;
    PairByPair.output(alloc, &sides)
}

// The least value of each key.
fn reduced(alloc: Global, fed: &Batch<Pairs>) -> Result<Batch<(u32, u32)>, NoMemory> {
    let pairs = each_of(alloc, &AsPairs, fed)?;
    let made = KeyByKey.output(alloc, &pairs)?;
    leasts(alloc, &made)
}

// The least values alone, each once.
fn leasts(alloc: Global, found: &Batch<(u32, (u32, u64))>) -> Result<Batch<(u32, u32)>, NoMemory> {
    let mut made = List::new(alloc);
    for (record, _) in found.as_slice() {
        let (key, (least, _)) = *record;
        made.push(((key, least), Weight(1)))?;
    }
    Batch::from_entries(made)
}

// What a function gives for each record.
fn each_of<A: Record, B: Record, E: Each<A, B>>(
    alloc: Global,
    each: &E,
    fed: &Batch<A>,
) -> Result<Batch<B>, NoMemory> {
    let mut made = List::new(alloc);
    for (record, weight) in fed.as_slice() {
        made.push((each.apply(*record), *weight))?;
    }
    Batch::from_entries(made)
}
