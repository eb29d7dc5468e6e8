//! Updates whose values were worked out by hand.

ghost use Rattle.std.specs.Prelude.{◌≡◌, ◌<◌, [], ◌∷◌, true, false, IfOk};
ghost use Rattle.vertex_lang.specs.Leaves.{IsUpdate};

use graph_model::Val;
use quick_updates::QuickSteps;
use std::alloc::Global;
use std::marker::Brand;
use std::sync::ledger::{Blank, Ledger};
use std::test::Fail;
use surge_outside::{Boxed, List, NoMemory};
use vertex_lang::{Along, Expr, Gather, Program, Updater};

const NONE: Val = Val::Nil;

const GREATEST: i64 = i64::MAX;

// Below the range, although the code's numbers hold it.
const BELOW: i64 = i64::MIN;

// A start, what was gathered, and the lesser of both.
const LEAST: [(Val, Val, Val); 6] = [
    (Val::Num(3), Val::Num(-2), Val::Num(-2)),
    (NONE, Val::Num(4), Val::Num(4)),
    (Val::Num(4), NONE, Val::Num(4)),
    (NONE, NONE, NONE),
    (Val::Num(BELOW), NONE, Val::Num(-GREATEST)),
    (Val::Num(5), Val::Num(BELOW), Val::Num(-GREATEST)),
];

// Whether the share is added to a number or taken from it, then that number, the factor and the divisor.
type Share = (bool, i64, i64, i64);

const RANK: Share = (true, 150_000, 850_000, 1_000_000);

// No form that is made at once.
const TAKEN: Share = (false, 150_000, 850_000, 1_000_000);

// A number and a share, what was gathered, and the value. Each step is clamped.
const SHARES: [(Share, Val, Val); 9] = [
    (RANK, Val::Num(1_000_000), Val::Num(1_000_000)),
    (RANK, Val::Num(7), Val::Num(150_005)),
    (RANK, Val::Num(-7), Val::Num(149_995)),
    (RANK, NONE, NONE),
    ((true, 1, 2, 0), Val::Num(3), NONE),
    (
        (true, 1, 4, 2),
        Val::Num(GREATEST),
        Val::Num(4_611_686_018_427_387_904),
    ),
    ((true, -1, 1, -1), Val::Num(GREATEST), Val::Num(-GREATEST)),
    ((true, 0, 1, 1), Val::Num(BELOW), Val::Num(-GREATEST)),
    (TAKEN, Val::Num(1_000_000), Val::Num(-700_000)),
];

fn program(update: Expr) -> Program
    ensures { result.update ≡ update }
{
    Program {
        along: Along::Out,
        start: Expr::Nil,
        send: Expr::Value,
        gather: Gather::Sum,
        update,
    }
}

fn least(alloc: Global) -> Result<Program, NoMemory>
    ensures { IfOk result (λ p. IsUpdate p) }
{
    let start = Boxed::new(alloc, Expr::Start)?;
    let gathered = Boxed::new(alloc, Expr::Gathered)?;
    Ok(program(Expr::Least(start, gathered)))
}

// A factor and a divisor.
fn factors(alloc: Global, factor: i64, divisor: i64) -> Result<List<(bool, Expr)>, NoMemory>
    ensures { IfOk result (λ l. l ≡ (true, Expr.Number factor) ∷ (false, Expr.Number divisor) ∷ []) }
{
    let mut list = List::new(alloc);
    list.push((true, Expr::Number(factor)))?;
    list.push((false, Expr::Number(divisor)))?;
    Ok(list)
}

// The share of what was gathered.
fn share_of_gathered(alloc: Global, factor: i64, divisor: i64) -> Result<Expr, NoMemory>
    ensures { IfOk result (λ e. e ≡ Expr.Product Expr.Gathered ((true, Expr.Number factor) ∷ (false, Expr.Number divisor) ∷ [])) }
{
    let gathered = Boxed::new(alloc, Expr::Gathered)?;
    let factors = factors(alloc, factor, divisor)?;
    Ok(Expr::Product(gathered, factors))
}

// What is added to a number, or taken from it.
fn one_more(alloc: Global, plus: bool, share: Expr) -> Result<List<(bool, Expr)>, NoMemory>
    ensures { IfOk result (λ l. l ≡ (plus, share) ∷ []) }
{
    let mut list = List::new(alloc);
    list.push((plus, share))?;
    Ok(list)
}

// A number and a share.
fn sum_of(alloc: Global, base: i64, rest: List<(bool, Expr)>) -> Result<Expr, NoMemory>
    ensures { IfOk result (λ e. e ≡ Expr.Sum (Expr.Number base) rest) }
{
    let base = Boxed::new(alloc, Expr::Number(base))?;
    Ok(Expr::Sum(base, rest))
}

fn with_share(alloc: Global, share: Share) -> Result<Program, NoMemory>
    ensures { IfOk result (λ p. IsUpdate p) }
{
    let (plus, base, factor, divisor) = share;
    let share = share_of_gathered(alloc, factor, divisor)?;
    let rest = one_more(alloc, plus, share)?;
    let update = sum_of(alloc, base, rest)?;
    Ok(program(update))
}

fn answer_in<L: Ledger>(program: &Program, start: Val, gathered: Val, blank: Blank) -> Val
    requires program { IsUpdate program.now }
    requires name { blank.name ≡ L.name }
    requires parts { blank.parts ≡ L.parts }
    requires some { 0 < L.parts }
{
    let mut steps = QuickSteps::<L>::new(blank);
    steps.update(program, 7, start, Val::Num(1), gathered, 2)
}

fn answer(program: &Program, start: Val, gathered: Val) -> Val
    requires { IsUpdate program.now }
{
    answer_in::<Brand>(program, start, gathered, Blank::new(1))
}

fn least_of(alloc: Global, start: Val, gathered: Val) -> Result<Val, NoMemory> {
    let program = least(alloc)?;
    Ok(answer(&program, start, gathered))
}

fn share_of(alloc: Global, share: Share, gathered: Val) -> Result<Val, NoMemory> {
    let program = with_share(alloc, share)?;
    Ok(answer(&program, NONE, gathered))
}

#[test]
fn the_lesser_of_start_and_gathered(rt: HostRuntime) -> Result<(), Fail> {
    for row in 0..LEAST.len() {
        let (start, gathered, expected) = LEAST[row];
        let found = least_of(rt.alloc(), start, gathered)?;
        assert!(rt; found == expected, "row {row}");
    }
    Ok(())
}

#[test]
fn a_number_and_a_share(rt: HostRuntime) -> Result<(), Fail> {
    for row in 0..SHARES.len() {
        let (share, gathered, expected) = SHARES[row];
        let found = share_of(rt.alloc(), share, gathered)?;
        assert!(rt; found == expected, "row {row}");
    }
    Ok(())
}
