//! Operations on a number below the range, although the code's numbers hold it.

ghost use Rattle.std.specs.Prelude.{◌≡◌, ◌<◌, IfOk, IsTrue};
ghost use Rattle.std.specs.List.{list_all};
ghost use Rattle.vertex_lang.specs.Leaves.{IsUpdate, in_update, leaves_of};
ghost use Rattle.algorithm_rows.specs.Operations.{summed, multiplied, lesser_of_both, greater_of_both, first_of_both, negative};

use graph_model::Val;
use std::alloc::Global;
use std::marker::Brand;
use std::sync::ledger::{Blank, Ledger};
use std::test::Fail;
use surge_outside::{Boxed, List, NoMemory, Steps};
use vertex_lang::{Along, Expr, Gather, Program, eval};

const BELOW: Val = Val::Num(i64::MIN);

const LEAST: Val = Val::Num(-i64::MAX);

const GREATEST: Val = Val::Num(i64::MAX);

/// An operation on the value with which a node started, and the value that it has; `Minus` on the first alone. A sum is a
/// difference, and a product a quotient, where the flag isn't set.
#[derive(Clone, Copy)]
enum Operation {
    Sum(bool),
    Product(bool),
    Least,
    Most,
    Else,
    Minus,
}

fn summed(alloc: Global, plus: bool) -> Result<Expr, NoMemory>
    ensures { IfOk result (λ e. e ≡ summed plus) }
{
    let rest = List::from_vec(vec![in alloc; (plus, Expr::Value)]?);
    Ok(Expr::Sum(Boxed::new(alloc, Expr::Start)?, rest))
}

fn multiplied(alloc: Global, times: bool) -> Result<Expr, NoMemory>
    ensures { IfOk result (λ e. e ≡ multiplied times) }
{
    let rest = List::from_vec(vec![in alloc; (times, Expr::Value)]?);
    Ok(Expr::Product(Boxed::new(alloc, Expr::Start)?, rest))
}

fn lesser(alloc: Global) -> Result<Expr, NoMemory>
    ensures { IfOk result (λ e. e ≡ lesser_of_both) }
{
    let start = Boxed::new(alloc, Expr::Start)?;
    Ok(Expr::Least(start, Boxed::new(alloc, Expr::Value)?))
}

fn greater(alloc: Global) -> Result<Expr, NoMemory>
    ensures { IfOk result (λ e. e ≡ greater_of_both) }
{
    let start = Boxed::new(alloc, Expr::Start)?;
    Ok(Expr::Most(start, Boxed::new(alloc, Expr::Value)?))
}

fn first(alloc: Global) -> Result<Expr, NoMemory>
    ensures { IfOk result (λ e. e ≡ first_of_both) }
{
    let members = vec![in alloc; Expr::Start, Expr::Value]?;
    Ok(Expr::Else(List::from_vec(members)))
}

fn negative(alloc: Global) -> Result<Expr, NoMemory>
    ensures { IfOk result (λ e. e ≡ negative) }
{
    Ok(Expr::Minus(Boxed::new(alloc, Expr::Start)?))
}

// The operation, which an update may hold.
#[tactic(auto, using(crate::proofs::Fits::fitting))]
fn built(alloc: Global, operation: Operation) -> Result<Expr, NoMemory>
    ensures { IfOk result (λ e. IsTrue (list_all in_update (leaves_of e))) }
{
    match operation {
        Operation::Sum(plus) => summed(alloc, plus),
        Operation::Product(times) => multiplied(alloc, times),
        Operation::Least => lesser(alloc),
        Operation::Most => greater(alloc),
        Operation::Else => first(alloc),
        Operation::Minus => negative(alloc),
    }
}

// A program whose update is the operation.
fn program(alloc: Global, operation: Operation) -> Result<Program, NoMemory>
    ensures { IfOk result (λ p. IsUpdate p) }
{
    Ok(Program {
        along: Along::Out,
        start: Expr::Nil,
        send: Expr::Nil,
        gather: Gather::Min,
        update: built(alloc, operation)?,
    })
}

fn value_in<L: Ledger>(program: &Program, start: Val, value: Val, blank: Blank) -> Val
    requires program { IsUpdate program.now }
    requires name { blank.name ≡ L.name }
    requires parts { blank.parts ≡ L.parts }
    requires some { 0 < L.parts }
{
    let mut steps = Steps::<L>::new(blank);
    eval(program, 9, start, value, Val::Nil, 0, &mut steps)
}

// The value of an operation.
fn value(alloc: Global, operation: Operation, start: Val, value: Val) -> Result<Val, NoMemory> {
    let program = program(alloc, operation)?;
    Ok(value_in::<Brand>(&program, start, value, Blank::new(1)))
}

#[test]
fn operations_on_a_number_below_the_range(rt: HostRuntime) -> Result<(), Fail> {
    let alloc = rt.alloc();
    let nothing = Val::Nil;
    assert!(rt; value(alloc, Operation::Sum(true), BELOW, Val::Num(0))? == LEAST);
    assert!(rt; value(alloc, Operation::Sum(false), Val::Num(0), BELOW)? == GREATEST);
    assert!(rt; value(alloc, Operation::Product(true), BELOW, Val::Num(1))? == LEAST);
    assert!(rt; value(alloc, Operation::Product(false), BELOW, Val::Num(-1))? == GREATEST);
    assert!(rt; value(alloc, Operation::Product(false), BELOW, Val::Num(1))? == LEAST);
    assert!(rt; value(alloc, Operation::Least, BELOW, nothing)? == LEAST);
    assert!(rt; value(alloc, Operation::Most, BELOW, nothing)? == LEAST);
    assert!(rt; value(alloc, Operation::Else, BELOW, Val::Num(1))? == BELOW);
    assert!(rt; value(alloc, Operation::Minus, BELOW, nothing)? == GREATEST);
    Ok(())
}
