//! Rules that are conjunctions of bounds.

ghost use Rattle.std.specs.Prelude.{◌≡◌, ◌<◌, ℕ, true, length, IfOk, OnOk, IfSome};
ghost use Rattle.std.specs.List.{list_all};
ghost use Rattle.graph_model.specs.GraphData.{GraphData};
ghost use Rattle.edge_predicates.specs.Truth.{truth, rule_truth};
ghost use Rattle.view_matrix.specs.Bounds.{meets_at, all_meet, AreOf, Adds};

use crate::bounds::{Bounds, bounds_of_comparison};
use edge_predicates::{Pred, ViewRule};
use std::alloc::Global;
use surge_outside::NoMemory;

// Adds bounds to others. Where the last of these are of the same column, both become one.
fn push_bounds(columns: usize, all: &mut Vec<Bounds>, bounds: Bounds) -> Result<(), NoMemory>
    requires { bounds.column < columns }
    ensures { OnOk result (Adds columns all.old.items all.new.items (λ g e. meets_at g e bounds)) }
{
    match all.pop() {
        None => all.push(bounds)?,
        Some(last) => match last.both(bounds) {
            Some(both) => all.push(both)?,
            None => {
                all.push(last)?;
                all.push(bounds)?;
            }
        },
    }
    Ok(())
}

// Adds the bounds that a predicate sets, if it is a conjunction of bounds of so many columns, and tells whether it is.
#[cycle(add_bounds)]
fn add_bounds(columns: usize, all: &mut Vec<Bounds>, pred: &Pred) -> Result<bool, NoMemory>
    ensures { IfOk result (λ added. added ≡ true → Adds columns all.old.items all.new.items (λ g e. truth g e pred.now)) }
{
    match pred {
        Pred::And(members) => add_each(columns, all, members.as_slice()),
        Pred::Compare(first, sign, second) => {
            match bounds_of_comparison(first, *sign, second) {
                Some(bounds) if (bounds.column as usize) < columns => {
                    push_bounds(columns, all, bounds)?;
                    Ok(true)
                }
                _ => Ok(false),
            }
        }
        _ => Ok(false),
    }
}

// Adds the bounds that these predicates set, if each is a conjunction of bounds.
#[cycle(add_bounds)]
fn add_each(columns: usize, all: &mut Vec<Bounds>, preds: &[Pred]) -> Result<bool, NoMemory>
    ensures { IfOk result (λ added. added ≡ true → Adds columns all.old.items all.new.items (λ g e. list_all (truth g e) preds.now)) }
{
    for pred in preds {
        if !add_bounds(columns, all, pred)? {
            return Ok(false);
        }
    }
    Ok(true)
}

/// The bounds that a rule sets, where each of its predicates is a comparison of one of so many columns of the edges
/// with a number, or a conjunction of such. The error is want of memory.
pub(crate) fn bounds_of_rule(
    alloc: Global,
    columns: usize,
    rule: &ViewRule,
) -> Result<Option<Vec<Bounds>>, NoMemory>
    ensures columns { IfOk result (λ found. IfSome found (λ all. AreOf columns all.items)) }
    ensures means { IfOk result (λ found. IfSome found (λ all. (g : GraphData) (e : ℕ) → all_meet g e all.items ≡ rule_truth g e rule.now)) }
{
    let mut all = Vec::new(alloc);
    let added = add_each(columns, &mut all, rule.rules.as_slice())?;
    Ok(if added { Some(all) } else { None })
}
