//! What a summary says of the values.

ghost use Rattle.std.specs.Prelude.{◌≡◌, ◌++◌, ◌+◌, ◌<◌, ◌≤◌, pos, neg_ℤ, ◌+ℤ◌, ◌≤ℤ◌, length, OnOk};
ghost use Rattle.result_tables.specs.TableText.{count_one, number_of, count_values, sum_values, sums_text};

use graph_model::Val;
use std::alloc::Global;
use surge_outside::NoMemory;

/// How many values there are, and their sum.
#[derive(Clone, Copy)]
pub(crate) struct Totals {
    count: u64,
    sum: i128,
}

// With one more value.
fn with_value(totals: Totals, value: Val) -> Totals
    requires few { totals.count < 1_000_000 }
    requires low { neg_ℤ (pos 9_223_372_036_854_775_808_000_000) ≤ℤ totals.sum }
    requires high { totals.sum ≤ℤ pos 9_223_372_036_854_775_808_000_000 }
    ensures count { result.count ≡ totals.count + count_one value }
    ensures sum { result.sum ≡ totals.sum +ℤ number_of value }
    ensures least { neg_ℤ (pos 9_223_372_036_854_775_808) ≤ℤ number_of value }
    ensures greatest { number_of value ≤ℤ pos 9_223_372_036_854_775_808 }
{
    match value {
        Val::Nil => totals,
        Val::Num(number) => Totals {
            count: totals.count + 1,
            sum: totals.sum + i128::from(number),
        },
    }
}

// Counts and sums values.
fn totals_of(values: &[Val]) -> Totals
    requires { length values.now ≤ 1_000_000 }
    ensures count { result.count ≡ count_values values.now }
    ensures sum { result.sum ≡ sum_values values.now }
{
    let mut totals = Totals { count: 0, sum: 0 };
    for value in values {
        totals = with_value(totals, *value);
    }
    totals
}

/// Adds how many values there are, and their sum.
pub(crate) fn push_totals(alloc: Global, text: &mut Vec<u8>, values: &[Val]) -> Result<(), NoMemory>
    requires { length values.now ≤ 1_000_000 }
    ensures { OnOk result (text.new.items ≡ text.old.items ++ sums_text values.now) }
{
    let Totals { count, sum } = totals_of(values);
    let totals = format!(in alloc; " values {count} sum {sum}")?;
    text.extend_from_slice(totals.as_bytes())?;
    Ok(())
}
