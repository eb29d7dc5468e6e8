//! Answers of views, which were worked out by hand.

ghost use Rattle.std.specs.Prelude.{◌≡◌, ◌<◌, All, IsTrue, IfOk};

use graph_model::{NodeNo, Val, ViewNo};
use result_tables::Results;
use std::alloc::Global;
use std::test::Fail;
use surge_outside::NoMemory;
use vertex_lang::Outcome;

const FIRST: [(NodeNo, Val); 3] = [
    (NodeNo(0), Val::Num(5)),
    (NodeNo(1), Val::Nil),
    (NodeNo(2), Val::Num(-2)),
];

// The answers over three nodes, so far that on view 7.
fn first(alloc: Global) -> Result<Results, NoMemory>
    ensures { IfOk result (λ results. results.nodes ≡ 3) }
{
    let mut results = Results::new(alloc, 3);
    results.add_change(ViewNo(7), None, Outcome::Settled(2), &FIRST)?;
    Ok(results)
}

fn names_nodes(change: &[(NodeNo, Val)]) -> bool
    ensures { IsTrue result → All (λ c. c.0.0 < 3) change.now }
{
    change.iter().all(|(node, _)| node.0 < 3)
}

// Adds the answer on a view behind another, where that may be done.
fn behind(
    results: &mut Results,
    last: u32,
    view: u32,
    outcome: Outcome,
    change: &[(NodeNo, Val)],
) -> Result<(), NoMemory>
    requires { results.old.nodes ≡ 3 }
    ensures { results.new.nodes ≡ 3 }
{
    if results.has(ViewNo(view)) || !results.has(ViewNo(last)) || !names_nodes(change) {
        return Ok(());
    }
    results.add_change(ViewNo(view), Some(ViewNo(last)), outcome, change)
}

// A view, the one that it stands behind, how its run ended, and what changed.
type Step = (u32, u32, Outcome, &'static [(NodeNo, Val)]);

// Adds the answers of these views, one after the other.
fn behind_all(results: &mut Results, steps: &[Step]) -> Result<(), NoMemory>
    requires { results.old.nodes ≡ 3 }
    ensures { results.new.nodes ≡ 3 }
{
    for (view, last, outcome, change) in steps {
        behind(results, *last, *view, *outcome, change)?;
    }
    Ok(())
}

// The answer on view 7, and those of these views.
fn first_and(alloc: Global, steps: &[Step]) -> Result<Results, NoMemory> {
    let mut results = first(alloc)?;
    behind_all(&mut results, steps)?;
    Ok(results)
}

// The table of a view, if there is one.
fn table_text(alloc: Global, results: &Results, view: u32) -> Result<String, NoMemory> {
    if !results.has(ViewNo(view)) {
        return Ok(String::from_str(alloc, "none\n")?);
    }
    let table = results.table(ViewNo(view))?;
    Ok(format!(in alloc; "{:?} {:?}\n", table.outcome, table.values.as_slice())?)
}

// The tables of these views.
fn tables_text(alloc: Global, results: &Results, views: &[u32]) -> Result<String, NoMemory> {
    let mut text = String::new(alloc);
    for view in views {
        text.push_str(table_text(alloc, results, *view)?.as_str())?;
    }
    Ok(text)
}

// The tables of these views behind all steps.
fn tables_behind(alloc: Global, steps: &[Step], views: &[u32]) -> Result<String, NoMemory> {
    let results = first_and(alloc, steps)?;
    tables_text(alloc, &results, views)
}

// Views 4 and 9 stand behind view 7. With the change of view 9 more nodes changed than there are.
const IN_A_ROW: [Step; 2] = [
    (4, 7, Outcome::After(4), &[(NodeNo(1), Val::Num(9))]),
    (
        9,
        4,
        Outcome::Settled(0),
        &[(NodeNo(0), Val::Nil), (NodeNo(2), Val::Num(1))],
    ),
];

// Views 7, 4 and 9.
const TABLES_IN_A_ROW: &str = "Settled(2) [Num(5), Nil, Num(-2)]
After(4) [Num(5), Num(9), Num(-2)]
Settled(0) [Nil, Num(9), Num(1)]
";

#[test]
fn views_behind_one_another(rt: HostRuntime) -> Result<(), Fail> {
    assert_eq!(rt;
        tables_behind(rt.alloc(), &IN_A_ROW, &[7, 4, 9])?.as_str(),
        TABLES_IN_A_ROW
    );
    Ok(())
}

// Views 2 and 4 stand behind view 7, and view 3 behind view 2, whose run did not settle.
const SIDE_BY_SIDE: [Step; 3] = [
    (4, 7, Outcome::After(4), &[(NodeNo(1), Val::Num(9))]),
    (2, 7, Outcome::Unsettled, &[(NodeNo(2), Val::Num(8))]),
    (3, 2, Outcome::Settled(1), &[]),
];

// Views 2, 3 and 5, which isn't there.
const TABLES_SIDE_BY_SIDE: &str = "Unsettled []
Settled(1) [Num(5), Nil, Num(8)]
none
";

#[test]
fn views_behind_one_view(rt: HostRuntime) -> Result<(), Fail> {
    assert_eq!(rt;
        tables_behind(rt.alloc(), &SIDE_BY_SIDE, &[2, 3, 5])?.as_str(),
        TABLES_SIDE_BY_SIDE
    );
    Ok(())
}

// Adds view 4, and tells whether it is held exactly where it was added.
fn is_added_or_not(results: &mut Results) -> bool
    requires { results.old.nodes ≡ 3 }
{
    let change = [(NodeNo(1), Val::Num(9)), (NodeNo(0), Val::Num(6))];
    let added = behind(results, 7, 4, Outcome::After(4), &change);
    results.has(ViewNo(4)) == added.is_ok()
}

// Whether that is so, and the table of view 7 behind it.
fn first_is_kept(alloc: Global) -> Result<String, NoMemory> {
    let mut results = first(alloc)?;
    let is_so = is_added_or_not(&mut results);
    let table = table_text(alloc, &results, 7)?;
    Ok(format!(in alloc; "{is_so} {table}")?)
}

// Where memory is wanting, view 4 isn't held; view 7 is, with the same table.
#[test]
fn a_refusal_leaves_all_as_it_was(rt: HostRuntime) -> Result<(), Fail> {
    assert_eq!(rt;
        first_is_kept(rt.alloc())?.as_str(),
        "true Settled(2) [Num(5), Nil, Num(-2)]\n"
    );
    Ok(())
}

// The answer over no node.
fn without_nodes(alloc: Global) -> Result<Results, NoMemory> {
    let mut results = Results::new(alloc, 0);
    results.add_change(ViewNo(0), None, Outcome::Settled(0), &[])?;
    Ok(results)
}

fn table_without_nodes(alloc: Global) -> Result<String, NoMemory> {
    let results = without_nodes(alloc)?;
    table_text(alloc, &results, 0)
}

#[test]
fn no_node_at_all(rt: HostRuntime) -> Result<(), Fail> {
    assert_eq!(rt;
        table_without_nodes(rt.alloc())?.as_str(),
        "Settled(0) []\n"
    );
    Ok(())
}
