//! Hop counts from the node 1 on views of four nodes.

ghost use Rattle.std.specs.Prelude.{◌≡◌, ◌≤◌, ◌<◌, ◌+◌, ◌++◌, true, false, length, All, IfOk, OnOk};
ghost use Rattle.graph_model.specs.GraphData.{AreDistinct};
ghost use Rattle.view_matrix.specs.Matrices.{IsView};
ghost use Rattle.view_engine.specs.Engines.{AllowsSplit, AreFinished, IsEngine, Stands};

use edge_predicates::{Cmp, Place, Pred, ViewRule};
use graph_algos::hops;
use graph_loader::load;
use graph_model::{Graph, Val, ViewNo};
use result_tables::Table;
use segment_split::SplitRule;
use std::alloc::{AllocError, Global};
use std::marker::Brand;
use std::sync::ledger::{Blank, Ledger};
use std::test::Fail;
use surge_outside::{List, NoMemory, Steps};
use vertex_lang::{Outcome, Rounds, Updater};
use view_engine::{Engine, Turn};
use view_matrix::Matrix;
use view_order::views_from;

const NODES: &[u8] = b"id\n1\n2\n3\n4\n";

const EDGES: &[u8] = b"src,dst,y:int\n1,2,1\n2,3,1\n1,3,2\n3,4,3\n";

// The rule of one comparison of the first column with a number.
fn rule(alloc: Global, sign: Cmp, number: i64) -> Result<ViewRule, AllocError> {
    let pred = Pred::Compare(Place::Edge(0), sign, Place::Number(number));
    let rules = List::from_vec(vec![in alloc; pred]?);
    Ok(ViewRule { rules })
}

// At most 1, at most 2, above 1, and at least 2.
fn four_rules(alloc: Global) -> Result<Vec<ViewRule>, AllocError> {
    let mut rules = Vec::new(alloc);
    for (sign, number) in [(Cmp::Le, 1), (Cmp::Le, 2), (Cmp::Gt, 1), (Cmp::Ge, 2)] {
        rules.push(rule(alloc, sign, number)?)?;
    }
    Ok(rules)
}

// ---- what an engine answers, as text

fn push_value(alloc: Global, text: &mut String, value: Val) -> Result<(), AllocError> {
    match value {
        Val::Nil => text.push_str("-"),
        Val::Num(number) => text.push_str(format!(in alloc; "{number}")?.as_str()),
    }
}

fn push_table(alloc: Global, text: &mut String, table: &Table) -> Result<(), AllocError> {
    text.push_str(format!(in alloc; "{:?}:", table.outcome)?.as_str())?;
    for value in table.values.as_slice() {
        push_value(alloc, text, *value)?;
    }
    Ok(())
}

fn push_number(alloc: Global, text: &mut String, number: Option<u64>) -> Result<(), AllocError> {
    match number {
        Some(number) => text.push_str(format!(in alloc; "{number} ")?.as_str()),
        None => text.push_str("- "),
    }
}

// The segment of a view, its work and its table.
fn push_view(
    alloc: Global,
    text: &mut String,
    engine: &Engine,
    view: ViewNo,
) -> Result<(), NoMemory>
    requires { IsEngine engine.now }
{
    push_number(alloc, text, engine.segment_of(view).map(u64::from))?;
    push_number(alloc, text, engine.work(view))?;
    if let Some(table) = engine.result(view)? {
        push_table(alloc, text, &table)?;
    }
    text.push_str(";")?;
    Ok(())
}

// The same of each view.
fn push_views(alloc: Global, text: &mut String, engine: &Engine) -> Result<(), NoMemory>
    requires { IsEngine engine.now }
{
    for view in engine.order().as_slice() {
        push_view(alloc, text, engine, *view)?;
    }
    Ok(())
}

// ---- turns

// Turns the segment with this number, if there is one.
fn turn_one<U: Updater>(
    engine: &mut Engine,
    matrix: &Matrix,
    number: u32,
    updater: &mut U,
) -> Result<Option<Turn>, NoMemory>
    requires engine { IsEngine engine.old }
    requires fresh { engine.old.spent ≡ false }
    requires stands { Stands U.answer matrix.now engine.old }
    ensures engine { OnOk result (IsEngine engine.new) }
    ensures fresh { OnOk result (engine.new.spent ≡ false) }
    ensures stands { OnOk result (Stands U.answer matrix.now engine.new) }
    ensures order { OnOk result (engine.new.order ≡ engine.old.order) }
    ensures grows { OnOk result (engine.new.grows ≡ engine.old.grows) }
{
    if number >= engine.segments() {
        return Ok(None);
    }
    match engine.turn(matrix, number, updater) {
        Ok(Turn::Moved) => Ok(Some(Turn::Moved)),
        Ok(Turn::Finished) => Ok(Some(Turn::Finished)),
        Err(NoMemory) => Err(NoMemory),
    }
}

fn turn_text(turn: Option<Turn>) -> &'static str {
    match turn {
        Some(Turn::Moved) => "M",
        Some(Turn::Finished) => "F",
        None => "-",
    }
}

// Turns the segments with these numbers, and tells of each what it did.
fn turned<U: Updater>(
    text: &mut String,
    engine: &mut Engine,
    matrix: &Matrix,
    turns: &[u32],
    updater: &mut U,
) -> Result<(), NoMemory>
    requires engine { IsEngine engine.old }
    requires fresh { engine.old.spent ≡ false }
    requires stands { Stands U.answer matrix.now engine.old }
    ensures engine { OnOk result (IsEngine engine.new) }
    ensures fresh { OnOk result (engine.new.spent ≡ false) }
    ensures stands { OnOk result (Stands U.answer matrix.now engine.new) }
    ensures order { OnOk result (engine.new.order ≡ engine.old.order) }
    ensures grows { OnOk result (engine.new.grows ≡ engine.old.grows) }
{
    for number in turns {
        let turn = turn_one(engine, matrix, *number, updater)?;
        text.push_str(turn_text(turn))?;
    }
    Ok(())
}

// Whether each view that has a segment was stepped.
fn is_finished(engine: &Engine) -> bool
    requires { IsEngine engine.now }
    ensures { result ≡ true → AreFinished engine.now }
{
    for number in 0..engine.segments() {
        let segment = engine.segment(number);
        if segment.works().len() != segment.views().len() {
            return false;
        }
    }
    true
}

// Adds these views, once each of those before was stepped, and turns segments again.
fn added<U: Updater>(
    text: &mut String,
    engine: &mut Engine,
    matrix: &Matrix,
    later: &[ViewNo],
    turns: &[u32],
    updater: &mut U,
) -> Result<(), NoMemory>
    requires engine { IsEngine engine.old }
    requires fresh { engine.old.spent ≡ false }
    requires stands { Stands U.answer matrix.now engine.old }
    requires grows { engine.old.grows ≡ true }
    requires views { All (IsView matrix.now) (engine.old.order ++ later.now) }
    requires distinct { AreDistinct (engine.old.order ++ later.now) }
    requires few { length engine.old.order + length later.now ≤ 1_024 }
    ensures { OnOk result (IsEngine engine.new) }
{
    if later.is_empty() || !is_finished(engine) {
        return Ok(());
    }
    engine.rest();
    engine.more(matrix, later)?;
    turned(text, engine, matrix, turns, updater)
}

// ---- rows

fn all_live(alloc: Global, graph: &Graph) -> Result<List<bool>, NoMemory>
    ensures { IfOk result (λ live. length live ≡ length graph.now.ends) }
{
    let live = vec![in alloc; true; graph.edge_count() as usize]?;
    Ok(List::from_vec(live))
}

// How many segments there are before these turns and behind them, and what the turns did.
fn early<U: Updater>(
    alloc: Global,
    text: &mut String,
    engine: &mut Engine,
    matrix: &Matrix,
    turns: &[u32],
    updater: &mut U,
) -> Result<(), NoMemory>
    requires engine { IsEngine engine.old }
    requires fresh { engine.old.spent ≡ false }
    requires stands { Stands U.answer matrix.now engine.old }
    ensures engine { OnOk result (IsEngine engine.new) }
    ensures fresh { OnOk result (engine.new.spent ≡ false) }
    ensures stands { OnOk result (Stands U.answer matrix.now engine.new) }
    ensures order { OnOk result (engine.new.order ≡ engine.old.order) }
    ensures grows { OnOk result (engine.new.grows ≡ engine.old.grows) }
{
    push_number(alloc, text, Some(u64::from(engine.segments())))?;
    turned(text, engine, matrix, turns, updater)?;
    text.push_str(" ")?;
    push_number(alloc, text, Some(u64::from(engine.segments())))?;
    Ok(())
}

// What the views of an engine answer behind these turns, and with later ones behind more turns.
fn whole<U: Updater>(
    alloc: Global,
    text: &mut String,
    engine: &mut Engine,
    matrix: &Matrix,
    later: &[ViewNo],
    turns: &[u32],
    more: &[u32],
    updater: &mut U,
) -> Result<(), NoMemory>
    requires engine { IsEngine engine.old }
    requires fresh { engine.old.spent ≡ false }
    requires stands { Stands U.answer matrix.now engine.old }
    requires grows { engine.old.grows ≡ true }
    requires views { All (IsView matrix.now) (engine.old.order ++ later.now) }
    requires distinct { AreDistinct (engine.old.order ++ later.now) }
    requires few { length engine.old.order + length later.now ≤ 1_024 }
{
    early(alloc, text, engine, matrix, turns, updater)?;
    added(text, engine, matrix, later, more, updater)?;
    text.push_str(" ")?;
    push_views(alloc, text, engine)
}

// The same of an engine that is closed, so that none is added.
fn closed<U: Updater>(
    alloc: Global,
    text: &mut String,
    engine: &mut Engine,
    matrix: &Matrix,
    turns: &[u32],
    updater: &mut U,
) -> Result<(), NoMemory>
    requires engine { IsEngine engine.old }
    requires fresh { engine.old.spent ≡ false }
    requires stands { Stands U.answer matrix.now engine.old }
{
    engine.close();
    early(alloc, text, engine, matrix, turns, updater)?;
    text.push_str(" ")?;
    push_views(alloc, text, engine)
}

// The same of the first views of a matrix and of later ones.
fn played_on<U: Updater>(
    alloc: Global,
    text: &mut String,
    graph: &Graph,
    matrix: &Matrix,
    first: &[ViewNo],
    later: &[ViewNo],
    split: SplitRule,
    turns: &[u32],
    more: &[u32],
    updater: &mut U,
) -> Result<(), NoMemory>
    requires matrix { length matrix.now.live ≡ length graph.now.ends }
    requires views { All (IsView matrix.now) (first.now ++ later.now) }
    requires distinct { AreDistinct (first.now ++ later.now) }
    requires first { All (IsView matrix.now) first.now }
    requires apart { AreDistinct first.now }
    requires few { length first.now + length later.now ≤ 1_024 }
    requires split { AllowsSplit split }
{
    let program = hops(alloc, 1)?;
    let rounds = Rounds::Within(3);
    let mut engine = Engine::new(alloc, graph, matrix, &program, first, split, rounds)?;
    if later.is_empty() {
        return closed(alloc, text, &mut engine, matrix, turns, updater);
    }
    whole(
        alloc,
        text,
        &mut engine,
        matrix,
        later,
        turns,
        more,
        updater,
    )
}

// The views of a matrix, at most 1,024.
fn few_views(alloc: Global, matrix: &Matrix) -> Result<List<ViewNo>, NoMemory>
    ensures within { IfOk result (All (IsView matrix.now)) }
    ensures distinct { IfOk result AreDistinct }
    ensures few { IfOk result (λ views. length views ≤ 1_024) }
{
    let views = views_from(alloc, matrix, 0)?;
    if views.len() > 1_024 {
        return Err(NoMemory);
    }
    Ok(views)
}

// The matrix of the four views.
fn four_in(alloc: Global, graph: &Graph) -> Result<Matrix, NoMemory>
    ensures { IfOk result (λ matrix. length matrix.live ≡ length graph.now.ends) }
{
    let live = all_live(alloc, graph)?;
    let rules = four_rules(alloc)?;
    if rules.len() > 1_024 {
        return Err(NoMemory);
    }
    Matrix::build(alloc, graph, &live, rules.as_slice())
}

// The same, of so many first views of a matrix and of the others.
fn played<U: Updater>(
    alloc: Global,
    text: &mut String,
    graph: &Graph,
    matrix: &Matrix,
    count: usize,
    split: SplitRule,
    turns: &[u32],
    more: &[u32],
    updater: &mut U,
) -> Result<(), NoMemory>
    requires matrix { length matrix.now.live ≡ length graph.now.ends }
    requires split { AllowsSplit split }
{
    let views = few_views(alloc, matrix)?;
    let all = views.as_slice();
    if count > all.len() {
        return Ok(());
    }
    played_on(
        alloc,
        text,
        graph,
        matrix,
        &all[..count],
        &all[count..],
        split,
        turns,
        more,
        updater,
    )
}

// The graph in these files. Nothing is said of it, so that no proof reads its files.
fn graph_in(alloc: Global, nodes: &[u8], edges: &[u8]) -> Result<Graph, Fail> {
    let graph = load(alloc, nodes, edges)?;
    Ok(graph)
}

// So many of the four views, and the others once they are stepped.
fn counted<L: Ledger>(
    alloc: Global,
    text: &mut String,
    graph: &Graph,
    count: usize,
    split: SplitRule,
    turns: &[u32],
    more: &[u32],
    blank: Blank,
) -> Result<(), NoMemory>
    requires split { AllowsSplit split }
    requires name { blank.name ≡ L.name }
    requires parts { blank.parts ≡ L.parts }
    requires some { 0 < L.parts }
{
    let mut steps = Steps::<L>::new(blank);
    let matrix = four_in(alloc, graph)?;
    played(
        alloc, text, graph, &matrix, count, split, turns, more, &mut steps,
    )
}

// The same of four nodes.
fn views_on_four(
    alloc: Global,
    count: usize,
    split: SplitRule,
    turns: &[u32],
    more: &[u32],
) -> Result<String, Fail>
    requires { AllowsSplit split }
{
    let graph = graph_in(alloc, NODES, EDGES)?;
    let mut text = String::new(alloc);
    counted::<Brand>(
        alloc,
        &mut text,
        &graph,
        count,
        split,
        turns,
        more,
        Blank::new(1),
    )?;
    Ok(text)
}

// Three views of four nodes, and a fourth once they are stepped.
fn on_four(alloc: Global, split: SplitRule, turns: &[u32], more: &[u32]) -> Result<String, Fail>
    requires { AllowsSplit split }
{
    views_on_four(alloc, 3, split, turns, more)
}

// All four views, with an engine that is closed.
fn all_on_four(alloc: Global, split: SplitRule, turns: &[u32]) -> Result<String, Fail>
    requires { AllowsSplit split }
{
    views_on_four(alloc, 4, split, turns, &[])
}

#[test]
fn a_segment_for_each_view_in_any_order(rt: HostRuntime) -> Result<(), Fail> {
    let text = on_four(rt.alloc(), SplitRule::Every(1), &[2, 0, 1, 1], &[])?;
    assert_eq!(rt;
        text.as_str(),
        "3 MMMF 3  0 7 Settled(2):012-;1 6 Settled(1):011-;2 7 Settled(2):0-12;3 - ;"
    );
    Ok(())
}

#[test]
fn one_segment_for_all(rt: HostRuntime) -> Result<(), Fail> {
    let text = on_four(rt.alloc(), SplitRule::Whole, &[0, 0, 0, 0], &[0])?;
    assert_eq!(rt;
        text.as_str(),
        "1 MMMF 1 M 0 7 Settled(2):012-;0 3 Settled(1):011-;0 5 Settled(2):0-12;0 0 Settled(2):0-12;"
    );
    Ok(())
}

#[test]
fn segments_by_works(rt: HostRuntime) -> Result<(), Fail> {
    let text = on_four(rt.alloc(), SplitRule::Auto, &[0, 0, 1], &[1])?;
    assert_eq!(rt;
        text.as_str(),
        "1 MMM 2 M 0 7 Settled(2):012-;0 3 Settled(1):011-;1 7 Settled(2):0-12;1 0 Settled(2):0-12;"
    );
    let early = on_four(rt.alloc(), SplitRule::Auto, &[0, 3], &[0])?;
    assert_eq!(rt; early.as_str(), "1 M- 1  0 7 Settled(2):012-;0 - ;- - ;");
    Ok(())
}

#[test]
fn two_views_a_segment(rt: HostRuntime) -> Result<(), Fail> {
    let text = on_four(rt.alloc(), SplitRule::Every(2), &[1, 0, 0], &[1, 1])?;
    assert_eq!(rt;
        text.as_str(),
        "2 MMM 2 MF 0 7 Settled(2):012-;0 3 Settled(1):011-;1 7 Settled(2):0-12;1 0 Settled(2):0-12;"
    );
    Ok(())
}

#[test]
fn a_closed_engine_answers_the_same(rt: HostRuntime) -> Result<(), Fail> {
    let alone = all_on_four(rt.alloc(), SplitRule::Every(1), &[3, 2, 0, 1])?;
    assert_eq!(rt;
        alone.as_str(),
        "4 MMMM 4  0 7 Settled(2):012-;1 6 Settled(1):011-;2 7 Settled(2):0-12;3 7 Settled(2):0-12;"
    );
    let whole = all_on_four(rt.alloc(), SplitRule::Whole, &[0, 0, 0, 0, 0])?;
    assert_eq!(rt;
        whole.as_str(),
        "1 MMMMF 1  0 7 Settled(2):012-;0 3 Settled(1):011-;0 5 Settled(2):0-12;0 0 Settled(2):0-12;"
    );
    let by_works = all_on_four(rt.alloc(), SplitRule::Auto, &[0, 0, 1, 1])?;
    assert_eq!(rt;
        by_works.as_str(),
        "1 MMMM 2  0 7 Settled(2):012-;0 3 Settled(1):011-;1 7 Settled(2):0-12;1 0 Settled(2):0-12;"
    );
    Ok(())
}
