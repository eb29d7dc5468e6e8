//! Three views of a graph of four nodes, worked out by hand.

ghost use Rattle.std.specs.Prelude.{◌≡◌, ◌<◌, IfOk};
ghost use Rattle.gvdl_check.specs.Fits.{PlanFits};

use graph_loader::load;
use graph_model::Graph;
use gvdl_check::{Plan, check};
use gvdl_parser::parse;
use result_tables::Form;
use std::alloc::Global;
use std::marker::Brand;
use std::sync::ledger::{Blank, Ledger};
use std::test::Fail;
use surge_outside::{List, MemorySink, NoMemory, Sink, Steps, SureSink};
use surge_session::{Next, Session, SessionFault, run_all};
use vertex_lang::Updater;

const NODES: &[u8] = b"id\n1\n2\n3\n4\n";

const EDGES: &[u8] = b"src,dst,y:int\n1,2,1\n2,3,1\n1,3,2\n3,4,3\n";

const SCRIPT: &str =
    "load graph G nodes 'n' edges 'e'; create view collection C on G [a: y <= 1], [b: y <= 2], [c: y = 2 or y = 3]; run hops(1) on C within 10 rounds;";

const TABLES: &str =
    "view C.a hops(1) settled 2\n1,0\n2,1\n3,2\n4,-\nend\nview C.b hops(1) settled 1\n1,0\n2,1\n3,1\n4,-\nend\nview C.c hops(1) settled 2\n1,0\n2,-\n3,1\n4,2\nend\n";

// Four statements behind the load, which write five texts.
const SHOWN: &str =
    "load graph G nodes 'n' edges 'e'; create view collection C on G [a: y <= 1], [b: y <= 2], [c: y = 2 or y = 3]; run hops(1) on C within 3 rounds split auto keep as K; show work K; show order C;";

// The graph in these files. Nothing is said of it, so that no proof reads its files.
fn graph_in(alloc: Global, nodes: &[u8], edges: &[u8]) -> Result<Graph, Fail> {
    let graph = load(alloc, nodes, edges)?;
    Ok(graph)
}

// The plan of a script over a graph.
fn planned(alloc: Global, graph: &Graph, script: &str) -> Result<Plan, Fail>
    ensures { IfOk result (PlanFits graph.now) }
{
    if script.len() > 100_000 {
        return Err(Fail::new("a long script"));
    }
    let tree = parse(alloc, script.as_bytes())?;
    // (all edges came with one file)
    let groups = [graph.edge_count()];
    Ok(check(alloc, &tree, graph, &groups)?)
}

// What the next call of a session answers.
fn answer<O: Sink, U: Updater>(
    session: &mut Session<'_, U>,
    out: &mut O,
    updater: &mut U,
) -> &'static str {
    if session.is_spent() {
        return "is spent";
    }
    match session.next(out, updater) {
        Ok(Next::Ran) => "ran",
        Ok(Next::Ended) => "ended",
        Err(SessionFault::WriteFault) => "write fault",
        Err(SessionFault::NoMemory) => "no memory",
    }
}

// How many statements a session has executed, what its next six calls answer, and how many it has executed then.
fn answers_of<O: Sink, U: Updater>(
    alloc: Global,
    session: &mut Session<'_, U>,
    out: &mut O,
    updater: &mut U,
) -> Result<String, NoMemory> {
    let before = session.executed();
    let mut text = String::new(alloc);
    for _ in 0..6 {
        text.push_str(answer(session, out, updater))?;
        text.push_str(", ")?;
    }
    let executed = session.executed();
    Ok(format!(in alloc; "{before}, {text}{executed}")?)
}

// A sink whose write of this number fails: none where it is 0.
fn sink(alloc: Global, write: u64) -> Result<MemorySink, NoMemory> {
    let fails = Vec::from_slice(alloc, &[write])?;
    Ok(MemorySink::new(alloc, 1000, List::from_vec(fails)))
}

// The same of a session over a plan, where the write of this number fails.
fn answers_in<L: Ledger>(
    alloc: Global,
    graph: &Graph,
    plan: &Plan,
    write: u64,
    blank: Blank,
) -> Result<String, NoMemory>
    requires fits { PlanFits graph.now plan.now }
    requires name { blank.name ≡ L.name }
    requires parts { blank.parts ≡ L.parts }
    requires some { 0 < L.parts }
{
    let mut steps = Steps::<L>::new(blank);
    let mut sink = sink(alloc, write)?;
    let mut session = Session::new(alloc, graph, plan, Form::Tables, None)?;
    answers_of(alloc, &mut session, &mut sink, &mut steps)
}

// The same for the script of four statements, with a ledger of its own.
fn answers(alloc: Global, write: u64) -> Result<String, Fail> {
    let graph = graph_in(alloc, NODES, EDGES)?;
    let plan = planned(alloc, &graph, SHOWN)?;
    Ok(answers_in::<Brand>(alloc, &graph, &plan, write, Blank::new(1))?)
}

#[test]
fn a_session_ends_or_is_spent(rt: HostRuntime) -> Result<(), Fail> {
    let rows = [
        (0, "0, ran, ran, ran, ran, ended, ended, 4"),
        (
            1,
            "0, ran, write fault, is spent, is spent, is spent, is spent, 1",
        ),
        (
            3,
            "0, ran, write fault, is spent, is spent, is spent, is spent, 1",
        ),
        (
            4,
            "0, ran, ran, write fault, is spent, is spent, is spent, 2",
        ),
    ];
    for (write, told) in rows {
        assert_eq!(rt;
            answers(rt.alloc(), write)?.as_str(),
            told,
            "write {write} fails"
        );
    }
    Ok(())
}

// What all statements of a plan print.
fn printed_in<L: Ledger>(
    alloc: Global,
    graph: &Graph,
    plan: &Plan,
    blank: Blank,
) -> Result<Vec<u8>, Fail>
    requires fits { PlanFits graph.now plan.now }
    requires name { blank.name ≡ L.name }
    requires parts { blank.parts ≡ L.parts }
    requires some { 0 < L.parts }
{
    let mut steps = Steps::<L>::new(blank);
    let mut sink = SureSink::new(alloc, 1000);
    run_all(
        alloc,
        graph,
        plan,
        Form::Tables,
        None,
        &mut sink,
        &mut steps,
    )?;
    Ok(Vec::from_slice(alloc, sink.bytes())?)
}

// The same for the script, with a ledger of its own.
fn printed(alloc: Global) -> Result<Vec<u8>, Fail> {
    let graph = graph_in(alloc, NODES, EDGES)?;
    let plan = planned(alloc, &graph, SCRIPT)?;
    printed_in::<Brand>(alloc, &graph, &plan, Blank::new(1))
}

#[test]
fn all_statements_print_their_tables(rt: HostRuntime) -> Result<(), Fail> {
    let text = printed(rt.alloc())?;
    assert_eq!(rt; text.as_slice(), TABLES.as_bytes());
    Ok(())
}
