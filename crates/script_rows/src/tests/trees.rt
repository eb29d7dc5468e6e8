//! The trees of texts, as they are shown for debugging.

use gvdl_parser::parse;
use std::alloc::{AllocError, Global};
use std::process::Abort;
use std::test::Fail;

/// The load that stands before each text.
const LOAD: &str = "load graph G nodes 'n4.csv' edges 'e1.csv';";

// Predicates: `and` before `or`, chains in parentheses inside chains of their kind.
const PREDICATES: [(&str, &str); 5] = [
    (
        "create view v on G edges where not (y = 1 or y < 2) and true or 'a' is absent;",
        "List { items: [View { name: Text { text: \"v\" }, base: Text { text: \"G\" }, rule: Or(List { items: [And(List { items: [Not(Boxed { inner: Or(List { items: [Compare(Edge(Text { text: \"y\" }), Eq, Number(1)), Compare(Edge(Text { text: \"y\" }), Lt, Number(2))] }) }), Constant(true)] }), Missing(Str(Text { text: \"a\" }))] }) }] }",
    ),
    (
        "create view v on G edges where true or (false or true) or false;",
        "List { items: [View { name: Text { text: \"v\" }, base: Text { text: \"G\" }, rule: Or(List { items: [Constant(true), Or(List { items: [Constant(false), Constant(true)] }), Constant(false)] }) }] }",
    ),
    (
        "create view v on G edges where ((src.id >= -7));",
        "List { items: [View { name: Text { text: \"v\" }, base: Text { text: \"G\" }, rule: Compare(Src(Id), Ge, Number(-7)) }] }",
    ),
    (
        "create view v on G edges where not not true and (true and false);",
        "List { items: [View { name: Text { text: \"v\" }, base: Text { text: \"G\" }, rule: And(List { items: [Not(Boxed { inner: Not(Boxed { inner: Constant(true) }) }), And(List { items: [Constant(true), Constant(false)] })] }) }] }",
    ),
    (
        "create view v on G edges where true != dst.\"it\"\"s\";",
        "List { items: [View { name: Text { text: \"v\" }, base: Text { text: \"G\" }, rule: Compare(Bool(true), Ne, Dst(Prop(Text { text: \"it\\\"s\" }))) }] }",
    ),
];

// Expressions: products before sums, chains from the left, `else` behind an `if`.
const EXPRESSIONS: [(&str, &str); 5] = [
    (
        "program p { along out; start 1 - 2 + 3 * -4 / x; send value; gather min; update start; }",
        "List { items: [Program { name: Text { text: \"p\" }, params: List { items: [] }, along: Out, start: Sum(Boxed { inner: Number(1) }, List { items: [(false, Number(2)), (true, Product(Boxed { inner: Number(3) }, List { items: [(true, Minus(Boxed { inner: Number(4) })), (false, Param(Text { text: \"x\" }))] }))] }), send: Word(Value), gather: Min, update: Word(Start) }] }",
    ),
    (
        "program p { along out; start if 1 = 2 and x is none then 3 else 4 else 5; send value; gather min; update start; }",
        "List { items: [Program { name: Text { text: \"p\" }, params: List { items: [] }, along: Out, start: If(List { items: [Compare(Number(1), Eq, Number(2)), IsNil(Param(Text { text: \"x\" }))] }, Boxed { inner: Number(3) }, Boxed { inner: Else(List { items: [Number(4), Number(5)] }) }), send: Word(Value), gather: Min, update: Word(Start) }] }",
    ),
    (
        "program p { along out; start (1 else 2) else 3; send value; gather min; update start; }",
        "List { items: [Program { name: Text { text: \"p\" }, params: List { items: [] }, along: Out, start: Else(List { items: [Else(List { items: [Number(1), Number(2)] }), Number(3)] }), send: Word(Value), gather: Min, update: Word(Start) }] }",
    ),
    (
        "program p { along out; start 1 - (2 - 3) - 4; send value; gather min; update start; }",
        "List { items: [Program { name: Text { text: \"p\" }, params: List { items: [] }, along: Out, start: Sum(Boxed { inner: Number(1) }, List { items: [(false, Sum(Boxed { inner: Number(2) }, List { items: [(false, Number(3))] })), (false, Number(4))] }), send: Word(Value), gather: Min, update: Word(Start) }] }",
    ),
    (
        "program p { along out; start min(edge.w, none) + max(id, node.a); send value; gather min; update start; }",
        "List { items: [Program { name: Text { text: \"p\" }, params: List { items: [] }, along: Out, start: Sum(Boxed { inner: Least(Boxed { inner: EdgeProp(Text { text: \"w\" }) }, Boxed { inner: Nil }) }, List { items: [(true, Most(Boxed { inner: Word(Id) }, Boxed { inner: NodeProp(Text { text: \"a\" }) }))] }), send: Word(Value), gather: Min, update: Word(Start) }] }",
    ),
];

// Runs, windows, what is shown, edges that come and go, and aggregates.
const STATEMENTS: [(&str, &str); 5] = [
    (
        "run p(-3, w) on C for 7 round order declared split every 2 keep as K;",
        "List { items: [Run { call: Call { name: Text { text: \"p\" }, args: List { items: [Number(-3), Prop(Text { text: \"w\" })] } }, target: Text { text: \"C\" }, within: false, number: 7, order: Some(Declared), split: Some(Every(2)), keep: Some(Text { text: \"K\" }), phases: None }] }",
    ),
    (
        "run p() on C within 007 rounds;",
        "List { items: [Run { call: Call { name: Text { text: \"p\" }, args: List { items: [] } }, target: Text { text: \"C\" }, within: true, number: 7, order: None, split: None, keep: None, phases: None }] }",
    ),
    (
        "append to C [w: window t from -1 to 9 width 4 step 2]; show order C; show work K;",
        "List { items: [Append { target: Text { text: \"C\" }, items: List { items: [Item { name: Text { text: \"w\" }, body: Window { prop: Text { text: \"t\" }, first: -1, last: 9, width: 4, step: 2 } }] } }, ShowOrder { name: Text { text: \"C\" } }, ShowWork { name: Text { text: \"K\" } }] }",
    ),
    (
        "run p on C within 2 rounds order tree; run p on C within 2 rounds phases 03; show tree C;",
        "List { items: [Run { call: Call { name: Text { text: \"p\" }, args: List { items: [] } }, target: Text { text: \"C\" }, within: true, number: 2, order: Some(Tree), split: None, keep: None, phases: None }, Run { call: Call { name: Text { text: \"p\" }, args: List { items: [] } }, target: Text { text: \"C\" }, within: true, number: 2, order: None, split: None, keep: None, phases: Some(3) }, ShowTree { name: Text { text: \"C\" } }] }",
    ),
    (
        "insert edges 'it''s'; remove edges where y = 1; aggregate C group by \"by\"; aggregate C group by g sum w;",
        "List { items: [Insert { file: Text { text: \"it's\" } }, Remove { rule: Compare(Edge(Text { text: \"y\" }), Eq, Number(1)) }, Aggregate { target: Text { text: \"C\" }, by: Text { text: \"by\" }, sum: None }, Aggregate { target: Text { text: \"C\" }, by: Text { text: \"g\" }, sum: Some(Text { text: \"w\" }) }] }",
    ),
];

// The statements of a text behind a load, as they are shown.
fn shown(alloc: Global, rest: &str) -> Result<String, AllocError> {
    let mut text = String::from_str(alloc, LOAD)?;
    text.push_str(rest)?;
    let bytes = text.as_bytes();
    if bytes.len() > 100_000 {
        return format!(in alloc; "too long");
    }
    match parse(alloc, bytes) {
        Ok(script) => format!(in alloc; "{:?}", script.statements),
        Err(_) => format!(in alloc; "a fault"),
    }
}

fn are_shown(rt: &impl Abort, alloc: Global, cases: &[(&str, &str)]) -> Result<(), Fail> {
    for (rest, tree) in cases {
        let text = shown(alloc, rest)?;
        assert_eq!(rt; text.as_str(), *tree);
    }
    Ok(())
}

#[test]
fn trees_of_predicates(rt: HostRuntime) -> Result<(), Fail> {
    are_shown(&rt, rt.alloc(), &PREDICATES)
}

#[test]
fn trees_of_expressions(rt: HostRuntime) -> Result<(), Fail> {
    are_shown(&rt, rt.alloc(), &EXPRESSIONS)
}

#[test]
fn trees_of_statements(rt: HostRuntime) -> Result<(), Fail> {
    are_shown(&rt, rt.alloc(), &STATEMENTS)
}
