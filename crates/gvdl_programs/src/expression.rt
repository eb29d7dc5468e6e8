//! Expressions of written programs.

ghost use Rattle.std.specs.Prelude.{◌≡◌, pos, map};
ghost use Rattle.vertex_lang.specs.Values.{clamped};
ghost use Rattle.gvdl_programs.specs.Judging.{Tells, each};
ghost use Rattle.gvdl_programs.specs.Expressions.{allows_word, allows_node, allows_edge, word_judged, node_judged, edge_judged, sign_of, signed, expression, test};

use crate::column::int_column;
use crate::parameters::Parameters;
use crate::refusal::{Refusal, Stop};
use crate::template::{CheckTemplate, ExprTemplate};
use graph_model::Graph;
use gvdl_tree::{Cmp, ExprTree, Test, Word};
use std::alloc::Global;
use surge_outside::{Boxed, List};
use vertex_lang::Cmp as ProgramCmp;

/// A part of a program.
#[derive(Clone, Copy, Debug, PartialEq, Eq)]
pub(crate) enum Part {
    Start,
    Send,
    Update,
}

fn allows_word(part: Part, word: Word) -> bool
    ensures { result ≡ allows_word part word }
{
    match (part, word) {
        (Part::Start, Word::Id) => true,
        (Part::Send, Word::Id) => true,
        (Part::Send, Word::Value) => true,
        (Part::Send, Word::Outdeg) => true,
        (Part::Update, Word::Id) => true,
        (Part::Update, Word::Start) => true,
        (Part::Update, Word::Value) => true,
        (Part::Update, Word::Gathered) => true,
        (Part::Update, Word::Count) => true,
        _ => false,
    }
}

fn allows_node(part: Part) -> bool
    ensures { result ≡ allows_node part }
{
    match part {
        Part::Start => true,
        Part::Send => false,
        Part::Update => false,
    }
}

fn allows_edge(part: Part) -> bool
    ensures { result ≡ allows_edge part }
{
    match part {
        Part::Start => false,
        Part::Send => true,
        Part::Update => false,
    }
}

fn word_judged(part: Part, word: Word) -> Result<ExprTemplate, Stop>
    ensures { Tells (word_judged part word) result }
{
    if allows_word(part, word) {
        Ok(ExprTemplate::Word(word))
    } else {
        Err(Stop::Refused(Refusal::UnknownName))
    }
}

fn node_judged(graph: &Graph, part: Part, name: &str) -> Result<ExprTemplate, Stop>
    ensures { Tells (node_judged graph.now part name.now) result }
{
    if !allows_node(part) {
        return Err(Stop::Refused(Refusal::UnknownName));
    }
    let column = int_column(graph.node_columns().as_slice(), name)?;
    Ok(ExprTemplate::NodeProp(column))
}

fn edge_judged(graph: &Graph, part: Part, name: &str) -> Result<ExprTemplate, Stop>
    ensures { Tells (edge_judged graph.now part name.now) result }
{
    if !allows_edge(part) {
        return Err(Stop::Refused(Refusal::UnknownName));
    }
    let column = int_column(graph.edge_columns().as_slice(), name)?;
    Ok(ExprTemplate::EdgeProp(column))
}

fn sign_of(sign: Cmp) -> ProgramCmp
    ensures { result ≡ sign_of sign }
{
    match sign {
        Cmp::Eq => ProgramCmp::Eq,
        Cmp::Ne => ProgramCmp::Ne,
        Cmp::Lt => ProgramCmp::Lt,
        Cmp::Le => ProgramCmp::Le,
        Cmp::Gt => ProgramCmp::Gt,
        Cmp::Ge => ProgramCmp::Ge,
    }
}

// The number of a text, of which none is above 2^63 - 1.
fn clamped_number(number: u64) -> i64
    ensures { result ≡ clamped (pos number) }
{
    number.min(i64::MAX as u64) as i64
}

/// An expression in a part of a program, with properties as columns and parameters by their places. It is walked from the
/// left, tests before branches.
#[cycle(judging)]
pub(crate) fn expression(
    alloc: Global,
    graph: &Graph,
    part: Part,
    parameters: &Parameters,
    tree: &ExprTree,
) -> Result<ExprTemplate, Stop>
    ensures { Tells (expression graph.now part parameters.now tree.now) result }
{
    match tree {
        ExprTree::If(tests, first, second) => {
            let checks = checks(alloc, graph, part, parameters, tests.as_slice())?;
            let first = boxed(alloc, graph, part, parameters, first.get())?;
            let second = boxed(alloc, graph, part, parameters, second.get())?;
            Ok(ExprTemplate::If(checks, first, second))
        }
        ExprTree::Else(members) => {
            let members = members_of(alloc, graph, part, parameters, members.as_slice())?;
            Ok(ExprTemplate::Else(members))
        }
        ExprTree::Sum(first, rest) => {
            let first = boxed(alloc, graph, part, parameters, first.get())?;
            let rest = chain_of(alloc, graph, part, parameters, rest.as_slice())?;
            Ok(ExprTemplate::Sum(first, rest))
        }
        ExprTree::Product(first, rest) => {
            let first = boxed(alloc, graph, part, parameters, first.get())?;
            let rest = chain_of(alloc, graph, part, parameters, rest.as_slice())?;
            Ok(ExprTemplate::Product(first, rest))
        }
        ExprTree::Minus(member) => {
            let member = boxed(alloc, graph, part, parameters, member.get())?;
            Ok(ExprTemplate::Minus(member))
        }
        ExprTree::Number(number) => Ok(ExprTemplate::Number(clamped_number(*number))),
        ExprTree::Nil => Ok(ExprTemplate::Nil),
        ExprTree::Word(word) => word_judged(part, *word),
        ExprTree::EdgeProp(name) => edge_judged(graph, part, name.as_str()),
        ExprTree::NodeProp(name) => node_judged(graph, part, name.as_str()),
        ExprTree::Param(name) => Ok(ExprTemplate::Param(parameters.expect(name.as_str())?)),
        ExprTree::Least(first, second) => {
            let first = boxed(alloc, graph, part, parameters, first.get())?;
            let second = boxed(alloc, graph, part, parameters, second.get())?;
            Ok(ExprTemplate::Least(first, second))
        }
        ExprTree::Most(first, second) => {
            let first = boxed(alloc, graph, part, parameters, first.get())?;
            let second = boxed(alloc, graph, part, parameters, second.get())?;
            Ok(ExprTemplate::Most(first, second))
        }
    }
}

#[cycle(judging)]
fn boxed(
    alloc: Global,
    graph: &Graph,
    part: Part,
    parameters: &Parameters,
    tree: &ExprTree,
) -> Result<Boxed<ExprTemplate>, Stop>
    ensures { Tells (expression graph.now part parameters.now tree.now) result }
{
    let judged = expression(alloc, graph, part, parameters, tree)?;
    Ok(Boxed::new(alloc, judged)?)
}

#[cycle(judging)]
fn check(
    alloc: Global,
    graph: &Graph,
    part: Part,
    parameters: &Parameters,
    tree: &Test,
) -> Result<CheckTemplate, Stop>
    ensures { Tells (test graph.now part parameters.now tree.now) result }
{
    match tree {
        Test::Compare(first, sign, second) => {
            let first = expression(alloc, graph, part, parameters, first)?;
            let second = expression(alloc, graph, part, parameters, second)?;
            Ok(CheckTemplate::Compare(first, sign_of(*sign), second))
        }
        Test::IsNil(member) => Ok(CheckTemplate::IsNil(expression(
            alloc, graph, part, parameters, member,
        )?)),
    }
}

#[cycle(judging)]
fn checks(
    alloc: Global,
    graph: &Graph,
    part: Part,
    parameters: &Parameters,
    tests: &[Test],
) -> Result<List<CheckTemplate>, Stop>
    ensures { Tells (each (map (test graph.now part parameters.now) tests.now)) result }
{
    let mut judged = List::new(alloc);
    for tree in tests {
        judged.push(check(alloc, graph, part, parameters, tree)?)?;
    }
    Ok(judged)
}

#[cycle(judging)]
fn members_of(
    alloc: Global,
    graph: &Graph,
    part: Part,
    parameters: &Parameters,
    trees: &[ExprTree],
) -> Result<List<ExprTemplate>, Stop>
    ensures { Tells (each (map (expression graph.now part parameters.now) trees.now)) result }
{
    let mut judged = List::new(alloc);
    for tree in trees {
        judged.push(expression(alloc, graph, part, parameters, tree)?)?;
    }
    Ok(judged)
}

#[cycle(judging)]
fn chain_of(
    alloc: Global,
    graph: &Graph,
    part: Part,
    parameters: &Parameters,
    trees: &[(bool, ExprTree)],
) -> Result<List<(bool, ExprTemplate)>, Stop>
    ensures { Tells (each (map (λ member. signed (member.0, expression graph.now part parameters.now member.1)) trees.now)) result }
{
    let mut judged = List::new(alloc);
    for member in trees {
        let other = expression(alloc, graph, part, parameters, &member.1)?;
        judged.push((member.0, other))?;
    }
    Ok(judged)
}
