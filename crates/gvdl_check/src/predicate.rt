//! Predicates against the columns of a graph.

ghost use Rattle.std.specs.Prelude.{◌≡◌, map};
ghost use Rattle.gvdl_programs.specs.Judging.{Tells, each};
ghost use Rattle.gvdl_check.specs.Predicates.{sign_of, is_equality, compares, source_placed, target_placed, edge_placed, placed, comparison, predicate};

use crate::copies::copied_text;
use edge_predicates::{Cmp as CheckedCmp, Place, Pred};
use graph_model::{Graph, Kind};
use gvdl_programs::{Refusal, Stop, column_of};
use gvdl_tree::{Cmp, Field, Operand, PredTree};
use std::alloc::Global;
use surge_outside::{Boxed, List};

fn sign_of(sign: Cmp) -> CheckedCmp
    ensures { result ≡ sign_of sign }
{
    match sign {
        Cmp::Eq => CheckedCmp::Eq,
        Cmp::Ne => CheckedCmp::Ne,
        Cmp::Lt => CheckedCmp::Lt,
        Cmp::Le => CheckedCmp::Le,
        Cmp::Gt => CheckedCmp::Gt,
        Cmp::Ge => CheckedCmp::Ge,
    }
}

fn is_equality(sign: Cmp) -> bool
    ensures { result ≡ is_equality sign }
{
    match sign {
        Cmp::Eq => true,
        Cmp::Ne => true,
        Cmp::Lt => false,
        Cmp::Le => false,
        Cmp::Gt => false,
        Cmp::Ge => false,
    }
}

// Whether values of these kinds can be compared so.
fn compares(first: Kind, sign: Cmp, second: Kind) -> bool
    ensures { result ≡ compares first sign second }
{
    match (first, second) {
        (Kind::Int, Kind::Int) => true,
        (Kind::Str, Kind::Str) => true,
        (Kind::Bool, Kind::Bool) => is_equality(sign),
        _ => false,
    }
}

fn source_placed(graph: &Graph, field: &Field) -> Result<(Place, Kind), Stop>
    ensures { Tells (source_placed graph.now field.now) result }
{
    match field {
        Field::Id => Ok((Place::SrcId, Kind::Int)),
        Field::Prop(property) => {
            let (column, kind) = column_of(graph.node_columns().as_slice(), property.as_str())?;
            Ok((Place::Src(column), kind))
        }
    }
}

fn target_placed(graph: &Graph, field: &Field) -> Result<(Place, Kind), Stop>
    ensures { Tells (target_placed graph.now field.now) result }
{
    match field {
        Field::Id => Ok((Place::DstId, Kind::Int)),
        Field::Prop(property) => {
            let (column, kind) = column_of(graph.node_columns().as_slice(), property.as_str())?;
            Ok((Place::Dst(column), kind))
        }
    }
}

fn edge_placed(graph: &Graph, property: &str) -> Result<(Place, Kind), Stop>
    ensures { Tells (edge_placed graph.now property.now) result }
{
    let (column, kind) = column_of(graph.edge_columns().as_slice(), property)?;
    Ok((Place::Edge(column), kind))
}

// What is read for a side of a comparison, and its kind.
fn placed(alloc: Global, graph: &Graph, operand: &Operand) -> Result<(Place, Kind), Stop>
    ensures { Tells (placed graph.now operand.now) result }
{
    match operand {
        Operand::Number(number) => Ok((Place::Number(*number), Kind::Int)),
        Operand::Str(text) => Ok((Place::Str(copied_text(alloc, text)?), Kind::Str)),
        Operand::Bool(truth) => Ok((Place::Bool(*truth), Kind::Bool)),
        Operand::Src(field) => source_placed(graph, field),
        Operand::Dst(field) => target_placed(graph, field),
        Operand::Edge(property) => edge_placed(graph, property.as_str()),
    }
}

fn comparison(
    alloc: Global,
    graph: &Graph,
    first: &Operand,
    sign: Cmp,
    second: &Operand,
) -> Result<Pred, Stop>
    ensures { Tells (comparison graph.now first.now sign second.now) result }
{
    let (first, first_kind) = placed(alloc, graph, first)?;
    let (second, second_kind) = placed(alloc, graph, second)?;
    if compares(first_kind, sign, second_kind) {
        Ok(Pred::Compare(first, sign_of(sign), second))
    } else {
        Err(Stop::Refused(Refusal::WrongType))
    }
}

/// The predicate with properties as columns. It is walked from the left.
#[cycle(judging)]
pub(crate) fn predicate(alloc: Global, graph: &Graph, tree: &PredTree) -> Result<Pred, Stop>
    ensures { Tells (predicate graph.now tree.now) result }
{
    match tree {
        PredTree::Or(members) => {
            let members = predicates(alloc, graph, members.as_slice())?;
            Ok(Pred::Or(members))
        }
        PredTree::And(members) => {
            let members = predicates(alloc, graph, members.as_slice())?;
            Ok(Pred::And(members))
        }
        PredTree::Not(member) => {
            let member = predicate(alloc, graph, member.get())?;
            Ok(Pred::Not(Boxed::new(alloc, member)?))
        }
        PredTree::Constant(truth) => Ok(Pred::Constant(*truth)),
        PredTree::Compare(first, sign, second) => comparison(alloc, graph, first, *sign, second),
        PredTree::Missing(operand) => {
            let (place, _kind) = placed(alloc, graph, operand)?;
            Ok(Pred::Missing(place))
        }
    }
}

#[cycle(judging)]
fn predicates(alloc: Global, graph: &Graph, trees: &[PredTree]) -> Result<List<Pred>, Stop>
    ensures { Tells (each (map (predicate graph.now) trees.now)) result }
{
    let mut preds = List::new(alloc);
    for tree in trees {
        let pred = predicate(alloc, graph, tree)?;
        preds.push(pred)?;
    }
    Ok(preds)
}
