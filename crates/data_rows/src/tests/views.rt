//! Rules of views as rows of their parts, and matrices of them.

ghost use Rattle.std.specs.Prelude.{◌≡◌, length, IfOk};

use edge_predicates::{Cmp, Place, Pred, ViewRule};
use graph_model::{Graph, ViewNo};
use std::alloc::{AllocError, Global};
use surge_outside::{List, NoMemory};
use view_matrix::Matrix;

/// What a rule asks of an edge. Columns are those of the edges.
#[derive(Clone, Copy)]
pub(crate) enum Part {
    /// Nothing (true), or what no edge has.
    Always(bool),
    /// The cell in this column compares so with the number.
    Cell(u32, Cmp, i64),
    /// The number compares so with the cell in this column.
    Number(i64, Cmp, u32),
    /// There is no cell in this column.
    Absent(u32),
}

/// How a rule says that each of its parts holds.
#[derive(Clone, Copy)]
pub(crate) enum Form {
    /// By one predicate for each part.
    List,
    /// By a conjunction of them.
    Chain,
    /// By a choice of this conjunction alone, which is evaluated at each edge.
    Choice,
}

// ---- rules

fn pred(part: Part) -> Pred {
    match part {
        Part::Always(holds) => Pred::Constant(holds),
        Part::Cell(column, sign, number) => {
            Pred::Compare(Place::Edge(column), sign, Place::Number(number))
        }
        Part::Number(number, sign, column) => {
            Pred::Compare(Place::Number(number), sign, Place::Edge(column))
        }
        Part::Absent(column) => Pred::Missing(Place::Edge(column)),
    }
}

fn preds(alloc: Global, parts: &[Part]) -> Result<List<Pred>, AllocError> {
    let mut preds = Vec::new(alloc);
    for part in parts {
        preds.push(pred(*part))?;
    }
    Ok(List::from_vec(preds))
}

fn one(alloc: Global, pred: Pred) -> Result<List<Pred>, AllocError> {
    Ok(List::from_vec(vec![in alloc; pred]?))
}

fn choice(alloc: Global, pred: Pred) -> Result<List<Pred>, AllocError> {
    let members = one(alloc, pred)?;
    one(alloc, Pred::Or(members))
}

/// The rule that each of these parts holds.
pub(crate) fn rule(alloc: Global, parts: &[Part], form: Form) -> Result<ViewRule, AllocError> {
    let preds = preds(alloc, parts)?;
    let rules = match form {
        Form::List => preds,
        Form::Chain => one(alloc, Pred::And(preds))?,
        Form::Choice => choice(alloc, Pred::And(preds))?,
    };
    Ok(ViewRule { rules })
}

/// A rule for each row.
pub(crate) fn rules(
    alloc: Global,
    rows: &[&[Part]],
    form: Form,
) -> Result<Vec<ViewRule>, AllocError> {
    let mut rules = Vec::new(alloc);
    for parts in rows {
        rules.push(rule(alloc, parts, form)?)?;
    }
    Ok(rules)
}

// ---- matrices

fn all_live(alloc: Global, graph: &Graph) -> Result<List<bool>, NoMemory>
    ensures { IfOk result (λ live. length live ≡ length graph.now.ends) }
{
    let live = vec![in alloc; true; graph.edge_count() as usize]?;
    Ok(List::from_vec(live))
}

/// The matrix of the first rules over a graph whose edges are all live, to which the second are added: of each the first
/// hundred at most.
pub(crate) fn matrix_of(
    alloc: Global,
    graph: &Graph,
    first: &[ViewRule],
    second: &[ViewRule],
) -> Result<Matrix, NoMemory>
    ensures { IfOk result (λ matrix. length matrix.live ≡ length graph.now.ends) }
{
    let live = all_live(alloc, graph)?;
    let mut matrix = Matrix::build(alloc, graph, &live, &first[..first.len().min(100)])?;
    matrix.add_views(graph, &second[..second.len().min(100)])?;
    Ok(matrix)
}

/// The matrix of the rules of these rows.
pub(crate) fn matrix_of_rows(
    alloc: Global,
    graph: &Graph,
    first: &[&[Part]],
    second: &[&[Part]],
) -> Result<Matrix, NoMemory>
    ensures { IfOk result (λ matrix. length matrix.live ≡ length graph.now.ends) }
{
    let first = rules(alloc, first, Form::List)?;
    let second = rules(alloc, second, Form::List)?;
    matrix_of(alloc, graph, first.as_slice(), second.as_slice())
}

/// In how many edges a view differs from another, or from the empty column; 99 where there is no such view.
pub(crate) fn distance(matrix: &Matrix, before: Option<u32>, view: u32) -> u64 {
    if view >= matrix.views() {
        return 99;
    }
    match before {
        Some(last) if last < matrix.views() => matrix.distance(Some(ViewNo(last)), ViewNo(view)),
        Some(_) => 99,
        None => matrix.distance(None, ViewNo(view)),
    }
}
