//! Expressions that built-in programs share.

ghost use Rattle.std.specs.Prelude.{◌≡◌, IfOk};
ghost use Rattle.graph_algos.specs.Shared.{from_source, value_and, least_so_far};

use std::alloc::Global;
use surge_outside::{Boxed, List, NoMemory};
use vertex_lang::{Check, Cmp, Expr};

/// 0 at the node with this id, and none at each other.
pub(crate) fn from_source(alloc: Global, source: i64) -> Result<Expr, NoMemory>
    ensures { IfOk result (λ e. e ≡ from_source source) }
{
    let is_source = List::from_vec(vec![in alloc;
        Check::Compare(Expr::Id, Cmp::Eq, Expr::Number(source)),
    ]?);
    Ok(Expr::If(
        is_source,
        Boxed::new(alloc, Expr::Number(0))?,
        Boxed::new(alloc, Expr::Nil)?,
    ))
}

/// The value and one summand more.
pub(crate) fn value_and(alloc: Global, more: Expr) -> Result<Expr, NoMemory>
    ensures { IfOk result (λ e. e ≡ value_and more) }
{
    let more = List::from_vec(vec![in alloc; (true, more)]?);
    Ok(Expr::Sum(Boxed::new(alloc, Expr::Value)?, more))
}

/// The least of what the node started with and what it got.
pub(crate) fn least_so_far(alloc: Global) -> Result<Expr, NoMemory>
    ensures { IfOk result (λ e. e ≡ least_so_far) }
{
    let start = Boxed::new(alloc, Expr::Start)?;
    Ok(Expr::Least(start, Boxed::new(alloc, Expr::Gathered)?))
}
