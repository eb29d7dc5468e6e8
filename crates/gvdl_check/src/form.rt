//! The forms of the language.

ghost use Rattle.std.specs.Prelude.{◌≡◌};
ghost use Rattle.gvdl_check.specs.Forms.{is_form, is_second, is_tree_order, needs_second, suits};

use gvdl_tree::{OrderWord, Statement};

/// Whether there is such a form: 1 and 2, and none that is written, which is form 1.
pub(crate) fn is_form(form: Option<u64>) -> bool
    ensures { result ≡ is_form form }
{
    match form {
        None => true,
        Some(number) => number == 1 || number == 2,
    }
}

fn is_second(form: Option<u64>) -> bool
    ensures { result ≡ is_second form }
{
    match form {
        None => false,
        Some(number) => number == 2,
    }
}

fn is_tree_order(order: Option<OrderWord>) -> bool
    ensures { result ≡ is_tree_order order }
{
    match order {
        Some(OrderWord::Tree) => true,
        _ => false,
    }
}

/// Whether only form 2 has the statement.
pub(crate) fn needs_second(statement: &Statement) -> bool
    ensures { result ≡ needs_second statement.now }
{
    match statement {
        Statement::Run { order, phases, .. } => is_tree_order(*order) || phases.is_some(),
        Statement::ShowTree { .. }
        | Statement::Insert { .. }
        | Statement::Remove { .. }
        | Statement::Aggregate { .. } => true,
        _ => false,
    }
}

/// Whether the statement may stand in a script of this form.
pub(crate) fn suits(form: Option<u64>, statement: &Statement) -> bool
    ensures { result ≡ suits form statement.now }
{
    is_second(form) || !needs_second(statement)
}
