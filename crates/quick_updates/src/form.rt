//! The forms of updates that are told from the program.

ghost use Rattle.std.specs.Prelude.{◌∷◌, [], true};
ghost use Rattle.vertex_lang.specs.declared.program.Expr.TheVariants.{Sum, Product, Number, Least};
ghost use Rattle.quick_updates.specs.Forms.{HasForm};

use vertex_lang::Expr;

/// A number to which a share of what was gathered is added: what was gathered, times the factor and then divided by the
/// divisor.
#[derive(Clone, Copy)]
pub(crate) struct Damping {
    pub(crate) base: i64,
    pub(crate) factor: i64,
    pub(crate) divisor: i64,
}

/// Forms of updates that are made without a walk through the expression.
#[derive(Clone, Copy)]
pub(crate) enum Form {
    /// The lesser of the start and of what was gathered.
    Least,
    /// A number and a share of what was gathered.
    Damped(Damping),
    /// Any other.
    Other,
}

/// The form of an update expression.
pub(crate) fn form_of(update: &Expr) -> Form
    ensures { HasForm update.now result }
{
    match update {
        Expr::Least(left, right) => form_of_least(left.get(), right.get()),
        Expr::Sum(first, rest) => form_of_sum(first.get(), rest.as_slice()),
        _ => Form::Other,
    }
}

// The form of the lesser of two values.
fn form_of_least(left: &Expr, right: &Expr) -> Form
    ensures { HasForm (Least left.now right.now) result }
{
    match (left, right) {
        (Expr::Start, Expr::Gathered) => Form::Least,
        _ => Form::Other,
    }
}

// The form of a chain of sums and differences.
fn form_of_sum(first: &Expr, rest: &[(bool, Expr)]) -> Form
    ensures { HasForm (Sum first.now rest.now) result }
{
    match (first, rest) {
        (Expr::Number(base), [(true, Expr::Product(share, factors))]) => {
            form_of_share(*base, share.get(), factors.as_slice())
        }
        _ => Form::Other,
    }
}

// The form of a number to which a chain of products and quotients is added.
fn form_of_share(base: i64, share: &Expr, factors: &[(bool, Expr)]) -> Form
    ensures { HasForm (Sum (Number base) ((true, Product share.now factors.now) ∷ [])) result }
{
    match (share, factors) {
        (Expr::Gathered, [(true, Expr::Number(factor)), (false, Expr::Number(divisor))]) => {
            Form::Damped(Damping {
                base,
                factor: *factor,
                divisor: *divisor,
            })
        }
        _ => Form::Other,
    }
}
