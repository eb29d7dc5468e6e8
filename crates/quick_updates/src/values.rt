//! The value of a form that is known.

ghost use Rattle.std.specs.Prelude.{◌≡◌, true};
ghost use Rattle.graph_model.specs.declared.value.Val.TheVariants.{Num};
ghost use Rattle.vertex_lang.specs.Values.{added, divided, multiplied};

use crate::form::Damping;
use graph_model::Val;
use vertex_lang::arithmetic::{product_of, quotient_of, sum_of};

/// The number with the share of what was gathered. Of none it is none, and so it is where the divisor is 0.
pub(crate) fn damped(gathered: Val, damping: Damping) -> Val
    ensures { result ≡ added true (Num damping.base) (divided (multiplied gathered (Num damping.factor)) (Num damping.divisor)) }
{
    match gathered {
        Val::Num(number) if damping.divisor != 0 => {
            let share = quotient_of(product_of(number, damping.factor), damping.divisor);
            Val::Num(sum_of(damping.base, share))
        }
        _ => Val::Nil,
    }
}
