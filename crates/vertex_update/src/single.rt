//! A value that should stand among the words once.

ghost use Rattle.std.specs.Prelude.{◌≡◌};
ghost use Rattle.vertex_update.specs.Reading.{with_one};

use graph_model::Val;

/// What was found of a kind of values: nothing so far, one value of weight 1, or something else.
#[derive(Clone, Copy, Debug, PartialEq, Eq)]
pub(crate) enum Single {
    Nothing,
    One(Val),
    Other,
}

impl Single {
    /// With one value more.
    pub(crate) fn with(self, value: Val, weight: u64) -> Single
        ensures { result ≡ with_one self (value, weight) }
    {
        match self {
            Single::Nothing => {
                if weight == 1 {
                    Single::One(value)
                } else {
                    Single::Other
                }
            }
            Single::One(_) => Single::Other,
            Single::Other => Single::Other,
        }
    }
}
