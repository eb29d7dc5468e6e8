//! The answer of a run on a view.

use graph_model::Val;
use surge_outside::List;
use vertex_lang::{Lone, Outcome};

/// The answer of a run on a view: how it ended, and the value of each node by its number (no values where it is
/// unsettled).
#[derive(Debug, Drop)]
pub struct Table {
    pub outcome: Outcome,
    pub values: List<Val>,
}

impl From<Lone> for Table {
    ghost use Rattle.std.specs.Prelude.{◌≡◌};
    ghost use Rattle.result_tables.specs.TableText.{table_of};

    ghost from_gives = { λ lone table. table ≡ table_of lone };

    fn from(lone: Lone) -> Table {
        let Lone { outcome, values } = lone;
        Table { outcome, values }
    }
}
