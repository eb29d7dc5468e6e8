//! The last round in which anything changed.

ghost use Rattle.std.specs.Prelude.{◌≡◌, [], MatchOption};
ghost use Rattle.vertex_flow.specs.Last.{IsLastRound};

use graph_model::{NodeNo, Val};
use lattice_time::Round;
use weighted::Batch;

/// The last round of a sum of what a dataflow of a program made: behind it no value changes. None where nothing was
/// made. It takes no memory.
pub fn last_round(made: &Batch<(Round, (NodeNo, Val))>) -> Option<Round>
    ensures { MatchOption result (made.now ≡ []) (λ r. IsLastRound r made.now) }
{
    match made.as_slice().last() {
        Some(((round, _), _)) => Some(*round),
        None => None,
    }
}
