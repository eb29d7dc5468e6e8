//! Which nodes may send something else in two rounds: in those of two views, or in a round and the one before it.

ghost use Rattle.std.specs.Prelude.{◌≡◌, ◌<◌, ◌==◌, true, false, All, IsTrue};
ghost use Rattle.round_inputs.specs.Movers.{InMovers, moves};

use graph_model::NodeNo;
use vertex_lang::Arc;

/// The nodes that may send something else in the one of two rounds than in the other.
#[derive(Clone, Copy)]
pub enum Movers<'a> {
    /// In the same round of two views: whether each node may.
    Views(&'a [bool]),
    /// In two rounds of one view: the stamp of the last round to which each node's value changed, and that of the later of the
    /// two rounds.
    Rounds(&'a [u8], u8),
}

impl Movers<'_> {
    /// Whether a node may send something else.
    pub fn moves(self, node: NodeNo) -> bool
        requires { InMovers self node.0 }
        ensures { result ≡ moves self.entry node.0 }
    {
        match self {
            Movers::Views(apart) => apart[node.0 as usize],
            Movers::Rounds(moved, stamp) => moved[node.0 as usize] == stamp,
        }
    }

    /// Whether none of the tails of these arcs may send something else.
    pub fn are_still(self, row: &[Arc]) -> bool
        requires { All (λ a. InMovers self a.tail.0) row.now }
        ensures { IsTrue result → All (λ a. moves self.entry a.tail.0 ≡ false) row.now }
    {
        for arc in row {
            if self.moves(arc.tail) {
                return false;
            }
        }
        true
    }
}
