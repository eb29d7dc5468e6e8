//! What is kept of the arcs of a view and of a round's values, so that a node's messages are found fast.

ghost use Rattle.std.specs.Prelude.{◌≡◌, ◌<◌, length};
ghost use Rattle.round_inputs.specs.TwoRounds.{got_in, IsSourceOf, IsViewRound};
ghost use Rattle.value_codes.specs.Tallies.{tally_of};

use crate::numbers::{tally_arcs, tally_steps};
use crate::rounds::ViewRound;
use arc_rows::Live;
use graph_model::NodeNo;
use message_forms::Link;
use round_messages::tally;
use value_codes::{Tally, tally_links};
use vertex_lang::Updater;

/// What is kept of each node as a number; and, where many nodes are looked at, of the arcs of the new view by head.
#[derive(Drop)]
pub enum MessageSource {
    /// The message of each node is the same along all arcs that leave it and is kept while each has a number: the tails of the
    /// arcs.
    Messages(Option<Live<NodeNo>>),
    /// The message is the value of the tail and the edge's property in this column, added: the values, and the tails of the
    /// arcs with the property.
    Steps(u32, Vec<i64>, Option<Live<Link>>),
    /// Nothing is kept.
    Nothing,
}

impl MessageSource {
    /// What a node gets in a round of the view.
    pub fn tally<U: Updater>(&self, round: &ViewRound<'_>, node: NodeNo, _updater: &U) -> Tally
        requires round { IsViewRound U.answer round.now }
        requires node { node.0 < length round.now.graph.now.ids }
        requires source { IsSourceOf U.answer round.now self.now }
        ensures { result ≡ tally_of round.now.program.now.gather (got_in U.answer round.now node.0) }
    {
        let side = &round.side;
        let kind = round.program.gather;
        match self {
            MessageSource::Messages(live) if side.alike => match live {
                Some(tails) => side.sent.tally(kind, tails.row(node)),
                None => tally_arcs(kind, side.sent, side.edges, round.rows.into(node)),
            },
            MessageSource::Steps(column, numbers, live) => match live {
                Some(links) => tally_links(kind, numbers, links.row(node)),
                None => tally_steps(
                    kind,
                    round.graph,
                    *column,
                    numbers,
                    side.edges,
                    round.rows.into(node),
                ),
            },
            _ => tally(round.program, round.graph, side, round.rows.into(node)),
        }
    }
}
