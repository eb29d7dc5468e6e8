//! The parts of a program: its start, its message, and what it gathers.

ghost use Rattle.std.specs.Prelude.{◌≡◌, ◌<◌, ◌^◌, ◌⊎◌, length, sum_by, All, Contains, IsTrue};
ghost use Rattle.vertex_lang.specs.Values.{lowest, lowest_number};
ghost use Rattle.vertex_lang.specs.Leaves.{HoldsNumber, IsChecked};
ghost use Rattle.vertex_lang.specs.Expressions.{start_of, sent_by};
ghost use Rattle.vertex_lang.specs.Ignoring.{sent_on_all};
ghost use Rattle.vertex_lang.specs.Arcs.{gathered_of, repeated, is_sent};

use crate::evaluate::evaluate;
use crate::mail::Mail;
use crate::program::{Gather, Program};
use crate::words::{Properties, Words, cells_are_proper};
use graph_model::{EdgeNo, Graph, NodeNo, Val};

/// The value with which a node starts. It is the number -(2^63) only where the program holds that number. It takes no
/// memory.
pub fn start(program: &Program, graph: &Graph, node: NodeNo) -> Val
    requires checked { IsChecked program.now graph.now }
    requires node { node.0 < length graph.now.ids }
    ensures value { result ≡ start_of program.now graph.now node.0 }
    ensures lowest { result ≡ lowest → HoldsNumber program.now lowest_number }
{
    cells_are_proper(graph);
    let words = Words {
        id: graph.id(node),
        start: Val::Nil,
        value: Val::Nil,
        gathered: Val::Nil,
        count: 0,
        outdeg: 0,
        properties: Properties::Node(graph, node),
    };
    evaluate(&program.start, &words)
}

/// The message along an edge, from a tail that has this value and so many outgoing arcs. None is not sent. It is the
/// number -(2^63) only where the program holds that number, or the value is it. It takes no memory.
pub fn send(
    program: &Program,
    graph: &Graph,
    tail: NodeNo,
    value: Val,
    outdeg: u64,
    edge: EdgeNo,
) -> Val
    requires checked { IsChecked program.now graph.now }
    requires tail { tail.0 < length graph.now.ids }
    requires outdeg { outdeg < 2 ^ 32 }
    requires edge { edge.0 < length graph.now.ends }
    ensures message { result ≡ sent_by program.now graph.now tail.0 value outdeg edge.0 }
    ensures lowest { result ≡ lowest → HoldsNumber program.now lowest_number ⊎ (value ≡ lowest) }
{
    cells_are_proper(graph);
    let words = Words {
        id: graph.id(tail),
        start: Val::Nil,
        value,
        gathered: Val::Nil,
        count: 0,
        outdeg,
        properties: Properties::Edge(graph, edge),
    };
    evaluate(&program.send, &words)
}

/// The message of a node where no edge has a property.
pub(crate) fn send_on_all(
    program: &Program,
    graph: &Graph,
    tail: NodeNo,
    value: Val,
    outdeg: u64,
) -> Val
    requires tail { tail.0 < length graph.now.ids }
    requires outdeg { outdeg < 2 ^ 32 }
    ensures { result ≡ sent_on_all program.now graph.now tail.0 value outdeg }
{
    let words = Words {
        id: graph.id(tail),
        start: Val::Nil,
        value,
        gathered: Val::Nil,
        count: 0,
        outdeg,
        properties: Properties::Nobody,
    };
    evaluate(&program.send, &words)
}

/// The gathered value of messages, each as often as the count beside it. Of no message the least and the greatest are
/// none, the sum and the count 0. The value is the number -(2^63) only where a message is. It takes no memory.
pub fn gather(kind: Gather, messages: &[(Val, u64)]) -> Val
    requires counts { sum_by (λ m. m.1) messages.now < 2 ^ 32 }
    requires sent { All (λ m. IsTrue (is_sent m.0)) messages.now }
    ensures value { result ≡ gathered_of kind (repeated messages.now) }
    ensures lowest { result ≡ lowest → Contains (repeated messages.now) lowest }
{
    let mut mail = Mail::new();
    for (message, count) in messages {
        mail = mail.with_many(kind, *message, *count);
    }
    mail.gathered(kind)
}
