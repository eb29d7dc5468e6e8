//! What follows from the definitions of programs, arcs and rounds. These functions have no code: the contract of each is one
//! law, whose proof in `specs/` serves the rooms above.

ghost use Rattle.vertex_lang.specs.Values.{lesser, greater};
ghost use Rattle.vertex_lang.specs.Laws.{ValuesExact, JoinsInAnyOrder, OneMessages, PermutedMessages, LeastGathered, GreatestGathered, ArcsRun, ArcsCome, ArcsWithin, MessagesSum, MessageFrom, MessageTo, StartAt, NextAt, LoneLength, FixpointStays, LoneFromStarts, AreRoundsFrom, ArePhasesAnswers, PermutedDegrees, PermutedReceived, PermutedNext, PermutedLone, PermutedAnswer, AnswerMeets, AnswerIsOne};

/// The test of values tells whether two are one.
pub fn values_exact()
    ensures { ValuesExact }
{}

/// The lesser of values is the same in any order.
pub fn lesser_joins()
    ensures { JoinsInAnyOrder lesser }
{}

/// The greater of values is the same in any order.
pub fn greater_joins()
    ensures { JoinsInAnyOrder greater }
{}

/// What is gathered of messages, and how many they are, depends on their multiset alone.
pub fn one_messages()
    ensures { OneMessages }
{}

/// What is gathered of messages, and how many they are, doesn't depend on their order.
pub fn permuted_messages()
    ensures { PermutedMessages }
{}

/// The least of messages is one of them and bounds them all, and is none where there is no message.
pub fn least_gathered()
    ensures { LeastGathered }
{}

/// The greatest of messages is one of them and bounds them all, and is none where there is no message.
pub fn greatest_gathered()
    ensures { GreatestGathered }
{}

/// The arcs of edges run along their direction.
pub fn arcs_run()
    ensures { ArcsRun }
{}

/// The arcs of edges are those of these edges.
pub fn arcs_come()
    ensures { ArcsCome }
{}

/// The arcs of a graph's edges are arcs of the graph.
pub fn arcs_within()
    ensures { ArcsWithin }
{}

/// How often something stands among what is made of a node's messages is a sum over the arcs.
pub fn messages_sum<T>()
    ensures { MessagesSum T }
{}

/// Each message came along an arc.
pub fn message_from()
    ensures { MessageFrom }
{}

/// What an arc carries comes to its head.
pub fn message_to()
    ensures { MessageTo }
{}

/// The value of a node at first.
pub fn start_at()
    ensures { StartAt }
{}

/// The value of a node in the next round.
pub fn next_at()
    ensures { NextAt }
{}

/// Each round has one value for each node.
pub fn lone_length()
    ensures { LoneLength }
{}

/// From a round on that changes nothing the values stay.
pub fn fixpoint_stays()
    ensures { FixpointStays }
{}

/// The values of a plain run are those of rounds that begin with the program's starts.
pub fn lone_from_starts()
    ensures { LoneFromStarts }
{}

/// What holds of rounds that begin with given values.
pub fn rounds_from()
    ensures { AreRoundsFrom }
{}

/// What holds of the answer in phases.
pub fn phases_answer()
    ensures { ArePhasesAnswers }
{}

/// How many arcs leave a node doesn't depend on their order.
pub fn permuted_degrees()
    ensures { PermutedDegrees }
{}

/// Nor do the messages of a node, as a multiset.
pub fn permuted_received()
    ensures { PermutedReceived }
{}

/// Nor does the next value of a node.
pub fn permuted_next()
    ensures { PermutedNext }
{}

/// Nor do the values of a round.
pub fn permuted_lone()
    ensures { PermutedLone }
{}

/// Nor does the answer of a run.
pub fn permuted_answer()
    ensures { PermutedAnswer }
{}

/// The answer as a function is one as a relation.
pub fn answer_meets()
    ensures { AnswerMeets }
{}

/// And it is the only one.
pub fn answer_is_one()
    ensures { AnswerIsOne }
{}
