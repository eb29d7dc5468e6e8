//! The laws of the work of a lap.

ghost use Rattle.work_theory.specs.Laws.{EvaluatedIsCounted, LapIsWork, OnlyNodesAreEvaluated};

use flow_core::Operator;
use graph_model::Graph;
use lattice_time::Time;
use lone_work::count_work;
use loop_theory::LoopInput;
use multisets::are_one_multiset;
use surge_outside::Record;
use vertex_lang::Program;
use weighted::Batch;

/// In each round of a lap the nodes that are evaluated are those that the work of the new view counts.
pub fn evaluated_is_counted<T: Time, V: Record, O: Record>()
    ensures { EvaluatedIsCounted T V O T.leq T.lub }
{}

/// No other key is evaluated in a lap.
pub fn only_nodes_are_evaluated<T: Time, V: Record, O: Record>()
    ensures { OnlyNodesAreEvaluated T V O T.leq T.lub }
{}

/// What a lap is charged is the work of the new view.
pub fn lap_is_work<T: Time, V: Record, O: Record>()
    ensures { LapIsWork T V O T.leq T.lub }
{}
