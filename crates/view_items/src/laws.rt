//! The laws of the items of a view.

ghost use Rattle.view_items.specs.Laws.{ItemsAreInputs, LoopIsLone, ViewIsPrepared};

use diff_join::Join;
use flow_core::Operator;
use graph_model::Graph;
use lone_work::count_work;
use loop_theory::LoopInput;
use vertex_items::NodeItem;
use vertex_lang::Program;
use weighted::Batch;
use work_theory::lap_is_work;

/// Where a view is in the loop, with the values of a round, the items of each node are its input in that round, once
/// each, and another number has none.
pub fn items_are_inputs()
    ensures { ItemsAreInputs }
{}

/// Where each node is fed once, and the arcs of a view once each, what comes into the loop is that view, with the
/// starts of its nodes.
pub fn view_is_prepared()
    ensures { ViewIsPrepared }
{}

/// So the loop of a program makes, up to each round, the values of the plain run after that round, once each.
pub fn loop_is_lone()
    ensures { LoopIsLone }
{}
