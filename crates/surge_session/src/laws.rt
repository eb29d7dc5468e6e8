//! What follows of the output of a script: what a longer script leaves as it was, and that a change text gives the tables back.

ghost use Rattle.std.specs.Prelude.{◌≡◌, ◌≤◌, ◌+◌, ◌++◌, length, sum, Ok};
ghost use Rattle.std.specs.List.{sum_by};
ghost use Rattle.graph_model.specs.GraphData.{IsGraphData};
ghost use Rattle.graph_loader.specs.LoadLaws.{NamesProperties};
ghost use Rattle.grown_graphs.specs.Growing.{GrowsTo};
ghost use Rattle.gvdl_check.specs.Plans.{files_of, plan};
ghost use Rattle.gvdl_check.specs.Continued.{IsContinued};
ghost use Rattle.gvdl_check.specs.Written.{IsWritten};
ghost use Rattle.surge_session.specs.Continuing.{KeepsTexts};
ghost use Rattle.surge_session.specs.Replays.{ChangesReplay};

use change_text::{tables_are_blocks, tables_come_back};
use graph_model::Graph;
use gvdl_check::Plan;
use gvdl_tree::Script;
use vertex_lang::Updater;

/// A script over a graph, and the numbers of edges that come with the edges file and with each file that the script inserts,
/// which together are those of the graph; and its plan.
pub struct Planned<'a> {
    pub script: &'a Script,
    pub graph: &'a Graph,
    pub groups: &'a [u32],
    pub plan: &'a Plan,
}

/// Where a script is continued by further statements, and both have a plan, each over the graph of its files, the output of the
/// first is a front of the output of the longer one. And where a later statement runs the same call for the same rounds and
/// phases again on the same collection, and no edge came or went between, it prints for each view that was there before the same
/// text. It does nothing: it lends proofs this law of what is printed.
pub fn keeps_texts<U: Updater>(before: &Planned<'_>, after: &Planned<'_>, behind: &[u32])
    requires continued { IsContinued before.now.script.now after.now.script.now }
    requires graph { GrowsTo before.now.graph.now after.now.graph.now }
    requires edges { sum before.now.groups.now ≡ length before.now.graph.now.ends }
    requires files { 1 + sum_by files_of before.now.script.now.statements ≤ length before.now.groups.now }
    requires groups { after.now.groups.now ≡ before.now.groups.now ++ behind.now }
    requires before { plan before.now.script.now before.now.graph.now before.now.groups.now ≡ Ok before.now.plan.now }
    requires after { plan after.now.script.now after.now.graph.now after.now.groups.now ≡ Ok after.now.plan.now }
    ensures { KeepsTexts U.answer before.now.graph.now after.now.graph.now before.now.plan.now after.now.plan.now }
{}

/// Where a script that some text says has a plan over a graph that was read, so has the script without its shows and aggregates. The
/// output of the first as a change text is one, and the tables that it comes to are the output of the second. It does nothing: it
/// lends proofs this law of what is printed.
pub fn changes_replay<U: Updater>(planned: &Planned<'_>)
    requires written { IsWritten planned.now.script.now }
    requires graph { IsGraphData planned.now.graph.now }
    requires names { NamesProperties planned.now.graph.now }
    requires edges { sum planned.now.groups.now ≡ length planned.now.graph.now.ends }
    requires plan { plan planned.now.script.now planned.now.graph.now planned.now.groups.now ≡ Ok planned.now.plan.now }
    ensures { ChangesReplay U.answer planned.now.script.now planned.now.graph.now planned.now.groups.now planned.now.plan.now }
{
    let graph = planned.graph;
    let _ = graph.node_columns();
    let _ = graph.edge_columns();
    tables_come_back();
    tables_are_blocks();
}
