//! Views of collections.

ghost use Rattle.std.specs.Prelude.{◌≡◌, ◌<◌, ◌++◌, [], ◌∷◌, length, OnOk};
ghost use Rattle.gvdl_programs.specs.Judging.{Tells, Leaves};
ghost use Rattle.gvdl_check.specs.Views.{view_on, has_view, new_view, room, rule_added, item_added, items_added};

use crate::copies::{copied_preds, copied_text};
use crate::plan::ViewPlan;
use crate::predicate::predicate;
use crate::window::{Window, add_windows};
use edge_predicates::{Pred, ViewRule};
use graph_model::Graph;
use gvdl_programs::{Refusal, Stop};
use gvdl_tree::{Item, ItemBody, PredTree};
use std::alloc::Global;
use surge_outside::{List, NoMemory, Text};

/// A collection has at most so many views.
const VIEW_LIMIT: usize = 1_024;

// Whether a view has the name.
fn has_view(views: &[ViewPlan], name: &str) -> bool
    ensures { result ≡ has_view views.now name.now }
{
    views.iter().any(|view| name == view.name.as_str())
}

/// Refuses a name that a view of the collection has.
pub(crate) fn expect_new_view(views: &[ViewPlan], name: &str) -> Result<(), Stop>
    ensures { Tells (new_view views.now name.now) result }
{
    if has_view(views, name) {
        return Err(Stop::Refused(Refusal::RepeatedName));
    }
    Ok(())
}

/// Refuses one more view where the collection is full.
pub(crate) fn expect_room(views: &[ViewPlan]) -> Result<(), Stop>
    ensures told { Tells (room views.now) result }
    ensures few { OnOk result (length views.now < 1_024) }
{
    if views.len() >= VIEW_LIMIT {
        return Err(Stop::Refused(Refusal::TooManyViews));
    }
    Ok(())
}

/// Adds a view on a base with these predicates.
pub(crate) fn add_view(
    alloc: Global,
    base: &[Pred],
    views: &mut List<ViewPlan>,
    name: Text,
    pred: Pred,
) -> Result<(), NoMemory>
    ensures { OnOk result (views.new ≡ views.old ++ view_on base.now name pred ∷ []) }
{
    let mut rules = copied_preds(alloc, base)?;
    rules.push(pred)?;
    let rule = ViewRule { rules };
    views.push(ViewPlan { name, rule })
}

fn add_rule(
    alloc: Global,
    graph: &Graph,
    base: &[Pred],
    views: &mut List<ViewPlan>,
    name: &Text,
    tree: &PredTree,
) -> Result<(), Stop>
    ensures told { Leaves (rule_added graph.now base.now views.old name.now tree.now) result views.new }
{
    expect_new_view(views.as_slice(), name.as_str())?;
    let pred = predicate(alloc, graph, tree)?;
    expect_room(views.as_slice())?;
    let name = copied_text(alloc, name)?;
    add_view(alloc, base, views, name, pred)?;
    Ok(())
}

fn add_item(
    alloc: Global,
    graph: &Graph,
    base: &[Pred],
    views: &mut List<ViewPlan>,
    item: &Item,
) -> Result<(), Stop>
    ensures told { Leaves (item_added graph.now base.now views.old item.now) result views.new }
{
    match &item.body {
        ItemBody::Rule(tree) => add_rule(alloc, graph, base, views, &item.name, tree),
        ItemBody::Window {
            prop,
            first,
            last,
            width,
            step,
        } => {
            let window = Window {
                first: *first,
                last: *last,
                width: *width,
                step: *step,
            };
            add_windows(
                alloc,
                graph,
                base,
                views,
                item.name.as_str(),
                prop.as_str(),
                window,
            )
        }
    }
}

/// Adds the views of the items, one item after the other, on a base with these predicates.
pub(crate) fn add_items(
    alloc: Global,
    graph: &Graph,
    base: &[Pred],
    views: &mut List<ViewPlan>,
    items: &[Item],
) -> Result<(), Stop>
    ensures told { Leaves (items_added graph.now base.now views.old items.now) result views.new }
{
    for item in items {
        add_item(alloc, graph, base, views, item)?;
    }
    Ok(())
}
