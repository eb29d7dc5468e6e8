//! Single views, each on the graph or on one before it.

ghost use Rattle.std.specs.Prelude.{◌≡◌, [], length, OnOk, IfOk};
ghost use Rattle.gvdl_check.specs.Singles.{rules_at, with_view, before};

use crate::copies::copied_pred;
use edge_predicates::Pred;
use std::alloc::Global;
use std::marker::Model;
use surge_outside::{List, NoMemory};

/// A single view.
#[derive(Drop)]
pub(crate) struct Single {
    /// The place of the single view that it stands on; none where that is the graph.
    pub(crate) base: Option<u32>,
    /// Its own predicate.
    pub(crate) pred: Pred,
}

/// The single views of a script, by their places from 0. Contracts see of each the predicates of all views from the graph
/// up to it; the code keeps only its own, so a chain of views takes the memory of their predicates.
#[derive(Drop)]
pub(crate) struct Singles {
    all: Vec<Single>,
}

impl Model for Singles {
    ghost use Rattle.std.specs.Prelude.{List};
    ghost use Rattle.edge_predicates.specs.declared.pred.Pred.{Pred};

    ghost Value = { List (List Pred) };

    ghost use Rattle.std.specs.Coded.{codes};
    ghost use Rattle.edge_predicates.specs.contracts.pred.Pred as pred_contract;

    ghost coded = { Prim.hlevel (codes, pred_contract.the_row.coded) };

    ghost use Rattle.gvdl_check.specs.Singles.{chained};

    ghost view = { λ singles. chained singles.all.items };
}

// The place that a view stands on, which is before its own.
fn before(base: Option<u32>, place: u32) -> Option<u32>
    ensures { result ≡ before base place }
{
    match base {
        Some(base) => { if base < place { Some(base) } else { None } }
        None => None,
    }
}

impl Singles {
    /// There is none.
    pub(crate) fn new(alloc: Global) -> Singles
        ensures { result ≡ [] }
    {
        Singles {
            all: Vec::new(alloc),
        }
    }

    /// How many there are.
    pub(crate) fn len(&self) -> usize
        ensures { result ≡ length self.now }
    {
        self.all.len()
    }

    /// Adds a view on the graph or on the single view with this place.
    pub(crate) fn push(&mut self, base: Option<u32>, pred: Pred) -> Result<(), NoMemory>
        ensures { OnOk result (self.new ≡ with_view self.old base pred) }
    {
        self.all.push(Single { base, pred })?;
        Ok(())
    }

    /// Copies of the predicates of the graph, which has none, or of the single view with this place: those of all views
    /// from the graph up to it.
    pub(crate) fn rules(&self, alloc: Global, place: Option<u32>) -> Result<List<Pred>, NoMemory>
        ensures { IfOk result (λ rules. rules ≡ rules_at self.now place) }
    {
        let mut rules = Vec::new(alloc);
        let mut next = place;
        while let Some(at) = next {
            next = match self.all.get(at as usize) {
                Some(single) => {
                    rules.push(copied_pred(alloc, &single.pred)?)?;
                    before(single.base, at)
                }
                None => None,
            };
        }
        rules.reverse();
        Ok(List::from_vec(rules))
    }
}
