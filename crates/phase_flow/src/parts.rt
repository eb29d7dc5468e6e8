//! The functions of the parts of a dataflow in phases.

ghost use Rattle.std.specs.Prelude.{◌≡◌};
ghost use Rattle.phase_flow.specs.Items.{begins, ends, enters};

use crate::item::PhaseItem;
use flow_core::Expand;
use graph_model::{NodeNo, Val};
use lattice_time::Round;
use loop_theory::LoopInput;
use surge_outside::{List, NoMemory};
use vertex_items::StartInput;
use vertex_lang::Arc;

/// What is in the loop of phases: arcs, which stay, and what the phase before made.
pub type InPhase = LoopInput<Arc, PhaseItem>;

/// From starts and arcs to what comes into the loop.
#[derive(Clone, Copy, Drop)]
pub struct Enters;

impl Expand<StartInput, InPhase> for Enters {
    ghost gives = { λ _. enters };

    fn expand(&self, a: StartInput, into: &mut List<InPhase>) -> Result<(), NoMemory> {
        match a {
            StartInput::Start(node, value) => {
                into.push(LoopInput::Moving(PhaseItem::Value(node, value)))
            }
            StartInput::Arc(arc) => into.push(LoopInput::Fixed(arc)),
        }
    }
}

/// From what is in the loop to what a phase begins with.
#[derive(Clone, Copy, Drop)]
pub struct Begins;

impl Expand<InPhase, StartInput> for Begins {
    ghost gives = { λ _. begins };

    fn expand(&self, a: InPhase, into: &mut List<StartInput>) -> Result<(), NoMemory> {
        match a {
            LoopInput::Fixed(arc) => into.push(StartInput::Arc(arc)),
            LoopInput::Moving(PhaseItem::Value(node, value)) => {
                into.push(StartInput::Start(node, value))
            }
            LoopInput::Moving(PhaseItem::Late(_, _)) => Ok(()),
        }
    }
}

/// From what the rounds of a phase change to what it comes to, where it has so many rounds.
#[derive(Clone, Copy, Drop)]
pub struct Ends {
    rounds: u32,
}

impl Ends {
    /// The function of phases of so many rounds.
    pub fn new(rounds: u32) -> Ends
        ensures { result.rounds ≡ rounds }
    {
        Ends { rounds }
    }
}

impl Expand<(Round, (NodeNo, Val)), PhaseItem> for Ends {
    ghost gives = { λ s. ends s.rounds };

    fn expand(
        &self,
        a: (Round, (NodeNo, Val)),
        into: &mut List<PhaseItem>,
    ) -> Result<(), NoMemory> {
        let (round, (node, value)) = a;
        into.push(PhaseItem::Value(node, value))?;
        if round.0 == self.rounds {
            return into.push(PhaseItem::Late(node, value));
        }
        Ok(())
    }
}
