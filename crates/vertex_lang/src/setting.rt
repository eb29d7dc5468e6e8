//! The parts of a run that stay the same in all its rounds, and the lists that it works on.

ghost use Rattle.std.specs.Prelude.{◌≡◌, ◌<◌, ◌^◌, length, All, IfOk};
ghost use Rattle.vertex_lang.specs.Arcs.{IsArc};
ghost use Rattle.vertex_lang.specs.Leaves.{IsChecked};
ghost use Rattle.vertex_lang.specs.Mail.{HasDegrees};
ghost use Rattle.vertex_lang.specs.Phases.{starts_of};
ghost use Rattle.vertex_lang.specs.Settings.{IsSetting, HasSizes};

use crate::arc::Arc;
use crate::mail::Mail;
use crate::names::ignores_edge;
use crate::parts::start;
use crate::program::Program;
use graph_model::{Graph, NodeNo, Val};
use std::alloc::Global;
use surge_outside::NoMemory;

/// What stays the same in all rounds of a run.
#[derive(Drop)]
pub(crate) struct Setting<'a> {
    pub(crate) program: &'a Program,
    pub(crate) graph: &'a Graph,
    pub(crate) arcs: &'a [Arc],
    /// How many arcs leave each node.
    pub(crate) degrees: Vec<u64>,
    /// Whether the message of a node is the same along all arcs that leave it.
    pub(crate) alike: bool,
    /// The value with which each node starts.
    pub(crate) starts: &'a [Val],
    ghost fits: { IsSetting program.now graph.now arcs.now degrees.items alike starts.now },
}

/// What a run works on, by node number.
#[derive(Drop)]
pub(crate) struct Lists {
    /// The value of each node.
    pub(crate) values: Vec<Val>,
    /// The message of each node, where it is the same along all arcs that leave it.
    pub(crate) sent: Vec<Val>,
    /// What each node has got.
    pub(crate) mail: Vec<Mail>,
}

impl<'a> Setting<'a> {
    /// The degrees are computed here, once for a run.
    pub(crate) fn new(
        alloc: Global,
        program: &'a Program,
        graph: &'a Graph,
        arcs: &'a [Arc],
        starts: &'a [Val],
    ) -> Result<Setting<'a>, NoMemory>
        requires checked { IsChecked program.now graph.now }
        requires arcs { All (IsArc graph.now) arcs.now }
        requires few { length arcs.now < 2 ^ 32 }
        requires starts { length starts.now ≡ length graph.now.ids }
        ensures program { IfOk result (λ s. s.program.now ≡ program.now) }
        ensures graph { IfOk result (λ s. s.graph.now ≡ graph.now) }
        ensures arcs { IfOk result (λ s. s.arcs.now ≡ arcs.now) }
        ensures starts { IfOk result (λ s. s.starts.now ≡ starts.now) }
    {
        let degrees = count_degrees(alloc, graph, arcs)?;
        let alike = ignores_edge(&program.send);
        Ok(Setting {
            program,
            graph,
            arcs,
            degrees,
            alike,
            starts,
        })
    }
}

impl Lists {
    /// The values are those of the start.
    pub(crate) fn new(alloc: Global, setting: &Setting<'_>) -> Result<Lists, NoMemory>
        ensures sizes { IfOk result (λ l. HasSizes setting.now.graph.now l.values.items l.sent.items l.mail.items) }
        ensures values { IfOk result (λ l. l.values.items ≡ setting.now.starts.now) }
    {
        let count = setting.graph.node_count() as usize;
        let values = Vec::from_slice(alloc, setting.starts)?;
        let sent = vec![in alloc; Val::Nil; count]?;
        let mail = vec![in alloc; Mail::new(); count]?;
        Ok(Lists { values, sent, mail })
    }
}

// How many arcs leave each node, by its number.
fn count_degrees(alloc: Global, graph: &Graph, arcs: &[Arc]) -> Result<Vec<u64>, NoMemory>
    requires arcs { All (IsArc graph.now) arcs.now }
    requires few { length arcs.now < 2 ^ 32 }
    ensures size { IfOk result (λ v. length v.items ≡ length graph.now.ids) }
    ensures degrees { IfOk result (λ v. HasDegrees arcs.now v.items) }
{
    let count = graph.node_count() as usize;
    let mut degrees = vec![in alloc; 0u64; count]?;
    for arc in arcs {
        degrees[arc.tail.0 as usize] += 1;
    }
    Ok(degrees)
}

/// The value with which each node starts, by its number.
pub(crate) fn start_values(
    alloc: Global,
    program: &Program,
    graph: &Graph,
) -> Result<Vec<Val>, NoMemory>
    requires { IsChecked program.now graph.now }
    ensures { IfOk result (λ v. v.items ≡ starts_of program.now graph.now) }
{
    let count = graph.node_count();
    let mut values = Vec::with_capacity(alloc, count as usize)?;
    for node in 0..count {
        values.push(start(program, graph, NodeNo(node)))?;
    }
    Ok(values)
}
