//! Programs that a script writes.

ghost use Rattle.std.specs.Prelude.{◌≡◌, IfOk};
ghost use Rattle.gvdl_programs.specs.Judging.{Tells};
ghost use Rattle.gvdl_programs.specs.Programs.{direction, gathering, declared};
ghost use Rattle.gvdl_programs.specs.Fits.{TemplateFits};

use crate::expression::{Part, expression};
use crate::parameters::Parameters;
use crate::refusal::Stop;
use crate::template::ProgramTemplate;
use graph_model::Graph;
use gvdl_tree::{Along, ExprTree, Gather};
use std::alloc::Global;
use surge_outside::Text;
use vertex_lang::{Along as ProgramAlong, Gather as ProgramGather};

fn direction(along: Along) -> ProgramAlong
    ensures { result ≡ direction along }
{
    match along {
        Along::Out => ProgramAlong::Out,
        Along::In => ProgramAlong::In,
        Along::Both => ProgramAlong::Both,
    }
}

fn gathering(gather: Gather) -> ProgramGather
    ensures { result ≡ gathering gather }
{
    match gather {
        Gather::Min => ProgramGather::Min,
        Gather::Max => ProgramGather::Max,
        Gather::Sum => ProgramGather::Sum,
        Gather::Count => ProgramGather::Count,
    }
}

/// A program as a script writes it: the names of its parameters, and its parts.
#[derive(Clone, Copy)]
pub struct WrittenProgram<'a> {
    pub parameters: &'a [Text],
    pub along: Along,
    pub start: &'a ExprTree,
    pub send: &'a ExprTree,
    pub gather: Gather,
    pub update: &'a ExprTree,
}

/// A program that a script writes, judged against a graph: its parameters from the left, then the start, the message and
/// the update. It takes time in proportion to the program's length.
///
/// # Errors
///
/// The first refusal: `RepeatedName` for a parameter whose name one before it has; `UnknownName` for a name that is no
/// parameter, and for a word or property that is not allowed in its part; `UnknownProperty` for a property that is no
/// column; `WrongType` for one that does not hold whole numbers. Or want of memory.
pub fn declare(
    alloc: Global,
    graph: &Graph,
    written: &WrittenProgram,
) -> Result<ProgramTemplate, Stop>
    ensures told { Tells (declared graph.now written.now.parameters.now written.now.along written.now.start.now written.now.send.now written.now.gather written.now.update.now) result }
    ensures fits { IfOk result (λ t. TemplateFits graph.now t) }
{
    let parameters = Parameters::of(alloc, written.parameters)?;
    let start = expression(alloc, graph, Part::Start, &parameters, written.start)?;
    let send = expression(alloc, graph, Part::Send, &parameters, written.send)?;
    let update = expression(alloc, graph, Part::Update, &parameters, written.update)?;
    Ok(ProgramTemplate {
        parameters: written.parameters.len(),
        along: direction(written.along),
        start,
        send,
        gather: gathering(written.gather),
        update,
    })
}
