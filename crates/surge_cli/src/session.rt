//! Does what is to be done: executes a plan and writes what its statements print, writes a script's canonical text, or
//! writes the tables of a change text.

ghost use Rattle.std.specs.Prelude.{◌≡◌, ◌≤◌, ◌+◌, OnOk, OnErr};
ghost use Rattle.surge_outside.specs.Counts.{HasRisen};
ghost use Rattle.surge_outside.specs.Written.{GrewByFront, appended};
ghost use Rattle.gvdl_check.specs.Fits.{PlanFits};
ghost use Rattle.change_text.specs.Spelling.{tables_text};
ghost use Rattle.gvdl_printer.specs.Canonical.{canonical};
ghost use Rattle.surge_session.specs.Output.{plan_text};
ghost use Rattle.surge_session.specs.Works.{plan_work};
ghost use Rattle.surge_cli.specs.Output.{job_output, output, job_work, due_work};
ghost use Rattle.surge_cli.specs.Stages.{DueFits, IsReplayed};

use crate::job::{Due, Job};
use crate::words::Task;
use change_text::{ChangeText, ReplayStop, replay};
use graph_model::Graph;
use gvdl_check::Plan;
use gvdl_printer::print;
use gvdl_tree::Script;
use result_tables::Form;
use std::alloc::Global;
use surge_outside::{NoMemory, Sink, Trouble, put_all};
use surge_session::{SessionFault, run_all};
use vertex_lang::Updater;

// Executes the statements of a plan, in their order, and writes what they print.
fn run_plan<O: Sink, U: Updater>(
    alloc: Global,
    graph: &Graph,
    plan: &Plan,
    form: Form,
    turns: Option<u64>,
    out: &mut O,
    updater: &mut U,
) -> Result<(), Trouble>
    requires { PlanFits graph.now plan.now }
    ensures ok { OnOk result (O.written out.new ≡ appended (O.written out.old) (plan_text U.answer form graph.now plan.now)) }
    ensures err { OnErr result (GrewByFront (O.written out.old) (O.written out.new) (plan_text U.answer form graph.now plan.now)) }
    ensures calls { OnOk result (U.calls updater.new ≤ U.calls updater.old + plan_work U.answer graph.now plan.now) }
    ensures faults { O.faults out.old ≤ O.faults out.new }
    ensures failed { result ≡ Err Trouble.Failed → HasRisen (O.faults out.old) (O.faults out.new) }
{
    match run_all(alloc, graph, plan, form, turns, out, updater) {
        Ok(()) => Ok(()),
        Err(SessionFault::WriteFault) => Err(Trouble::Failed),
        Err(SessionFault::NoMemory) => Err(Trouble::NoMemory),
    }
}

// Writes the canonical text of a script as one piece.
fn write_script<O: Sink>(alloc: Global, script: &Script, out: &mut O) -> Result<(), Trouble>
    ensures ok { OnOk result (O.written out.new ≡ appended (O.written out.old) (canonical script.now)) }
    ensures err { OnErr result (GrewByFront (O.written out.old) (O.written out.new) (canonical script.now)) }
    ensures faults { O.faults out.old ≤ O.faults out.new }
    ensures failed { result ≡ Err Trouble.Failed → HasRisen (O.faults out.old) (O.faults out.new) }
{
    match print(alloc, script) {
        Ok(canonical) => put_all(out, canonical.as_slice()),
        Err(NoMemory) => Err(Trouble::NoMemory),
    }
}

// Does what is asked of a script, and writes what it prints.
fn do_job<O: Sink, U: Updater>(
    alloc: Global,
    job: &Job,
    out: &mut O,
    updater: &mut U,
) -> Result<(), Trouble>
    requires { PlanFits job.now.graph job.now.plan }
    ensures ok { OnOk result (O.written out.new ≡ appended (O.written out.old) (job_output U.answer job.now)) }
    ensures err { OnErr result (GrewByFront (O.written out.old) (O.written out.new) (job_output U.answer job.now)) }
    ensures calls { OnOk result (U.calls updater.new ≤ U.calls updater.old + job_work U.answer job.now) }
    ensures faults { O.faults out.old ≤ O.faults out.new }
    ensures failed { result ≡ Err Trouble.Failed → HasRisen (O.faults out.old) (O.faults out.new) }
{
    match job.task {
        Task::Run(form, turns) => {
            run_plan(alloc, &job.graph, &job.plan, form, turns, out, updater)
        }
        Task::Check => write_script(alloc, &job.script, out),
    }
}

// Writes the tables of a change text.
fn write_replay<O: Sink>(alloc: Global, changes: &ChangeText, out: &mut O) -> Result<(), Trouble>
    ensures ok { OnOk result (O.written out.new ≡ appended (O.written out.old) (tables_text changes.now)) }
    ensures err { OnErr result (GrewByFront (O.written out.old) (O.written out.new) (tables_text changes.now)) }
    ensures faults { O.faults out.old ≤ O.faults out.new }
    ensures failed { result ≡ Err Trouble.Failed → HasRisen (O.faults out.old) (O.faults out.new) }
{
    match replay(alloc, changes, out) {
        Ok(()) => Ok(()),
        Err(ReplayStop::Failed) => Err(Trouble::Failed),
        Err(ReplayStop::NoMemory) => Err(Trouble::NoMemory),
    }
}

/// Does what is to be done, and writes what it prints. Where the tables of a change text are written, the updater is not
/// called.
pub(crate) fn do_due<O: Sink, U: Updater>(
    alloc: Global,
    due: &Due,
    out: &mut O,
    updater: &mut U,
) -> Result<(), Trouble>
    requires { DueFits due.now }
    ensures ok { OnOk result (O.written out.new ≡ appended (O.written out.old) (output U.answer due.now)) }
    ensures err { OnErr result (GrewByFront (O.written out.old) (O.written out.new) (output U.answer due.now)) }
    ensures calls { OnOk result (U.calls updater.new ≤ U.calls updater.old + due_work U.answer due.now) }
    ensures uncalled { IsReplayed due.now → updater.new ≡ updater.old }
    ensures faults { O.faults out.old ≤ O.faults out.new }
    ensures failed { result ≡ Err Trouble.Failed → HasRisen (O.faults out.old) (O.faults out.new) }
{
    match due {
        Due::Run(job) => do_job(alloc, job, out, updater),
        Due::Replay(changes) => write_replay(alloc, changes, out),
    }
}
