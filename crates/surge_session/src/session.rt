//! A plan's execution, statement by statement.

ghost use Rattle.std.specs.Prelude.{◌≡◌, ◌+◌, ◌≤◌, ◌↔◌, false, min, length, IfOk, OnErr};
ghost use Rattle.surge_outside.specs.Counts.{HasRisen};
ghost use Rattle.surge_outside.specs.Written.{GrewByFront, appended};
ghost use Rattle.gvdl_check.specs.Fits.{PlanFits};
ghost use Rattle.surge_session.specs.Output.{step_text};
ghost use Rattle.surge_session.specs.Works.{step_work};
ghost use Rattle.surge_session.specs.Sessions.{new_session, after_one, spent_one};

use crate::setting::Setting;
use crate::state::State;
use crate::statement::execute;
use graph_model::Graph;
use gvdl_check::Plan;
use result_tables::Form;
use std::alloc::Global;
use std::marker::{Model, PhantomData};
use surge_outside::{NoMemory, Sink, Trouble};
use vertex_lang::Updater;

/// Whether a statement was executed.
#[derive(Clone, Copy, Debug, PartialEq, Eq)]
pub enum Next {
    /// One more statement was executed.
    Ran,
    /// Every statement was executed before.
    Ended,
}

/// Why the execution of a statement ended.
#[derive(Clone, Copy, Debug, PartialEq, Eq)]
pub enum SessionFault {
    /// Writing failed, which the sink counts.
    WriteFault,
    /// A request for memory was refused.
    NoMemory,
}

impl From<Trouble> for SessionFault {
    ghost use Rattle.surge_session.specs.Faults.{fault_of};
    ghost use Rattle.std.specs.Prelude.{◌≡◌};

    ghost from_gives = { λ trouble fault. fault ≡ fault_of trouble };

    fn from(trouble: Trouble) -> SessionFault {
        match trouble {
            Trouble::Failed => SessionFault::WriteFault,
            Trouble::NoMemory => SessionFault::NoMemory,
        }
    }
}

/// The execution of a plan over its graph, statement by statement, where values are updated by updaters of one type. After
/// a fault it is spent.
#[derive(Drop)]
pub struct Session<'g, U: Updater> {
    alloc: Global,
    graph: &'g Graph,
    plan: &'g Plan,
    form: Form,
    turns: Option<u64>,
    executed: usize,
    spent: bool,
    state: State<'g>,
    by: PhantomData<U>,
}

impl<'g, U: Updater> Model for Session<'g, U> {
    ghost use Rattle.std.specs.Coded.{codes};
    ghost use Rattle.edge_predicates.specs.contracts.pred.Pred as pred;
    ghost use Rattle.vertex_lang.specs.contracts.program.Expr as expr;
    ghost use Rattle.surge_session.specs.Sessions.{SessionData};

    ghost Value = { SessionData };

    ghost coded = { Prim.hlevel (codes, pred.the_row.coded, expr.the_row.coded) };

    ghost use Rattle.surge_session.specs.SessionInside.{data_of, IsSession};

    ghost view = { data_of };

    ghost invariant = { IsSession U.answer };
}

impl<'g, U: Updater> Session<'g, U> {
    /// A session that has executed no statement of a plan, which fits the graph as that of `gvdl_check::check` does. Tables
    /// are written in this form. A run turns the first of its segments that has a view left; where there is a seed for turns,
    /// the one that the stream of the seed draws, which begins anew at each run. What is written is the same.
    ///
    /// # Errors
    ///
    /// [`NoMemory`] where a request for memory was refused.
    pub fn new(
        alloc: Global,
        graph: &'g Graph,
        plan: &'g Plan,
        form: Form,
        turns: Option<u64>,
    ) -> Result<Session<'g, U>, NoMemory>
        requires fits { PlanFits graph.now plan.now }
        ensures { IfOk result (λ session. session ≡ new_session graph.now plan.now form) }
    {
        let state = State::new(alloc, graph, plan)?;
        Ok(Session {
            alloc,
            graph,
            plan,
            form,
            turns,
            executed: 0,
            spent: false,
            state,
            by: PhantomData,
        })
    }

    /// Whether a call answered a fault.
    pub fn is_spent(&self) -> bool
        ensures { result ≡ self.now.spent }
    {
        self.spent
    }

    /// How many statements behind the load were executed. It stands still at the end of its type.
    pub fn executed(&self) -> u32
        ensures { result ≡ min self.now.executed 4_294_967_295 }
    {
        self.executed.min(4_294_967_295) as u32
    }

    /// Executes the next statement and writes what it prints: [`Next::Ran`], or [`Next::Ended`] exactly where every
    /// statement was executed before, which changes nothing. Each table or text of a show, and each view of an aggregate, goes out as one piece, and then
    /// the rest of it while the sink takes less. The updater is called at most as often as the works of the views that the
    /// statement runs say; of a run that follows edges for each node and round of a view at first, and for each node that is
    /// touched where edges come or go; in phases for each node, round and phase of a view with edges of its own.
    ///
    /// # Errors
    ///
    /// [`SessionFault::WriteFault`] where a write failed, which the sink counts, and [`SessionFault::NoMemory`] where
    /// memory was wanting. Then a front of the statement's text went out, and the session is spent.
    pub fn next<O: Sink>(&mut self, out: &mut O, updater: &mut U) -> Result<Next, SessionFault>
        requires { self.old.spent ≡ false }
        ensures ran { result ≡ Ok Next.Ran → (self.new ≡ after_one self.old) × (O.written out.new ≡ appended (O.written out.old) (step_text U.answer self.old.form self.old.graph self.old.plan self.old.executed)) }
        ensures calls { result ≡ Ok Next.Ran → U.calls updater.new ≤ U.calls updater.old + step_work U.answer self.old.graph self.old.plan self.old.executed }
        ensures ended { (result ≡ Ok Next.Ended) ↔ (self.old.executed ≡ length self.old.plan.steps) }
        ensures same { result ≡ Ok Next.Ended → (self.new ≡ self.old) × (out.new ≡ out.old) × (updater.new ≡ updater.old) }

        // After a fault the session is spent, and a front of the text went out.
        ensures err { OnErr result ((self.new ≡ spent_one self.old) × GrewByFront (O.written out.old) (O.written out.new) (step_text U.answer self.old.form self.old.graph self.old.plan self.old.executed)) }
        ensures faults { O.faults out.old ≤ O.faults out.new }
        ensures failed { result ≡ Err SessionFault.WriteFault → HasRisen (O.faults out.old) (O.faults out.new) }
    {
        let plan = self.plan;
        match plan.steps.as_slice().get(self.executed) {
            Some(step) => match execute(
                Setting {
                    alloc: self.alloc,
                    graph: self.graph,
                    plan,
                    form: self.form,
                    turns: self.turns,
                },
                self.executed,
                step,
                &mut self.state,
                out,
                updater,
            ) {
                Ok(()) => {
                    self.executed += 1;
                    Ok(Next::Ran)
                }
                Err(trouble) => {
                    self.spent = true;
                    Err(SessionFault::from(trouble))
                }
            },
            None => Ok(Next::Ended),
        }
    }
}
