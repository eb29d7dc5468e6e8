//! The engine.

ghost use Rattle.std.specs.List.{list_any, position};
ghost use Rattle.std.specs.Prelude.{◌==◌, ◌≡◌, ◌≢◌, ◌<◌, ◌≤◌, ◌+◌, ◌-◌, ◌++◌, ℕ, true, false, [], length, map, All, IfOk, OnOk, OnErr, slice_get, Some, None};
ghost use Rattle.graph_model.specs.GraphData.{AreDistinct};
ghost use Rattle.vertex_lang.specs.Expressions.{Answer};
ghost use Rattle.vertex_lang.specs.Leaves.{IsChecked};
ghost use Rattle.vertex_lang.specs.Lone.{number_of};
ghost use Rattle.view_matrix.specs.Matrices.{MatrixData, IsView};
ghost use Rattle.view_segment.specs.Segments.{IsFinished};
ghost use Rattle.view_engine.specs.Assigning.{AreReadyFor, SoFar, IsAssigned, IsFilled, HasStepped, HasStayed, HasGrown, IsAsBefore, LeadsBack};
ghost use Rattle.view_engine.specs.Engines.{AllowsSplit, GoesOn, IsEngine, IsKernelOf, Stands, AreFinished, IsSameRun, HasMoved, TellsTheSame, IsResult, task_of, works_in, segment_at, work_at, work_beside, work_in};

use crate::changes::hold;
use crate::counting::decide;
use crate::placing::{cut, mark_of, put};
use graph_model::{Graph, ViewNo};
use result_tables::{Results, Table};
use round_kernel::{Kernel, Plan};
use segment_split::SplitRule;
use std::alloc::Global;
use surge_outside::{List, NoMemory};
use vertex_lang::{Along, Program, Rounds, Updater};
use view_matrix::Matrix;
use view_segment::{Kept, Segment};

/// What a turn did.
#[derive(Clone, Copy, Debug, PartialEq, Eq)]
pub enum Turn {
    /// It stepped the next view of its segment.
    Moved,
    /// Each view of its segment was stepped before.
    Finished,
}

/// The run of a program on views in an order, in segments. Of the order the first `assigned` views have a segment. Where
/// the split looks at works, `later` says in how many edges the later views of the last segment differ from the view before
/// each. While it `grows` views may be added; once it is closed, no history is kept of a view behind which none comes. After want
/// of memory the engine is spent: it takes no turn and no views any more, and tells what it told before the call that was
/// refused.
#[derive(Drop)]
pub struct Engine<'g> {
    alloc: Global,
    graph: &'g Graph,
    program: &'g Program,
    rounds: Rounds,
    split: SplitRule,
    order: List<ViewNo>,
    segments: Vec<Segment>,
    results: Results,
    kernel: Option<Kernel>,
    assigned: usize,
    later: u64,
    grows: bool,
    spent: bool,
}

impl<'g> Engine<'g> {
    /// A run on these views of a matrix of the graph, in this order, none of which is stepped yet. The error is want of memory.
    pub fn new(
        alloc: Global,
        graph: &'g Graph,
        matrix: &Matrix,
        program: &'g Program,
        order: &[ViewNo],
        split: SplitRule,
        rounds: Rounds,
    ) -> Result<Engine<'g>, NoMemory>
        requires checked { IsChecked program.now graph.now }
        requires matrix { length matrix.now.live ≡ length graph.now.ends }
        requires views { All (IsView matrix.now) order.now }
        requires distinct { AreDistinct order.now }
        requires few { length order.now ≤ 1_024 }
        requires split { AllowsSplit split }
        requires some { 1 ≤ number_of rounds }
        requires limit { number_of rounds ≤ 1_000_000 }
        ensures engine { IfOk result IsEngine }
        ensures stands { IfOk result (λ e. (answer : Answer) → Stands answer matrix.now e) }
        ensures graph { IfOk result (λ e. e.graph.now ≡ graph.now) }
        ensures program { IfOk result (λ e. e.program.now ≡ program.now) }
        ensures rounds { IfOk result (λ e. e.rounds ≡ rounds) }
        ensures split { IfOk result (λ e. e.split ≡ split) }
        ensures order { IfOk result (λ e. e.order ≡ order.now) }
        ensures works { IfOk result (λ e. (k : ℕ) → works_in e k ≡ []) }
        ensures grows { IfOk result (λ e. e.grows ≡ true) }
        ensures fresh { IfOk result (λ e. e.spent ≡ false) }
    {
        let mut engine = Engine {
            alloc,
            graph,
            program,
            rounds,
            split,
            order: copied(alloc, order)?,
            segments: Vec::new(alloc),
            results: Results::new(alloc, graph.node_count()),
            kernel: None,
            assigned: 0,
            later: 0,
            grows: true,
            spent: false,
        };
        engine.fill(matrix)?;
        Ok(engine)
    }

    // The next view of the order gets its segment. A refusal leaves the engine as it was.
    fn assign(&mut self, matrix: &Matrix) -> Result<(), NoMemory>
        requires engine { IsEngine self.old }
        requires left { self.old.assigned < length self.old.order }
        requires views { All (IsView matrix.now) self.old.order }
        ensures engine { OnOk result (IsEngine self.new) }
        ensures one { OnOk result (IsAssigned 1 self.old self.new) }
        ensures grown { OnOk result (HasGrown self.old self.new) }
        ensures stands { OnOk result ((answer : Answer) → AreReadyFor self.old.split self.old → SoFar answer matrix.now self.old → SoFar answer matrix.now self.new) }
        ensures err { OnErr result (HasStayed self.old self.new) }
    {
        let view = self.order.as_slice()[self.assigned];
        let decision = decide(self.split, matrix, &self.segments, self.later, view);
        put(self.alloc, &mut self.segments, view, decision.anew)?;
        self.later = decision.later;
        self.assigned += 1;
        Ok(())
    }

    // All views of the order get their segments, by a split that looks at no work. Behind a refusal some may have theirs.
    fn assign_rest(&mut self, matrix: &Matrix) -> Result<(), NoMemory>
        requires engine { IsEngine self.old }
        requires split { self.old.split ≢ SplitRule.Auto }
        requires views { All (IsView matrix.now) self.old.order }
        ensures engine { OnOk result (IsEngine self.new) }
        ensures more { OnOk result (IsAssigned (length self.old.order - self.old.assigned) self.old self.new) }
        ensures stands { OnOk result ((answer : Answer) → SoFar answer matrix.now self.old → SoFar answer matrix.now self.new) }
        ensures err { OnErr result (HasGrown self.old self.new) }
    {
        while self.assigned < self.order.len() {
            self.assign(matrix)?;
        }
        Ok(())
    }

    // Assigns all further views to segments, or leaves the engine as it was where it refuses.
    fn assign_all(&mut self, matrix: &Matrix) -> Result<(), NoMemory>
        requires engine { IsEngine self.old }
        requires split { self.old.split ≢ SplitRule.Auto }
        requires views { All (IsView matrix.now) self.old.order }
        ensures engine { OnOk result (IsEngine self.new) }
        ensures more { OnOk result (IsAssigned (length self.old.order - self.old.assigned) self.old self.new) }
        ensures stands { OnOk result ((answer : Answer) → SoFar answer matrix.now self.old → SoFar answer matrix.now self.new) }
        ensures err { OnErr result (HasStayed self.old self.new) }
    {
        let before = mark_of(&self.segments);
        let assigned = self.assigned;
        let later = self.later;
        match self.assign_rest(matrix) {
            Ok(()) => Ok(()),
            Err(NoMemory) => {
                cut(&mut self.segments, before);
                self.assigned = assigned;
                self.later = later;
                Err(NoMemory)
            }
        }
    }

    // Views of the order get their segments, as far as the split tells them by now. A refusal leaves the engine as it was.
    fn fill(&mut self, matrix: &Matrix) -> Result<(), NoMemory>
        requires engine { IsEngine self.old }
        requires views { All (IsView matrix.now) self.old.order }
        ensures engine { OnOk result (IsEngine self.new) }
        ensures more { OnOk result (IsFilled self.old self.new) }
        ensures stands { OnOk result ((answer : Answer) → AreReadyFor self.old.split self.old → SoFar answer matrix.now self.old → SoFar answer matrix.now self.new) }
        ensures err { OnErr result (HasStayed self.old self.new) }
    {
        match self.split {
            SplitRule::Auto => {
                if self.assigned < self.order.len() {
                    self.assign(matrix)?;
                }
                Ok(())
            }
            _ => self.assign_all(matrix),
        }
    }

    /// Whether a call wanted memory and found none.
    pub fn is_spent(&self) -> bool
        ensures { result ≡ self.now.spent }
    {
        self.spent
    }

    /// The views, in the order in which they are run.
    pub fn order(&self) -> &List<ViewNo>
        ensures { result.now ≡ self.now.order }
    {
        &self.order
    }

    /// How many segments have a view so far. Where the split looks at no work, each view has its segment at once. Else the
    /// first view has one, and each next one gets its segment where the one before it is stepped.
    pub fn segments(&self) -> u32
        requires { IsEngine self.now }
        ensures { result ≡ length self.now.segments.items }
    {
        self.segments.len() as u32
    }

    /// The segment with this number, from 0.
    pub fn segment(&self, number: u32) -> &Segment
        requires { number < length self.now.segments.items }
        ensures { slice_get self.now.segments.items number ≡ Some result.now }
    {
        &self.segments[number as usize]
    }

    /// Steps the next view of this segment: [`Turn::Moved`], or [`Turn::Finished`] exactly where each of its views was
    /// stepped before, which changes nothing. The error is want of memory; then the engine is spent, and tells what it told
    /// before.
    pub fn turn<U: Updater>(
        &mut self,
        matrix: &Matrix,
        segment: u32,
        updater: &mut U,
    ) -> Result<Turn, NoMemory>
        requires fresh { self.old.spent ≡ false }
        requires engine { IsEngine self.old }
        requires segment { segment < length self.old.segments.items }
        requires stands { Stands U.answer matrix.now self.old }
        ensures engine { IsEngine self.new }
        ensures fresh { OnOk result (self.new.spent ≡ false) }
        ensures spent { OnErr result (self.new.spent ≡ true) }
        ensures kept { OnErr result (TellsTheSame self.old self.new) }
        ensures moved { result ≡ Ok Turn.Moved → Stands U.answer matrix.now self.new × HasMoved segment self.old self.new (U.calls updater.old) (U.calls updater.new) }
        ensures finished { result ≡ Ok Turn.Finished → (s : Segment) → slice_get self.old.segments.items segment ≡ Some s → IsFinished s }
        ensures only { (s : Segment) → slice_get self.old.segments.items segment ≡ Some s → IsFinished s → result ≡ Ok Turn.Finished }
        ensures same { result ≡ Ok Turn.Finished → (self.new ≡ self.old) × (updater.new ≡ updater.old) }
    {
        let it = &self.segments[segment as usize];
        if it.works().len() == it.views().len() {
            return Ok(Turn::Finished);
        }
        match self.move_on(matrix, segment as usize, updater) {
            Ok(()) => Ok(Turn::Moved),
            Err(NoMemory) => {
                self.spent = true;
                Err(NoMemory)
            }
        }
    }

    // Whether views may still be put at the end of this segment: it is the last one, and the engine takes more or has them.
    fn goes_on(&self, segment: usize) -> bool
        requires { segment < length self.now.segments.items }
        ensures goes_on { GoesOn self.now → segment + 1 ≡ length self.now.segments.items → result ≡ true }
        ensures ends { result ≡ true → GoesOn self.now }
        ensures last { result ≡ true → segment + 1 ≡ length self.now.segments.items }
    {
        if segment != self.segments.len() - 1 {
            return false;
        }
        self.grows || self.assigned < self.order.len()
    }

    // Steps the next view of a segment that isn't finished, and keeps its answer. The result is what the segment kept before,
    // with which the step can be taken back. A refusal takes it back.
    fn step<U: Updater>(
        &mut self,
        matrix: &Matrix,
        segment: usize,
        updater: &mut U,
    ) -> Result<Kept, NoMemory>
        requires fresh { self.old.spent ≡ false }
        requires engine { IsEngine self.old }
        requires unfinished { (s : Segment) → slice_get self.old.segments.items segment ≡ Some s → IsFinished s → ⊥ }
        requires segment { segment < length self.old.segments.items }
        requires stands { Stands U.answer matrix.now self.old }
        ensures engine { OnOk result (IsEngine self.new) }
        ensures moved { OnOk result (HasStepped segment self.old self.new (U.calls updater.old) (U.calls updater.new)) }
        ensures stands { OnOk result (SoFar U.answer matrix.now self.new) }
        ensures back { IfOk result (λ kept. LeadsBack segment kept self.old self.new) }
        ensures err { OnErr result (IsAsBefore self.old self.new) }
    {
        let mut kernel = take_kernel(self.alloc, &mut self.kernel, self.graph, self.program.along)?;
        let plan = Plan {
            program: self.program,
            graph: self.graph,
            rounds: self.rounds,
        };
        let grows = self.goes_on(segment);
        let given = self.segments[segment].step(
            self.alloc,
            plan,
            matrix,
            &mut kernel,
            grows,
            updater,
        )?;
        self.kernel = Some(kernel);
        match hold(self.alloc, &mut self.results, &given) {
            Ok(()) => Ok(given.kept),
            Err(NoMemory) => {
                self.segments[segment].take_back(given.kept);
                Err(NoMemory)
            }
        }
    }

    // Steps the next view of a segment that isn't finished, and gives a segment to the view that waited for that. A refusal
    // takes the step back.
    fn move_on<U: Updater>(
        &mut self,
        matrix: &Matrix,
        segment: usize,
        updater: &mut U,
    ) -> Result<(), NoMemory>
        requires fresh { self.old.spent ≡ false }
        requires engine { IsEngine self.old }
        requires unfinished { (s : Segment) → slice_get self.old.segments.items segment ≡ Some s → IsFinished s → ⊥ }
        requires segment { segment < length self.old.segments.items }
        requires stands { Stands U.answer matrix.now self.old }
        ensures engine { OnOk result (IsEngine self.new) }
        ensures fresh { OnOk result (self.new.spent ≡ self.old.spent) }
        ensures moved { OnOk result (HasMoved segment self.old self.new (U.calls updater.old) (U.calls updater.new)) }
        ensures stands { OnOk result (Stands U.answer matrix.now self.new) }
        ensures err { OnErr result (IsAsBefore self.old self.new) }
    {
        let kept = self.step(matrix, segment, updater)?;
        match self.fill(matrix) {
            Ok(()) => Ok(()),
            Err(NoMemory) => {
                self.segments[segment].take_back(kept);
                Err(NoMemory)
            }
        }
    }

    /// Says that no more views will be added: then no history is kept of a view behind which none comes, since nobody would read it.
    pub fn close(&mut self)
        ensures engine { IsEngine self.old → IsEngine self.new }
        ensures closed { self.new ≡ record self.old { grows = false } }
        ensures stands { (answer : Answer) (m : MatrixData) → Stands answer m self.old → Stands answer m self.new }
    {
        self.grows = false;
    }

    /// Adds these views of a matrix behind its own, once each of its own was stepped, unless the engine is closed. The error is want
    /// of memory; then the engine is spent, and tells what it told before.
    pub fn more(&mut self, matrix: &Matrix, views: &[ViewNo]) -> Result<(), NoMemory>
        requires fresh { self.old.spent ≡ false }
        requires grows { self.old.grows ≡ true }
        requires engine { IsEngine self.old }
        requires finished { AreFinished self.old }
        requires matrix { length matrix.now.live ≡ length self.old.graph.now.ends }
        requires views { All (IsView matrix.now) (self.old.order ++ views.now) }
        requires distinct { AreDistinct (self.old.order ++ views.now) }
        requires few { length self.old.order + length views.now ≤ 1_024 }
        ensures engine { IsEngine self.new }
        ensures fresh { OnOk result (self.new.spent ≡ false) }
        ensures spent { OnErr result (self.new.spent ≡ true) }
        ensures kept { OnErr result (TellsTheSame self.old self.new) }
        ensures run { OnOk result (IsSameRun self.old self.new) }
        ensures order { OnOk result (self.new.order ≡ self.old.order ++ views.now) }
        ensures works { OnOk result ((k : ℕ) → works_in self.new k ≡ works_in self.old k) }
        ensures stands { OnOk result ((answer : Answer) → Stands answer matrix.now self.old → Stands answer matrix.now self.new) }
    {
        match self.add(matrix, views) {
            Ok(()) => Ok(()),
            Err(NoMemory) => {
                self.spent = true;
                Err(NoMemory)
            }
        }
    }

    // Adds these views behind its own. A refusal leaves the engine as it was.
    fn add(&mut self, matrix: &Matrix, views: &[ViewNo]) -> Result<(), NoMemory>
        requires engine { IsEngine self.old }
        requires grows { self.old.grows ≡ true }
        requires finished { AreFinished self.old }
        requires views { All (IsView matrix.now) (self.old.order ++ views.now) }
        requires distinct { AreDistinct (self.old.order ++ views.now) }
        requires few { length self.old.order + length views.now ≤ 1_024 }
        ensures engine { OnOk result (IsEngine self.new) }
        ensures fresh { OnOk result (self.new.spent ≡ self.old.spent) }
        ensures run { OnOk result (IsSameRun self.old self.new) }
        ensures order { OnOk result (self.new.order ≡ self.old.order ++ views.now) }
        ensures works { OnOk result ((k : ℕ) → works_in self.new k ≡ works_in self.old k) }
        ensures stands { OnOk result ((answer : Answer) → Stands answer matrix.now self.old → Stands answer matrix.now self.new) }
        ensures err { OnErr result (HasStayed self.old self.new) }
    {
        let added = copied(self.alloc, views)?;
        let count = self.order.len();
        self.order.append(added)?;
        match self.fill(matrix) {
            Ok(()) => Ok(()),
            Err(NoMemory) => {
                self.order.truncate(count);
                Err(NoMemory)
            }
        }
    }

    /// Gives back the working lists that only turns use. The next turn makes them again.
    pub fn rest(&mut self)
        ensures engine { IsEngine self.old → IsEngine self.new }
        ensures run { IsSameRun self.old self.new }
        ensures order { self.new.order ≡ self.old.order }
        ensures segments { self.new.segments ≡ self.old.segments }
        ensures spent { self.new.spent ≡ self.old.spent }
        ensures stands { (answer : Answer) (m : MatrixData) → Stands answer m self.old → Stands answer m self.new }
    {
        self.kernel = None;
    }

    /// The number of the segment of a view, from 0; none where it isn't in the order or has no segment yet.
    pub fn segment_of(&self, view: ViewNo) -> Option<u32>
        requires { IsEngine self.now }
        ensures { result ≡ segment_at self.now view }
    {
        let place = place_of(&self.segments, view);
        match place {
            Some(place) => Some(place as u32),
            None => None,
        }
    }

    /// The work of a view; none where it wasn't stepped.
    pub fn work(&self, view: ViewNo) -> Option<u64>
        ensures { result ≡ work_at self.now view }
    {
        work_in(&self.segments, view)
    }

    /// The answer of the plain run alone on a view; none where it wasn't stepped, also where its answer is held, as behind a
    /// turn that was refused. The error is want of memory.
    pub fn result(&self, view: ViewNo) -> Result<Option<Table>, NoMemory>
        requires { IsEngine self.now }
        ensures { (answer : Answer) (m : MatrixData) → Stands answer m self.now → IfOk result (IsResult (task_of answer m self.now) view (work_at self.now view)) }
    {
        if self.work(view).is_none() {
            return Ok(None);
        }
        if self.results.has(view) {
            Ok(Some(self.results.table(view)?))
        } else {
            Ok(None)
        }
    }
}

// The kernel, which is made where there is none.
fn take_kernel(
    alloc: Global,
    kernel: &mut Option<Kernel>,
    graph: &Graph,
    along: Along,
) -> Result<Kernel, NoMemory>
    requires { IsKernelOf graph.now along kernel.old }
    ensures ready { IfOk result (λ kernel. IsKernelOf graph.now along (Some kernel)) }
    ensures taken { kernel.new ≡ None }
{
    match kernel.take() {
        Some(kernel) => Ok(kernel),
        None => Kernel::new(alloc, graph, along),
    }
}

// These views, as a list.
fn copied(alloc: Global, views: &[ViewNo]) -> Result<List<ViewNo>, NoMemory>
    ensures { IfOk result (λ list. list ≡ views.now) }
{
    Ok(List::from_vec(Vec::from_slice(alloc, views)?))
}

// Whether the view is one of these.
fn has_view(views: &[ViewNo], view: ViewNo) -> bool
    ensures { result ≡ list_any (λ u. u.0 == view.0) views.now }
{
    views.iter().any(|other| *other == view)
}

// The work that stands beside a view.
fn work_beside(views: &[ViewNo], works: &[u64], view: ViewNo) -> Option<u64>
    ensures { result ≡ work_beside views.now works.now view }
{
    for (place, work) in works.iter().enumerate() {
        if place < views.len() && views[place] == view {
            return Some(*work);
        }
    }
    None
}

// The work of a view in the first of these segments that has one.
fn work_in(segments: &[Segment], view: ViewNo) -> Option<u64>
    ensures { result ≡ work_in segments.now view }
{
    for segment in segments {
        let found = work_beside(segment.views(), segment.works(), view);
        if found.is_some() {
            return found;
        }
    }
    None
}

// The place of the first of these segments that has the view.
fn place_of(segments: &[Segment], view: ViewNo) -> Option<usize>
    ensures { result ≡ position (λ s. list_any (λ u. u.0 == view.0) s.views) segments.now }
{
    segments
        .iter()
        .position(|segment| has_view(segment.views(), view))
}
