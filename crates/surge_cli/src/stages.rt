//! From the words to a job, stage by stage.

ghost use Rattle.std.specs.Prelude.{◌≡◌, ◌<◌, ◌≤◌, ◌+◌, ◌^◌, ℕ, List, [], ◌∷◌, map, string_bytes, length, sum, IfOk, IfErr, OnOk};
ghost use Rattle.graph_loader.specs.DataFiles.{extended, graph_of};
ghost use Rattle.gvdl_check.specs.Fits.{PlanFits};
ghost use Rattle.gvdl_check.specs.Plans.{plan};
ghost use Rattle.gvdl_check.specs.Written.{IsWritten};
ghost use Rattle.sample_data.specs.Sample.{script_text};
ghost use Rattle.surge_cli.specs.FilesState.{GoesOn, AsksNoOther, AsksEach};
ghost use Rattle.surge_cli.specs.Words.{command_line};
ghost use Rattle.surge_cli.specs.Expected.{limit_of, too_large, large_of, fetched, loaded, planned, graph_with, graph_for, insert_at, inserts_of, grouped, with_bytes, with_file, with_files, grouped_for, job_over, job_for, sample_graph, job_sampled, ExpectsOfText, ExpectsOfFile, ExpectsOfChanges, ExpectsOfSource, ExpectsAsked, Expects, told_of, told};
ghost use Rattle.surge_cli.specs.Headline.{AsksFor};
ghost use Rattle.surge_cli.specs.Reaches.{IsTheScript, HasScript, ReachesData, ReachesNamed, ReachesAsked, ReachesChanges, Reaches};
ghost use Rattle.surge_cli.specs.Causes.{OfWords, NamesNoFile, NamesNone, AsksOnly, UpTo};
ghost use Rattle.surge_cli.specs.Once.{IsRead, IsReadOf, AsksOnce, ReadsOnce};
ghost use Rattle.surge_cli.specs.Stages.{IsStop, IsStage, IsStageAt, IsReplayStage, IsInner, IsInnerAt, IsFile, RisesBefore, IsSaid, IsSaidOf, IsExpected, IsExpectedOf, StopsParse, StopsScript, DueFits, seen, as_seen, result_of, AreGrouped, names_of, IsInsert, IsBehind};

use crate::job::{Due, Job};
use crate::named_files::NamedFiles;
use crate::reading::{Reading, read_file};
use crate::replaying::changes_named;
use crate::script_line::ScriptRefusal;
use crate::status::{FileRole, Status};
use crate::words::{Asked, CommandLine, Source, Task, command_line};
use change_text::ReplayFault;
use graph_loader::{DataFault, DataFile, DataKind, LoadFault, extend, load};
use graph_model::Graph;
use gvdl_check::{CheckFault, Plan, check};
use gvdl_parser::{ParseFault, parse};
use gvdl_tree::{Script, Statement};
use sample_data::{edges, nodes, script};
use std::alloc::Global;
use surge_outside::{List, NoMemory, Trouble};

fn limit_of(role: FileRole) -> usize
    ensures limit { result ≡ limit_of role }
    ensures small { result < 2 ^ 31 }
{
    match role {
        FileRole::Script => 1_048_576,
        FileRole::Nodes => 268_435_456,
        FileRole::Edges => 268_435_456,
        FileRole::Insert(_) => 268_435_456,
        FileRole::Changes => 268_435_456,
    }
}

fn too_large(file: DataFile) -> Status
    ensures { result ≡ Status.Data (too_large file) }
{
    Status::Data(DataFault {
        file,
        row: 0,
        column: 0,
        kind: DataKind::TooLarge,
    })
}

// The answer to a file of more bytes than its limit.
fn large_of(role: FileRole) -> Status
    ensures value { result ≡ large_of role }
    ensures inner { IsInnerAt role result }
{
    match role {
        FileRole::Script => Status::Script(ScriptRefusal::TooLarge),
        FileRole::Nodes => too_large(DataFile::Nodes),
        FileRole::Edges => too_large(DataFile::Edges),
        FileRole::Insert(statement) => too_large(DataFile::Insert(statement)),
        FileRole::Changes => Status::Replay(ReplayFault::TooLarge),
    }
}

/// Fetches a whole file within its limit.
pub(crate) fn fetch<F: NamedFiles>(
    alloc: Global,
    files: &mut F,
    role: FileRole,
    name: &str,
) -> Result<List<u8>, Status>
    ensures said { IsSaidOf (F.state files.old).held (λ held. fetched held role name.now) result }
    ensures small { IfOk result (λ bytes. length bytes < 2 ^ 31) }
    ensures within { IfOk result (λ bytes. length bytes ≤ limit_of role) }
    ensures stage { IfErr result (IsStageAt role) }
    ensures files { GoesOn (F.state files.old) (F.state files.new) }
    ensures causes { IfErr result (λ s. RisesBefore (IsFile role name.now) s (F.state files.old) (F.state files.new)) }
    ensures asked { AsksNoOther name.now (F.state files.old) (F.state files.new) }
    ensures once { AsksEach (name.now ∷ []) (F.state files.old) (F.state files.new) }
{
    match read_file(alloc, files, name, limit_of(role)) {
        Ok(Reading::Bytes(bytes)) => Ok(List::from_vec(bytes)),
        Ok(Reading::Absent) => Err(Status::Absent(role)),
        Ok(Reading::TooLarge) => Err(large_of(role)),
        Err(Trouble::Failed) => Err(Status::ReadFault),
        Err(Trouble::NoMemory) => Err(Status::NoMemory),
    }
}

fn parse_script(alloc: Global, text: &[u8]) -> Result<Script, Status>
    requires { length text.now < 2 ^ 31 }
    ensures ok { IfOk result (IsTheScript text.now) }
    ensures written { IfOk result IsWritten }
    ensures err { IfErr result (StopsParse text.now) }
    ensures inner { IfErr result IsInner }
{
    match parse(alloc, text) {
        Ok(script) => Ok(script),
        Err(ParseFault::Fault(fault)) => Err(Status::Script(ScriptRefusal::Text(fault))),
        Err(ParseFault::NoMemory) => Err(Status::NoMemory),
    }
}

fn load_graph(alloc: Global, nodes: &[u8], edges: &[u8]) -> Result<Graph, Status>
    ensures said { IsSaid (loaded (graph_of nodes.now edges.now)) result }
    ensures inner { IfErr result IsInner }
{
    match load(alloc, nodes, edges) {
        Ok(graph) => Ok(graph),
        Err(LoadFault::Fault(fault)) => Err(Status::Data(fault)),
        Err(LoadFault::NoMemory) => Err(Status::NoMemory),
    }
}

fn plan_script(
    alloc: Global,
    script: &Script,
    graph: &Graph,
    groups: &[u32],
) -> Result<Plan, Status>
    requires written { IsWritten script.now }
    requires groups { sum groups.now ≡ length graph.now.ends }
    ensures said { IsSaid (planned (plan script.now graph.now groups.now)) result }
    ensures fits { IfOk result (PlanFits graph.now) }
    ensures inner { IfErr result IsInner }
{
    match check(alloc, script, graph, groups) {
        Ok(plan) => Ok(plan),
        Err(CheckFault::BadForm) => Err(Status::Script(ScriptRefusal::BadForm)),
        Err(CheckFault::Fault(fault)) => Err(Status::Script(ScriptRefusal::Statement(fault))),
        Err(CheckFault::NoMemory) => Err(Status::NoMemory),
    }
}

// The graph that these bytes of a nodes file and the edges file of a script spell.
fn load_edges<F: NamedFiles>(
    alloc: Global,
    files: &mut F,
    script: &Script,
    nodes: &[u8],
) -> Result<Graph, Status>
    ensures said { IsSaidOf (F.state files.old).held (λ held. graph_with held script.now nodes.now) result }
    ensures stage { IfErr result IsStage }
    ensures files { GoesOn (F.state files.old) (F.state files.new) }
    ensures causes { IfErr result (λ s. RisesBefore (IsFile FileRole.Edges script.now.edges) s (F.state files.old) (F.state files.new)) }
    ensures asked { AsksNoOther script.now.edges (F.state files.old) (F.state files.new) }
    ensures once { AsksEach (script.now.edges ∷ []) (F.state files.old) (F.state files.new) }
{
    match fetch(alloc, files, FileRole::Edges, script.edges.as_str()) {
        Ok(edges) => load_graph(alloc, nodes, edges.as_slice()),
        Err(status) => Err(status),
    }
}

// The graph that the data files of a script spell.
fn load_data<F: NamedFiles>(alloc: Global, files: &mut F, script: &Script) -> Result<Graph, Status>
    ensures said { IsSaidOf (F.state files.old).held (λ held. graph_for held script.now) result }
    ensures stage { IfErr result IsStage }
    ensures files { GoesOn (F.state files.old) (F.state files.new) }
    ensures causes { IfErr result (λ s. RisesBefore (ReachesData (F.state files.old).held script.now) s (F.state files.old) (F.state files.new)) }
    ensures asked { AsksOnly (UpTo (ReachesData (F.state files.old).held script.now) FileRole.Edges) (F.state files.old).asked (F.state files.new).asked }
    ensures once { AsksEach (script.now.nodes ∷ script.now.edges ∷ []) (F.state files.old) (F.state files.new) }
{
    match fetch(alloc, files, FileRole::Nodes, script.nodes.as_str()) {
        Ok(nodes) => load_edges(alloc, files, script, nodes.as_slice()),
        Err(status) => Err(status),
    }
}

/// A graph, and how many of its edges came with the edges file, and with each further file.
#[derive(Drop)]
struct Loaded {
    graph: Graph,
    groups: List<u32>,
}

// All edges came with one file.
fn loaded_at_once(alloc: Global, graph: Graph) -> Result<Loaded, Status>
    ensures said { IfOk result (λ loaded. seen loaded ≡ grouped graph) }
    ensures memory { IfErr result (λ s. s ≡ Status.NoMemory) }
    ensures groups { IfOk result AreGrouped }
{
    let mut groups = List::new(alloc);
    match groups.push(graph.edge_count()) {
        Ok(()) => Ok(Loaded { graph, groups }),
        Err(NoMemory) => Err(Status::NoMemory),
    }
}

// How many edges there are more than before.
fn edges_since(graph: &Graph, before: u32) -> u32
    requires { before ≤ length graph.now.ends }
    ensures { length graph.now.ends ≡ before + result }
{
    graph.edge_count() - before
}

// Puts the edges of these bytes, of the file that the statement with this number inserts, behind those of a graph, and answers
// how many they are.
fn extend_graph(
    alloc: Global,
    graph: &mut Graph,
    statement: u32,
    bytes: &[u8],
) -> Result<u32, Status>
    ensures said { IsSaid (loaded (extended statement bytes.now graph.old)) (result_of result graph.new) }
    ensures count { IfOk result (λ count. length graph.new.ends ≡ length graph.old.ends + count) }
    ensures inner { IfErr result IsInner }
{
    let before = graph.edge_count();
    match extend(alloc, graph, bytes, statement) {
        Ok(()) => Ok(edges_since(graph, before)),
        Err(LoadFault::Fault(fault)) => Err(Status::Data(fault)),
        Err(LoadFault::NoMemory) => Err(Status::NoMemory),
    }
}

// The same, and counts them.
fn add_bytes(alloc: Global, loaded: &mut Loaded, statement: u32, bytes: &[u8]) -> Result<(), Status>
    requires { AreGrouped loaded.old }
    ensures said { IsSaid (with_bytes (seen loaded.old) statement bytes.now) (result_of result (seen loaded.new)) }
    ensures groups { OnOk result (AreGrouped loaded.new) }
    ensures inner { IfErr result IsInner }
{
    match extend_graph(alloc, &mut loaded.graph, statement, bytes) {
        Ok(count) => match loaded.groups.push(count) {
            Ok(()) => Ok(()),
            Err(NoMemory) => Err(Status::NoMemory),
        },
        Err(status) => Err(status),
    }
}

// Adds the edges of the file of this name, which the statement with this number inserts.
fn add_file<F: NamedFiles>(
    alloc: Global,
    files: &mut F,
    loaded: &mut Loaded,
    statement: u32,
    name: &str,
) -> Result<(), Status>
    requires { AreGrouped loaded.old }
    ensures said { IsSaidOf (F.state files.old).held (λ held. with_file held (seen loaded.old) (statement, name.now)) (result_of result (seen loaded.new)) }
    ensures groups { OnOk result (AreGrouped loaded.new) }
    ensures stage { IfErr result IsStage }
    ensures files { GoesOn (F.state files.old) (F.state files.new) }
    ensures causes { IfErr result (λ s. RisesBefore (IsFile (FileRole.Insert statement) name.now) s (F.state files.old) (F.state files.new)) }
    ensures asked { AsksNoOther name.now (F.state files.old) (F.state files.new) }
    ensures once { AsksEach (name.now ∷ []) (F.state files.old) (F.state files.new) }
{
    match fetch(alloc, files, FileRole::Insert(statement), name) {
        Ok(bytes) => add_bytes(alloc, loaded, statement, bytes.as_slice()),
        Err(status) => Err(status),
    }
}

// Adds the edges of the file that this statement with this number inserts, where it inserts one.
fn add_statement<F: NamedFiles>(
    alloc: Global,
    files: &mut F,
    loaded: &mut Loaded,
    number: u32,
    statement: &Statement,
) -> Result<(), Status>
    requires { AreGrouped loaded.old }
    ensures said { IsSaidOf (F.state files.old).held (λ held. with_files held (seen loaded.old) (insert_at number statement.now)) (result_of result (seen loaded.new)) }
    ensures groups { OnOk result (AreGrouped loaded.new) }
    ensures stage { IfErr result IsStage }
    ensures files { GoesOn (F.state files.old) (F.state files.new) }
    ensures causes { IfErr result (λ s. RisesBefore (IsInsert number statement.now) s (F.state files.old) (F.state files.new)) }
    ensures asked { AsksOnly (IsInsert number statement.now) (F.state files.old).asked (F.state files.new).asked }
    ensures once { AsksEach (names_of (insert_at number statement.now)) (F.state files.old) (F.state files.new) }
{
    match statement {
        Statement::Insert { file } => add_file(alloc, files, loaded, number, file.as_str()),
        _ => Ok(()),
    }
}

// Adds the edges of all files that a script inserts, in the order of their statements.
fn add_files<F: NamedFiles>(
    alloc: Global,
    files: &mut F,
    mut loaded: Loaded,
    script: &Script,
) -> Result<Loaded, Status>
    requires written { IsWritten script.now }
    requires groups { AreGrouped loaded }
    ensures said { IsSaidOf (F.state files.old).held (λ held. with_files held (seen loaded) (inserts_of script.now)) (as_seen result) }
    ensures groups { IfOk result AreGrouped }
    ensures stage { IfErr result IsStage }
    ensures files { GoesOn (F.state files.old) (F.state files.new) }
    ensures causes { IfErr result (λ s. RisesBefore (IsBehind (F.state files.old).held (seen loaded) (inserts_of script.now)) s (F.state files.old) (F.state files.new)) }
    ensures asked { AsksOnly (IsBehind (F.state files.old).held (seen loaded) (inserts_of script.now)) (F.state files.old).asked (F.state files.new).asked }
    ensures once { AsksEach (names_of (inserts_of script.now)) (F.state files.old) (F.state files.new) }
{
    let mut number = 1;
    for statement in script.statements.as_slice() {
        number += 1;
        if let Err(status) = add_statement(alloc, files, &mut loaded, number, statement) {
            return Err(status);
        }
    }
    Ok(loaded)
}

// The graph of the data files, with the edges of those that a script inserts.
fn with_inserts<F: NamedFiles>(
    alloc: Global,
    files: &mut F,
    script: &Script,
    graph: Graph,
) -> Result<Loaded, Status>
    requires { IsWritten script.now }
    ensures said { IsSaidOf (F.state files.old).held (λ held. with_files held (grouped graph) (inserts_of script.now)) (as_seen result) }
    ensures groups { IfOk result AreGrouped }
    ensures stage { IfErr result IsStage }
    ensures files { GoesOn (F.state files.old) (F.state files.new) }
    ensures causes { IfErr result (λ s. RisesBefore (IsBehind (F.state files.old).held (grouped graph) (inserts_of script.now)) s (F.state files.old) (F.state files.new)) }
    ensures asked { AsksOnly (IsBehind (F.state files.old).held (grouped graph) (inserts_of script.now)) (F.state files.old).asked (F.state files.new).asked }
    ensures once { AsksEach (names_of (inserts_of script.now)) (F.state files.old) (F.state files.new) }
{
    match loaded_at_once(alloc, graph) {
        Ok(loaded) => add_files(alloc, files, loaded, script),
        Err(status) => Err(status),
    }
}

// The graph that the data files of a script spell, with those that it inserts.
fn load_all<F: NamedFiles>(alloc: Global, files: &mut F, script: &Script) -> Result<Loaded, Status>
    requires { IsWritten script.now }
    ensures said { IsSaidOf (F.state files.old).held (λ held. grouped_for held script.now) (as_seen result) }
    ensures groups { IfOk result AreGrouped }
    ensures stage { IfErr result IsStage }
    ensures files { GoesOn (F.state files.old) (F.state files.new) }
    ensures causes { IfErr result (λ s. RisesBefore (ReachesData (F.state files.old).held script.now) s (F.state files.old) (F.state files.new)) }
    ensures asked { AsksOnly (ReachesData (F.state files.old).held script.now) (F.state files.old).asked (F.state files.new).asked }
    ensures once { AsksEach (script.now.nodes ∷ script.now.edges ∷ names_of (inserts_of script.now)) (F.state files.old) (F.state files.new) }
{
    match load_data(alloc, files, script) {
        Ok(graph) => with_inserts(alloc, files, script, graph),
        Err(status) => Err(status),
    }
}

// The job over this graph.
fn job_over(alloc: Global, task: Task, script: Script, loaded: Loaded) -> Result<Job, Status>
    requires written { IsWritten script }
    requires groups { AreGrouped loaded }
    ensures said { IsSaid (job_over task script (seen loaded)) result }
    ensures fits { IfOk result (λ job. PlanFits job.graph job.plan) }
    ensures task { IfOk result (λ job. task ≡ job.task) }
    ensures inner { IfErr result IsInner }
{
    let Loaded { graph, groups } = loaded;
    match plan_script(alloc, &script, &graph, groups.as_slice()) {
        Ok(plan) => Ok(Job {
            task,
            script,
            graph,
            plan,
        }),
        Err(status) => Err(status),
    }
}

// The job over the data files that a script names.
fn job_for<F: NamedFiles>(
    alloc: Global,
    files: &mut F,
    task: Task,
    script: Script,
) -> Result<Job, Status>
    requires { IsWritten script }
    ensures said { IsSaidOf (F.state files.old).held (λ held. job_for held task script) result }
    ensures fits { IfOk result (λ job. PlanFits job.graph job.plan) }
    ensures task { IfOk result (λ job. task ≡ job.task) }
    ensures stage { IfErr result IsStage }
    ensures files { GoesOn (F.state files.old) (F.state files.new) }
    ensures causes { IfErr result (λ s. RisesBefore (ReachesData (F.state files.old).held script) s (F.state files.old) (F.state files.new)) }
    ensures asked { AsksOnly (ReachesData (F.state files.old).held script) (F.state files.old).asked (F.state files.new).asked }
    ensures once { AsksEach (script.nodes ∷ script.edges ∷ names_of (inserts_of script)) (F.state files.old) (F.state files.new) }
{
    match load_all(alloc, files, &script) {
        Ok(loaded) => job_over(alloc, task, script, loaded),
        Err(status) => Err(status),
    }
}

// The script in the file of this name.
fn fetch_script<F: NamedFiles>(alloc: Global, files: &mut F, name: &str) -> Result<Script, Status>
    ensures ok { IfOk result (HasScript (F.state files.old).held name.now) }
    ensures written { IfOk result IsWritten }
    ensures err { IfErr result (StopsScript (F.state files.old).held name.now) }
    ensures stage { IfErr result IsStage }
    ensures files { GoesOn (F.state files.old) (F.state files.new) }
    ensures causes { IfErr result (λ s. RisesBefore (IsFile FileRole.Script name.now) s (F.state files.old) (F.state files.new)) }
    ensures asked { AsksNoOther name.now (F.state files.old) (F.state files.new) }
    ensures once { AsksEach (name.now ∷ []) (F.state files.old) (F.state files.new) }
{
    match fetch(alloc, files, FileRole::Script, name) {
        Ok(text) => parse_script(alloc, text.as_slice()),
        Err(status) => Err(status),
    }
}

// The job of the script in the file of this name.
fn job_named<F: NamedFiles>(
    alloc: Global,
    files: &mut F,
    name: &str,
    task: Task,
) -> Result<Job, Status>
    ensures said { IsExpectedOf (F.state files.old).held (λ held. ExpectsOfFile (job_for held task) (fetched held FileRole.Script name.now)) result }
    ensures fits { IfOk result (λ job. PlanFits job.graph job.plan) }
    ensures task { IfOk result (λ job. task ≡ job.task) }
    ensures stage { IfErr result IsStage }
    ensures files { GoesOn (F.state files.old) (F.state files.new) }
    ensures causes { IfErr result (λ s. RisesBefore (ReachesNamed (F.state files.old).held name.now) s (F.state files.old) (F.state files.new)) }
    ensures asked { AsksOnly (ReachesNamed (F.state files.old).held name.now) (F.state files.old).asked (F.state files.new).asked }
    ensures once { AsksOnce (IsRead (F.state files.old).held name.now) (F.state files.old) (F.state files.new) }
{
    match fetch_script(alloc, files, name) {
        Ok(script) => job_for(alloc, files, task, script),
        Err(status) => Err(status),
    }
}

// The graph of the sample with this number.
fn load_sample(alloc: Global, number: u64) -> Result<Graph, Status>
    ensures said { IsSaid (sample_graph number) result }
    ensures inner { IfErr result IsInner }
{
    match nodes(alloc) {
        Ok(nodes) => match edges(alloc, number) {
            Ok(edges) => load_graph(alloc, nodes.as_slice(), edges.as_slice()),
            Err(NoMemory) => Err(Status::NoMemory),
        },
        Err(NoMemory) => Err(Status::NoMemory),
    }
}

// The job of this script over a graph whose edges came with one file.
fn job_over_graph(alloc: Global, task: Task, script: Script, graph: Graph) -> Result<Job, Status>
    requires { IsWritten script }
    ensures said { IsSaid (job_over task script (grouped graph)) result }
    ensures fits { IfOk result (λ job. PlanFits job.graph job.plan) }
    ensures task { IfOk result (λ job. task ≡ job.task) }
    ensures inner { IfErr result IsInner }
{
    match loaded_at_once(alloc, graph) {
        Ok(loaded) => job_over(alloc, task, script, loaded),
        Err(status) => Err(status),
    }
}

// The job of this script over the sample with this number.
fn job_over_sample(alloc: Global, number: u64, task: Task, script: Script) -> Result<Job, Status>
    requires { IsWritten script }
    ensures said { IsSaid (job_sampled number task script) result }
    ensures fits { IfOk result (λ job. PlanFits job.graph job.plan) }
    ensures task { IfOk result (λ job. task ≡ job.task) }
    ensures inner { IfErr result IsInner }
{
    match load_sample(alloc, number) {
        Ok(graph) => job_over_graph(alloc, task, script, graph),
        Err(status) => Err(status),
    }
}

// The script of the sample.
fn sample_script(alloc: Global) -> Result<Script, Status>
    ensures ok { IfOk result (IsTheScript script_text) }
    ensures written { IfOk result IsWritten }
    ensures err { IfErr result (StopsParse script_text) }
    ensures inner { IfErr result IsInner }
{
    match script(alloc) {
        Ok(text) => parse_script(alloc, text.as_slice()),
        Err(NoMemory) => Err(Status::NoMemory),
    }
}

// The job of the sample with this number. Nothing is asked of files.
fn job_sampled(alloc: Global, number: u64, task: Task) -> Result<Job, Status>
    ensures said { IsExpected (ExpectsOfText (job_sampled number task) script_text) result }
    ensures fits { IfOk result (λ job. PlanFits job.graph job.plan) }
    ensures task { IfOk result (λ job. task ≡ job.task) }
    ensures inner { IfErr result IsInner }
{
    match sample_script(alloc) {
        Ok(script) => job_over_sample(alloc, number, task, script),
        Err(status) => Err(status),
    }
}

// The job that is asked for.
fn job_asked<F: NamedFiles>(alloc: Global, files: &mut F, asked: &Asked) -> Result<Job, Status>
    ensures said { IsExpectedOf (told_of asked.now.source (F.state files.old).held) (λ held. ExpectsOfSource held asked.now.source asked.now.task) result }
    ensures fits { IfOk result (λ job. PlanFits job.graph job.plan) }
    ensures task { IfOk result (λ job. asked.now.task ≡ job.task) }
    ensures stage { IfErr result IsStage }
    ensures unread { NamesNoFile asked.now.source → files.new ≡ files.old }
    ensures causes { IfErr result (λ s. RisesBefore (ReachesAsked (F.state files.old).held asked.now) s (F.state files.old) (F.state files.new)) }
    ensures asked { AsksOnly (ReachesAsked (F.state files.old).held asked.now) (F.state files.old).asked (F.state files.new).asked }
    ensures once { AsksOnce (IsReadOf (F.state files.old).held asked.now.source) (F.state files.old) (F.state files.new) }
{
    match &asked.source {
        Source::Script(name) => job_named(alloc, files, name.as_str(), asked.task),
        Source::Sample(number) => job_sampled(alloc, *number, asked.task),
    }
}

// What is to be done of the script that is asked for.
fn script_asked<F: NamedFiles>(alloc: Global, files: &mut F, asked: &Asked) -> Result<Due, Status>
    ensures said { IsExpectedOf (told_of asked.now.source (F.state files.old).held) (λ held. ExpectsAsked held (CommandLine.Asked asked.now)) result }
    ensures fits { IfOk result DueFits }
    ensures asks { IfOk result (AsksFor (CommandLine.Asked asked.now)) }
    ensures stage { IfErr result IsStage }
    ensures unread { NamesNoFile asked.now.source → files.new ≡ files.old }
    ensures causes { IfErr result (λ s. RisesBefore (ReachesAsked (F.state files.old).held asked.now) s (F.state files.old) (F.state files.new)) }
    ensures asked { AsksOnly (ReachesAsked (F.state files.old).held asked.now) (F.state files.old).asked (F.state files.new).asked }
    ensures once { AsksOnce (IsReadOf (F.state files.old).held asked.now.source) (F.state files.old) (F.state files.new) }
{
    match job_asked(alloc, files, asked) {
        Ok(job) => Ok(Due::Run(job)),
        Err(status) => Err(status),
    }
}

// What is to be done of the change text in the file of this name.
fn changes_asked<F: NamedFiles>(alloc: Global, files: &mut F, name: &str) -> Result<Due, Status>
    ensures said { IsExpectedOf (F.state files.old).held (λ held. ExpectsOfChanges (fetched held FileRole.Changes name.now)) result }
    ensures fits { IfOk result DueFits }
    ensures asks { IfOk result (λ job. (file : List ℕ) → AsksFor (CommandLine.Replay file) job) }
    ensures stage { IfErr result IsReplayStage }
    ensures causes { IfErr result (λ s. RisesBefore (ReachesChanges name.now) s (F.state files.old) (F.state files.new)) }
    ensures asked { AsksOnly (ReachesChanges name.now) (F.state files.old).asked (F.state files.new).asked }
    ensures once { AsksEach (name.now ∷ []) (F.state files.old) (F.state files.new) }
{
    match changes_named(alloc, files, name) {
        Ok(changes) => Ok(Due::Replay(changes)),
        Err(status) => Err(status),
    }
}

// What the words come to.
fn read_line(alloc: Global, words: &[String]) -> Result<CommandLine, Status>
    ensures ok { IfOk result (λ line. line ≡ command_line (map string_bytes words.now)) }
    ensures err { IfErr result (λ s. s ≡ Status.NoMemory) }
{
    match command_line(alloc, words) {
        Ok(line) => Ok(line),
        Err(NoMemory) => Err(Status::NoMemory),
    }
}

/// What is to be done to the words, or the first refusal.
pub(crate) fn prepare<F: NamedFiles>(
    alloc: Global,
    files: &mut F,
    words: &[String],
) -> Result<Due, Status>
    ensures said { IsExpectedOf (told (F.state files.old).held (map string_bytes words.now)) (λ held. Expects held (map string_bytes words.now)) result }
    ensures fits { IfOk result DueFits }
    ensures asks { IfOk result (AsksFor (command_line (map string_bytes words.now))) }
    ensures stop { IfErr result IsStop }
    ensures words { IfErr result (OfWords (command_line (map string_bytes words.now))) }
    ensures unread { NamesNone (command_line (map string_bytes words.now)) → files.new ≡ files.old }
    ensures causes { IfErr result (λ s. RisesBefore (Reaches (F.state files.old).held (map string_bytes words.now)) s (F.state files.old) (F.state files.new)) }
    ensures asked { AsksOnly (Reaches (F.state files.old).held (map string_bytes words.now)) (F.state files.old).asked (F.state files.new).asked }
    ensures once { ReadsOnce (F.state files.old).held (map string_bytes words.now) (F.state files.old) (F.state files.new) }
{
    match read_line(alloc, words) {
        Ok(CommandLine::Asked(asked)) => script_asked(alloc, files, &asked),
        Ok(CommandLine::Replay(name)) => changes_asked(alloc, files, name.as_str()),
        Ok(CommandLine::NotOfForm) => Err(Status::Usage),
        Err(status) => Err(status),
    }
}
