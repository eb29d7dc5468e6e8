//! What the program answers.

ghost use Rattle.std.specs.Prelude.{◌≡◌, IfOk, string_bytes};
ghost use Rattle.std.specs.Cow.{cow_str_bytes};
ghost use Rattle.surge_cli.specs.StatusText.{status_number, status_line, file_text, kind_text, fault_line, replay_line};

use crate::script_line::{ScriptRefusal, script_line};
use change_text::ReplayFault;
use graph_loader::{DataFault, DataFile, DataKind};
use std::alloc::Global;
use std::borrow::CowStr;
use surge_outside::NoMemory;

/// What a file is for.
#[derive(Clone, Copy, Debug, PartialEq, Eq)]
pub enum FileRole {
    Script,
    Nodes,
    Edges,
    /// A further file of edges, which the statement with this number inserts.
    Insert(u32),
    /// A change text, whose tables are written.
    Changes,
}

/// How a run of the program ended.
#[derive(Clone, Copy, Debug, PartialEq, Eq)]
pub enum Status {
    /// All that is asked for was written.
    Done,
    /// The words of the command line are not of the form.
    Usage,
    /// There is no such file.
    Absent(FileRole),
    /// The data files have this first fault. A file of more than 2^28 bytes is too large, at record 0 and column 0.
    Data(DataFault),
    /// The script is refused so.
    Script(ScriptRefusal),
    /// A file could not be read.
    ReadFault,
    /// The output could not be written.
    WriteFault,
    /// A request for memory was refused.
    NoMemory,
    /// The change text has this fault. One of more than 2^28 bytes is too large.
    Replay(ReplayFault),
}

// The name of a data file in a line.
fn file_name(alloc: Global, file: DataFile) -> Result<String, NoMemory>
    ensures { IfOk result (λ name. string_bytes name ≡ file_text file) }
{
    match file {
        DataFile::Nodes => Ok(String::from_str(alloc, "nodes")?),
        DataFile::Edges => Ok(String::from_str(alloc, "edges")?),
        DataFile::Insert(statement) => Ok(format!(in alloc; "insert {statement}")?),
    }
}

fn kind_name(kind: DataKind) -> &'static str
    ensures { result.now ≡ kind_text kind }
{
    match kind {
        DataKind::NoHeader => "NoHeader",
        DataKind::BadHeader => "BadHeader",
        DataKind::TooManyColumns => "TooManyColumns",
        DataKind::WrongWidth => "WrongWidth",
        DataKind::NotUtf8 => "NotUtf8",
        DataKind::BadId => "BadId",
        DataKind::RepeatedId => "RepeatedId",
        DataKind::UnknownNode => "UnknownNode",
        DataKind::BadCell => "BadCell",
        DataKind::TooManyNodes => "TooManyNodes",
        DataKind::TooManyEdges => "TooManyEdges",
        DataKind::TooLarge => "TooLarge",
    }
}

// The line of a fault in a data file.
fn fault_line(alloc: Global, fault: DataFault) -> Result<String, NoMemory>
    ensures { IfOk result (λ line. string_bytes line ≡ fault_line fault) }
{
    let file = file_name(alloc, fault.file)?;
    let kind = kind_name(fault.kind);
    let row = fault.row;
    let column = fault.column;
    Ok(format!(in alloc; "surge: data: {file} record {row} column {column}: {kind}\n")?)
}

// The line of a fault in a change text.
fn replay_line(alloc: Global, fault: ReplayFault) -> Result<CowStr<'static, Global>, NoMemory>
    ensures { IfOk result (λ line. cow_str_bytes line ≡ replay_line fault) }
{
    match fault {
        ReplayFault::Line(line) => Ok(CowStr::Owned(format!(in alloc;
            "surge: replay: line {line}\n"
        )?)),
        ReplayFault::TooLarge => fixed("surge: replay: TooLarge\n"),
    }
}

fn fixed(line: &'static str) -> Result<CowStr<'static, Global>, NoMemory>
    ensures { IfOk result (λ text. cow_str_bytes text ≡ line.entry.now) }
{
    Ok(CowStr::Borrowed(line))
}

impl Status {
    /// The exit status of the process: 0 only where it is done.
    pub fn number(&self) -> u8
        ensures { result ≡ status_number self.now }
    {
        match self {
            Status::Done => 0,
            Status::Usage => 2,
            Status::Absent(_) => 3,
            Status::Data(_) => 4,
            Status::Script(_) => 5,
            Status::ReadFault => 6,
            Status::WriteFault => 7,
            Status::NoMemory => 8,
            Status::Replay(_) => 10,
        }
    }

    /// The line that says so on standard error, with its line feed. It is empty where the run is done. Only a line with
    /// numbers, or of a script's fault, takes memory; the one error is want of it.
    pub fn line(&self, alloc: Global) -> Result<CowStr<'static, Global>, NoMemory>
        ensures { IfOk result (λ line. cow_str_bytes line ≡ status_line self.now) }
    {
        match self {
            Status::Done => fixed(""),
            Status::Usage => fixed(
                "surge: usage: surge (--script FILE | --sample N | --replay FILE) [--mode run|check|summary|changes] [--turns N]\n",
            ),
            Status::Absent(FileRole::Script) => fixed("surge: absent: script\n"),
            Status::Absent(FileRole::Nodes) => fixed("surge: absent: nodes\n"),
            Status::Absent(FileRole::Edges) => fixed("surge: absent: edges\n"),
            Status::Absent(FileRole::Insert(statement)) => Ok(CowStr::Owned(format!(in alloc;
                "surge: absent: insert {statement}\n"
            )?)),
            Status::Absent(FileRole::Changes) => fixed("surge: absent: changes\n"),
            Status::Data(fault) => Ok(CowStr::Owned(fault_line(alloc, *fault)?)),
            Status::Script(fault) => Ok(CowStr::Owned(script_line(alloc, *fault)?)),
            Status::ReadFault => fixed("surge: read fault\n"),
            Status::WriteFault => fixed("surge: write fault\n"),
            Status::NoMemory => fixed("surge: out of memory\n"),
            Status::Replay(fault) => replay_line(alloc, *fault),
        }
    }
}
