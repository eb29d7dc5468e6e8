//! What is wrong with a data file, and where.

ghost use Rattle.std.specs.Prelude.{◌≡◌};
ghost use Rattle.graph_loader.specs.Answers.{kind_number, blame_refused, fault_at};

use std::alloc::AllocError;
use surge_outside::NoMemory;
use thiserror::Error;

/// One of the files that a graph is loaded from.
#[derive(Clone, Copy, Debug, PartialEq, Eq)]
pub enum DataFile {
    /// The file that lists the nodes by their ids.
    Nodes,
    /// The file that lists the edges between them.
    Edges,
    /// A further file of edges, which the statement with this number names.
    Insert(u32),
}

/// What is wrong in a data file.
#[derive(Clone, Copy, Debug, PartialEq, Eq)]
pub enum DataKind {
    /// The file has no record.
    NoHeader,
    /// A field of the header isn't what must stand there.
    BadHeader,
    /// The header names more than 16 properties.
    TooManyColumns,
    /// A record has not as many fields as the header.
    WrongWidth,
    /// A property's field, in the header or in a record, isn't UTF-8.
    NotUtf8,
    /// An id isn't 1 to 19 decimal digits of value at most 2^63 - 1.
    BadId,
    /// A node has the id of an earlier one.
    RepeatedId,
    /// An end of an edge is no node.
    UnknownNode,
    /// A field is no cell of its column's kind.
    BadCell,
    /// There are more than 1,000,000 nodes.
    TooManyNodes,
    /// There are more than 4,000,000 edges.
    TooManyEdges,
    /// The file has more bytes than its reader takes. [`load`](crate::load) and [`extend`](crate::extend), which are given
    /// the bytes, never say so.
    TooLarge,
}

impl DataKind {
    /// The kind's number, from 1 in the order of the declaration.
    pub fn number(&self) -> u8
        ensures { result ≡ kind_number self.now }
    {
        match self {
            DataKind::NoHeader => 1,
            DataKind::BadHeader => 2,
            DataKind::TooManyColumns => 3,
            DataKind::WrongWidth => 4,
            DataKind::NotUtf8 => 5,
            DataKind::BadId => 6,
            DataKind::RepeatedId => 7,
            DataKind::UnknownNode => 8,
            DataKind::BadCell => 9,
            DataKind::TooManyNodes => 10,
            DataKind::TooManyEdges => 11,
            DataKind::TooLarge => 12,
        }
    }
}

/// The first fault of a data file.
#[derive(Clone, Copy, Debug, PartialEq, Eq)]
pub struct DataFault {
    /// The file.
    pub file: DataFile,
    /// The record, from 1; the header is record 1.
    pub row: u32,
    /// The column, from 1; column 0 is the record as a whole.
    pub column: u32,
    /// What is wrong.
    pub kind: DataKind,
}

/// Why no graph was loaded, or no edges were added to one.
#[derive(Clone, Copy, Debug, PartialEq, Eq, Error)]
pub enum LoadFault {
    /// The files spell no graph, or none with more edges, and this is their first fault.
    #[error("a data file isn't of the form that it must have")]
    Fault(DataFault),
    /// A request for memory was refused.
    #[error("out of memory")]
    NoMemory,
}

impl From<NoMemory> for LoadFault {
    ghost use Rattle.graph_loader.specs.declared.fault.LoadFault.TheVariants as fault;

    ghost from_gives = { λ _ e. e ≡ fault.NoMemory };

    fn from(_error: NoMemory) -> LoadFault {
        LoadFault::NoMemory
    }
}

/// What is wrong with a record, and in which column.
#[derive(Clone, Copy, Debug, PartialEq, Eq)]
pub(crate) struct Blame {
    pub(crate) column: u32,
    pub(crate) kind: DataKind,
}

/// Why a record wasn't taken.
#[derive(Clone, Copy, Debug, PartialEq, Eq)]
pub(crate) enum Refusal {
    Blame(Blame),
    NoMemory,
}

impl From<NoMemory> for Refusal {
    ghost use Rattle.graph_loader.specs.declared.fault.Refusal.TheVariants as refusal;

    ghost from_gives = { λ _ e. e ≡ refusal.NoMemory };

    fn from(_error: NoMemory) -> Refusal {
        Refusal::NoMemory
    }
}

impl From<AllocError> for Refusal {
    ghost use Rattle.graph_loader.specs.declared.fault.Refusal.TheVariants as refusal;

    ghost from_gives = { λ _ e. e ≡ refusal.NoMemory };

    fn from(_error: AllocError) -> Refusal {
        Refusal::NoMemory
    }
}

impl Refusal {
    /// This is wrong in this column.
    pub(crate) fn blame(column: u32, kind: DataKind) -> Refusal
        ensures { result ≡ blame_refused column kind }
    {
        Refusal::Blame(Blame { column, kind })
    }

    /// The same, of the record with this number in a file.
    pub(crate) fn of_record(self, file: DataFile, row: u32) -> LoadFault
        ensures { result ≡ fault_at file row self }
    {
        match self {
            Refusal::Blame(Blame { column, kind }) => LoadFault::Fault(DataFault {
                file,
                row,
                column,
                kind,
            }),
            Refusal::NoMemory => LoadFault::NoMemory,
        }
    }
}
