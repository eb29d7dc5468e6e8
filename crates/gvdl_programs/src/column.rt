//! Columns by their names.

ghost use Rattle.std.specs.Prelude.{◌≡◌, ◌≤◌, length};
ghost use Rattle.vertex_lang.specs.Leaves.{is_int};
ghost use Rattle.gvdl_programs.specs.Judging.{Tells};
ghost use Rattle.gvdl_programs.specs.Columns.{column_from, column_of, int_column};

use crate::refusal::{Refusal, Stop};
use graph_model::{Column, Kind};

/// The place, from 0, and the kind of the column with this name.
///
/// # Errors
///
/// [`Refusal::UnknownProperty`] where no column has it.
pub fn column_of(columns: &[Column], name: &str) -> Result<(u32, Kind), Stop>
    requires { length columns.now ≤ 16 }
    ensures { Tells (column_of columns.now name.now) result }
{
    let mut place = 0;
    let mut left = columns;
    'columns: while let [column, rest @ ..] = left {
        if column.name.as_str() == name {
            return Ok((place, column.kind));
        }
        place += 1;
        left = rest;
    }
    Err(Stop::Refused(Refusal::UnknownProperty))
}

fn is_int(kind: Kind) -> bool
    ensures { result ≡ is_int kind }
{
    match kind {
        Kind::Int => true,
        Kind::Str => false,
        Kind::Bool => false,
    }
}

/// The place, from 0, of the column with this name, which holds whole numbers.
///
/// # Errors
///
/// [`Refusal::UnknownProperty`] where no column has it, and [`Refusal::WrongType`] where its cells are of another kind.
pub fn int_column(columns: &[Column], name: &str) -> Result<u32, Stop>
    requires { length columns.now ≤ 16 }
    ensures { Tells (int_column columns.now name.now) result }
{
    let (column, kind) = column_of(columns, name)?;
    if is_int(kind) {
        Ok(column)
    } else {
        Err(Stop::Refused(Refusal::WrongType))
    }
}
