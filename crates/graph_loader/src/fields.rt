//! The fields of a record.

ghost use Rattle.std.specs.Prelude.{◌≡◌, ◌<◌, length};
ghost use Rattle.csv.specs.Records.{fields_of};
ghost use Rattle.graph_loader.specs.DataFiles.{field_of};

use csv::ByteRecord;

/// The field at a place of a record, the first at 0.
pub(crate) fn field(row: &ByteRecord, place: usize) -> &[u8]
    requires { place < length (fields_of row.now) }
    ensures { result.now ≡ field_of (fields_of row.now) place }
{
    match row.get(place) {
        Some(field) => field,
        None => unreachable!(),
    }
}
