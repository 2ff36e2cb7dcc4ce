//! Point files of comma-separated fields.
ghost use Rattle.std.specs.Prelude.{◌≤◌, ◌^◌, length};
ghost use Rattle.bounds_model.specs.Asks.{shape_of};
ghost use Rattle.bounded_coords.specs.Asked.{asked};
ghost use Rattle.csv.specs.Records as csv;
ghost use Rattle.point_text.specs.Fields.{AreFields};
ghost use Rattle.point_text.specs.Files.{file_of_fields, records_of};
ghost use Rattle.point_text.specs.Refusals.{Answers};

use crate::fields::{Fields, read_field};
use crate::judgement::Judgement;
use crate::{OwnedSets, TextFault};
use bounded_coords::Ask;
use csv::{ByteRecord, ReaderBuilder};
use std::alloc::Global;

/// What the fields of a record come to.
fn record_fields(row: &ByteRecord) -> Fields
    ensures { AreFields result (csv.fields_of row.now) }
{
    let mut fields = Fields::Empty;
    for field in row {
        fields = fields.with(read_field(field));
    }
    fields
}

/// Reads a text whose lines are records, for what is asked.
pub(crate) fn read_records(alloc: Global, bytes: &[u8], ask: &Ask) -> Result<OwnedSets, TextFault>
    requires { length bytes.now ≤ 2 ^ 21 }
    ensures { Answers result (file_of_fields (shape_of (asked ask.now)) (records_of bytes.now)) }
{
    let records = ReaderBuilder::new()
        .has_headers(false)
        .flexible(true)
        .from_reader(alloc, bytes)
        .into_byte_records();
    let mut judgement = Judgement::new(alloc, ask.shape());
    for row in records {
        match row {
            Ok(row) => judgement.take(record_fields(&row)),
            // A slice can always be read, and records may have any length: it was memory.
            Err(_) => return Err(TextFault::OutOfMemory),
        }
    }
    judgement.end()
}
