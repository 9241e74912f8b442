// The records one after the other, each with its names.
ghost use Rattle.std.specs.Prelude.{◌≡◌, length};
ghost use Rattle.runtime.specs.Runtime.{tried};
ghost use Rattle.runtime.specs.FieldName.{field_name_of};
ghost use Rattle.runtime.specs.PlaceNumbers.{text_numbers, field_numbers};
ghost use Rattle.field.specs.Records.{of_record};
ghost use Rattle.entry_tables.specs.Tables.{Lists};
ghost use Rattle.named_records.specs.NamedRecords.{named_numbers, named_in};

use entry_tables::{Listed, Stop};
use field::{FieldRecord, FieldRecordIter, FieldRecordStep};
use runtime::{FieldName, SwiftRuntime, SwiftSection};
use util::Place;

// How many numbers a record has.
const RECORD: usize = 10;

// The first number of a name: that there is one, and for a field's that it lies in the string section.
const THERE: u64 = 1;

const IN_STRINGS: u64 = 2;

// The numbers of a name.
fn text_numbers(text: Option<Place>) -> [u64; 3]
    ensures { result ≡ text_numbers text }
{
    match text {
        Some(place) => [THERE, place.start as u64, place.size as u64],
        None => [0; 3],
    }
}

fn field_name_numbers(name: Option<FieldName>) -> [u64; 3]
    ensures { result ≡ field_numbers (field_name_of name) }
{
    match name {
        Some(FieldName::Image(place)) => [THERE, place.start as u64, place.size as u64],
        Some(FieldName::Strings(place)) => [IN_STRINGS, place.start as u64, place.size as u64],
        None => [0; 3],
    }
}

// All numbers of a record.
fn record_numbers(rt: &SwiftRuntime, strings: SwiftSection, record: FieldRecord) -> [u64; RECORD]
    ensures { result ≡ named_numbers rt.now.image.now (tried rt.now) strings.entry.body.now strings.entry.vmaddr (of_record «record») }
{
    let type_name = text_numbers(field::record_type_name(rt, record));
    let name = field_name_numbers(field::field_name(rt, strings, record));
    [
        record.address,
        record.flags as u64,
        record.mangled_type_name_va,
        record.field_name_va,
        type_name[0],
        type_name[1],
        type_name[2],
        name[0],
        name[1],
        name[2],
    ]
}

// One walk over the segments finds what is in the file around the records, and with it the records' bytes, and those of their names if they
// lie there too.
pub fn list_records(
    rt: &SwiftRuntime,
    strings: SwiftSection,
    walk: FieldRecordIter,
    buffer: &mut [u64],
) -> Listed
    ensures { Lists (named_in rt.now.image.now rt.now.segments.now strings.entry.body.now strings.entry.vmaddr walk (length buffer.old)) buffer.old result buffer.new }
{
    let near = SwiftRuntime {
        mapping: walk.locate(rt.segments),
        ..*rt
    };
    let room = buffer.len() / RECORD;
    let mut here = walk;
    for n in 0..room {
        match here.next(&near) {
            FieldRecordStep::Record { record, next } => {
                let numbers = record_numbers(&near, strings, record);
                let at = RECORD * n;
                buffer[at..at + RECORD].copy_from_slice(&numbers);
                here = next;
            }
            FieldRecordStep::Unreadable { next: _ } => {
                return Listed {
                    entries: n,
                    stop: Stop::Unreadable,
                };
            }
            FieldRecordStep::End => {
                return Listed {
                    entries: n,
                    stop: Stop::Ended,
                };
            }
        }
    }
    Listed {
        entries: room,
        stop: entry_tables::stopped(here.cursor, here.count),
    }
}
