// The records of a field descriptor, read from the image at their addresses.
ghost use Rattle.runtime.specs.Runtime.{tried};
ghost use Rattle.std.specs.Prelude.{◌≡◌, ◌+◌, ◌^◌, ◌<◌};
ghost use Rattle.segment.specs.Mapping.{with_mapping, TrueMapping};
ghost use Rattle.runtime.specs.Reads.{text_place};
ghost use Rattle.runtime.specs.FieldName.{field_name, field_name_of};
ghost use Rattle.vtable.specs.Entries.{packed, entry_of};
ghost use Rattle.field.specs.Records.{record_words, record_step, of_record, record_step_of};

use runtime::{FieldName, SwiftRuntime, SwiftSection};
use segment::Mapping;
use util::Place;

// How many bytes of a record are read, whatever the record size.
const RECORD_SIZE: u32 = 12;

// Its address, and what its words say. The names are texts at these addresses, which are 0 if there is none.
#[derive(Clone, Copy)]
pub struct FieldRecord {
    pub address: u64,
    pub flags: u32,
    pub mangled_type_name_va: u64,
    pub field_name_va: u64,
}

// A walk over records: the address of the first, how many there are, the bytes from one to the next, and the number of the next.
#[derive(Clone, Copy)]
pub struct FieldRecordIter {
    pub base_va: u64,
    pub count: u32,
    pub entry_size: u32,
    pub cursor: u32,
}

// What a step gives: a record, or that there is one that cannot be read, each with the walk from there on; or the end. No Option: a caller may go
// on past a record that cannot be read.
#[derive(Clone, Copy)]
pub enum FieldRecordStep {
    Record {
        record: FieldRecord,
        next: FieldRecordIter,
    },
    Unreadable {
        next: FieldRecordIter,
    },
    End,
}

fn field_record(bytes: &[u8], address: u64) -> FieldRecord
    requires { address + 8 < 2 ^ 64 }
    ensures { of_record result ≡ entry_of (packed record_words) address bytes.now }
{
    FieldRecord {
        address,
        flags: util::u32_at(bytes, 0),
        mangled_type_name_va: util::address_in(bytes, 4, address + 4),
        field_name_va: util::address_in(bytes, 8, address + 8),
    }
}

impl FieldRecordIter {
    // What is in the file around the records' start. With it a step need not walk over the segments again; without it the answers are the same.
    pub fn locate(self, segments: &[u64]) -> Mapping
        ensures { TrueMapping segments.now result }
    {
        segment::locate(segments, self.base_va).unwrap_or(segment::NO_MAPPING)
    }

    pub fn next(self, rt: &SwiftRuntime) -> FieldRecordStep
        ensures { record_step_of result ≡ record_step rt.now.image.now (tried rt.now) self }
    {
        if self.count <= self.cursor {
            return FieldRecordStep::End;
        }
        let next = FieldRecordIter {
            cursor: self.cursor + 1,
            ..self
        };
        let bytes = vtable::entry_bytes(
            rt,
            self.base_va,
            RECORD_SIZE,
            self.entry_size,
            self.cursor,
        );
        if bytes.is_empty() {
            return FieldRecordStep::Unreadable { next };
        }
        let address = vtable::entry_address(self.base_va, self.entry_size, self.cursor);
        FieldRecordStep::Record {
            record: field_record(bytes, address),
            next,
        }
    }
}

pub fn record_type_name(rt: &SwiftRuntime, record: FieldRecord) -> Option<Place>
    ensures { result ≡ text_place rt.now.image.now (tried rt.now) «record».mangled_type_name_va }
{
    rt.read_cstr(record.mangled_type_name_va)
}

// The image's text at the name's address, else that of the string section.
pub fn field_name(
    rt: &SwiftRuntime,
    strings: SwiftSection,
    record: FieldRecord,
) -> Option<FieldName>
    ensures { field_name_of result ≡ field_name rt.now.image.now (tried rt.now) strings.entry.body.now strings.entry.vmaddr «record».field_name_va }
{
    rt.lookup_field_name(strings, record.field_name_va)
}
