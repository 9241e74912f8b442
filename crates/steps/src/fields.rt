// The descriptors of a fields section, their records, and their names.
ghost use Rattle.std.specs.Prelude.{◌≡◌};
ghost use Rattle.refusal.specs.Refusal.{outcome, mapped, answered};
ghost use Rattle.refusal.specs.Guarded.{guarded};
ghost use Rattle.runtime.specs.Reads.{text_place};
ghost use Rattle.runtime.specs.FieldName.{field_name, field_name_of};
ghost use Rattle.field.specs.Fields.{field_step, field_step_of};
ghost use Rattle.field.specs.Records.{record_step, record_step_of};

use crate::bodies::text_at;
use field::{FieldDescriptor, FieldIter, FieldRecord, FieldRecordIter, FieldRecordStep, FieldStep};
use refusal::Refusal;
use runtime::{FieldName, SwiftRuntime, SwiftSection};
use util::Place;

// The next descriptor of a fields section from the walk's position. It takes no segments, and refuses nothing.
pub fn next_field(fields: &[u8], vmaddr: u64, walk: FieldIter) -> FieldStep
    ensures { field_step_of result ≡ field_step fields.now vmaddr walk.at }
{
    let section = SwiftSection {
        body: fields,
        vmaddr,
    };
    walk.next(section)
}

// The next record of a descriptor from the walk's position.
pub fn next_field_record(
    image: &[u8],
    segments: &[u64],
    walk: FieldRecordIter,
) -> Result<FieldRecordStep, Refusal>
    ensures { mapped record_step_of (outcome result) ≡ guarded segments.now (answered (record_step image.now segments.now walk)) }
{
    refusal::find_fault(segments)?;
    let rt = SwiftRuntime::new(image, segments);
    Ok(walk.next(&rt))
}

// The name of a record's field: the image's text, else that of the string section, whose first byte is at `strings_va`.
pub fn field_name(
    image: &[u8],
    segments: &[u64],
    strings: &[u8],
    strings_va: u64,
    record: FieldRecord,
) -> Result<Option<FieldName>, Refusal>
    ensures { mapped field_name_of (outcome result) ≡ guarded segments.now (answered (field_name image.now segments.now strings.now strings_va «record».field_name_va)) }
{
    refusal::find_fault(segments)?;
    let rt = SwiftRuntime::new(image, segments);
    let strings = SwiftSection {
        body: strings,
        vmaddr: strings_va,
    };
    Ok(field::field_name(&rt, strings, record))
}

// The mangled names: that of a field's type, of the type that a descriptor is for, and of its superclass.
pub fn field_type_name(
    image: &[u8],
    segments: &[u64],
    record: FieldRecord,
) -> Result<Option<Place>, Refusal>
    ensures { outcome result ≡ guarded segments.now (answered (text_place image.now segments.now «record».mangled_type_name_va)) }
{
    text_at(image, segments, record.mangled_type_name_va)
}

pub fn descriptor_type_name(
    image: &[u8],
    segments: &[u64],
    descriptor: FieldDescriptor,
) -> Result<Option<Place>, Refusal>
    ensures { outcome result ≡ guarded segments.now (answered (text_place image.now segments.now descriptor.mangled_type_name_va)) }
{
    text_at(image, segments, descriptor.mangled_type_name_va)
}

pub fn descriptor_superclass_name(
    image: &[u8],
    segments: &[u64],
    descriptor: FieldDescriptor,
) -> Result<Option<Place>, Refusal>
    ensures { outcome result ≡ guarded segments.now (answered (text_place image.now segments.now descriptor.superclass_va)) }
{
    text_at(image, segments, descriptor.superclass_va)
}
