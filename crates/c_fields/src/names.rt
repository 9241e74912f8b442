// The names of field descriptors and of field records. A record is the four numbers that `hodrupec_field_records` writes for it, and
// `hodrupec_next_field_record` after its first two; a descriptor is the six that `hodrupec_next_field` writes after its first two.
ghost use Rattle.std.specs.Prelude.{◌≡◌};
ghost use Rattle.refusal.specs.Refusal.{answered, mapped};
ghost use Rattle.runtime.specs.Reads.{text_place};
ghost use Rattle.runtime.specs.FieldName.{field_name};
ghost use Rattle.runtime.specs.PlaceNumbers.{text_numbers, field_numbers};
ghost use Rattle.refusal.specs.Guarded.{guarded};
ghost use Rattle.c_rows.specs.Numbers.{Tells};
ghost use Rattle.c_fields.specs.Names.{record_by, descriptor_by};

use context::FieldDescriptorKind;
use field::{FieldDescriptor, FieldRecord};

fn record_by(numbers: &[u64; 4]) -> FieldRecord
    ensures { result ≡ record_by numbers.now }
{
    FieldRecord {
        address: numbers[0],
        flags: 0,
        mangled_type_name_va: numbers[2],
        field_name_va: numbers[3],
    }
}

fn descriptor_by(numbers: &[u64; 6]) -> FieldDescriptor
    ensures { result ≡ descriptor_by numbers.now }
{
    FieldDescriptor {
        address: numbers[0],
        mangled_type_name_va: numbers[4],
        superclass_va: numbers[5],
        kind: FieldDescriptorKind::Struct,
        field_record_size: 0,
        num_fields: 0,
    }
}

// 1, place and length of the mangled name of the type that a field descriptor is for.
#[unsafe(no_mangle)]
pub extern "C" fn hodrupec_descriptor_type_name(
    image: &[u8],
    segments: &[u64],
    descriptor: &[u64; 6],
    out: &mut [u64; 3],
) -> u64
    ensures { Tells (mapped text_numbers (guarded segments.now (answered (text_place image.now segments.now (descriptor_by descriptor.now).mangled_type_name_va)))) out.old result out.new }
{
    let name = steps::descriptor_type_name(image, segments, descriptor_by(descriptor));
    c_rows::tell_text(name, out)
}

// The same for its superclass.
#[unsafe(no_mangle)]
pub extern "C" fn hodrupec_descriptor_superclass_name(
    image: &[u8],
    segments: &[u64],
    descriptor: &[u64; 6],
    out: &mut [u64; 3],
) -> u64
    ensures { Tells (mapped text_numbers (guarded segments.now (answered (text_place image.now segments.now (descriptor_by descriptor.now).superclass_va)))) out.old result out.new }
{
    let name = steps::descriptor_superclass_name(image, segments, descriptor_by(descriptor));
    c_rows::tell_text(name, out)
}

// The same for the type of a record's field.
#[unsafe(no_mangle)]
pub extern "C" fn hodrupec_record_type_name(
    image: &[u8],
    segments: &[u64],
    record: &[u64; 4],
    out: &mut [u64; 3],
) -> u64
    ensures { Tells (mapped text_numbers (guarded segments.now (answered (text_place image.now segments.now (record_by «record».now).mangled_type_name_va)))) out.old result out.new }
{
    let name = steps::field_type_name(image, segments, record_by(record));
    c_rows::tell_text(name, out)
}

// The name of a record's field: 1 if it is in the image, 2 if it is in the string section, whose first byte is at `strings_va`, and its
// place and length.
#[unsafe(no_mangle)]
pub extern "C" fn hodrupec_record_field_name(
    image: &[u8],
    segments: &[u64],
    strings: &[u8],
    strings_va: u64,
    record: &[u64; 4],
    out: &mut [u64; 3],
) -> u64
    ensures { Tells (mapped field_numbers (guarded segments.now (answered (field_name image.now segments.now strings.now strings_va (record_by «record».now).field_name_va)))) out.old result out.new }
{
    let name = steps::field_name(image, segments, strings, strings_va, record_by(record));
    c_rows::tell_field_name(name, out)
}
