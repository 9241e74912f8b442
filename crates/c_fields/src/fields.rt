// The descriptors of a fields section and their records: each call is a step of a walk. The calls for their names are in names.rt.
ghost use Rattle.std.specs.Prelude.{◌≡◌};
ghost use Rattle.refusal.specs.Refusal.{answered, mapped};
ghost use Rattle.field.specs.Fields.{field_step, field_step_of};
ghost use Rattle.field.specs.Records.{record_step, record_step_of};
ghost use Rattle.refusal.specs.Guarded.{guarded};
ghost use Rattle.c_rows.specs.Numbers.{Tells};
ghost use Rattle.c_fields.specs.Fields.{field_step_numbers, record_numbers, records_at};

use c_rows::{ANSWERED, THERE};
use field::{FieldIter, FieldRecordIter, FieldRecordStep, FieldStep};

// The first number of a record that cannot be read.
const UNREADABLE: u64 = 2;

fn field_step_numbers(step: FieldStep) -> [u64; 8]
    ensures { result ≡ field_step_numbers (field_step_of step) }
{
    let next = step.next.at as u64;
    match step.found {
        Some(descriptor) => [
            THERE,
            next,
            descriptor.address,
            c_numbers::field_kind_number(descriptor.kind),
            u64::from(descriptor.field_record_size),
            u64::from(descriptor.num_fields),
            descriptor.mangled_type_name_va,
            descriptor.superclass_va,
        ],
        None => [0, next, 0, 0, 0, 0, 0, 0],
    }
}

fn record_numbers(step: FieldRecordStep) -> [u64; 6]
    ensures { result ≡ record_numbers (record_step_of step) }
{
    match step {
        FieldRecordStep::Record { record, next } => [
            THERE,
            u64::from(next.cursor),
            record.address,
            u64::from(record.flags),
            record.mangled_type_name_va,
            record.field_name_va,
        ],
        FieldRecordStep::Unreadable { next } => [UNREADABLE, u64::from(next.cursor), 0, 0, 0, 0],
        FieldRecordStep::End => [0; 6],
    }
}

// The descriptor at an offset of the section: 1, the offset to go on from, the descriptor's address, kind, record size, count of
// records, and the addresses of the type's and the superclass's name, 0 if there is none. Without a descriptor all but the offset are
// 0.
#[unsafe(no_mangle)]
pub extern "C" fn hodrupec_next_field(
    fields: &[u8],
    vmaddr: u64,
    at: usize,
    out: &mut [u64; 8],
) -> u64
    ensures { Tells (answered (field_step_numbers (field_step fields.now vmaddr at))) out.old result out.new }
{
    *out = field_step_numbers(steps::next_field(fields, vmaddr, FieldIter { at }));
    ANSWERED
}

// Record `next` of `count` records, `size` bytes from one to the next: 1, the next record's number, the record's address, its flags, and
// the addresses of the type's and the field's name, 0 if there is none; 2 and the next record's number if it cannot be read.
#[unsafe(no_mangle)]
pub extern "C" fn hodrupec_next_field_record(
    image: &[u8],
    segments: &[u64],
    base_va: u64,
    count: u32,
    size: u32,
    next: u32,
    out: &mut [u64; 6],
) -> u64
    ensures { Tells (mapped record_numbers (guarded segments.now (answered (record_step image.now segments.now (records_at base_va count size next))))) out.old result out.new }
{
    let walk = FieldRecordIter {
        base_va,
        count,
        entry_size: size,
        cursor: next,
    };
    let step = steps::next_field_record(image, segments, walk);
    c_rows::tell(step.map(record_numbers), out)
}
