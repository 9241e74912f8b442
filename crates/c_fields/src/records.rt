// The records of a field descriptor in one call: those from one on up to the first that cannot be read, as many as the caller's buffer holds.
ghost use Rattle.field.specs.Records.{record_layout};
ghost use Rattle.entry_tables.specs.Tables.{guarded_table};
ghost use Rattle.c_tables.specs.Tables.{cursor_at, TellsTable};

use field::FieldRecordIter;

// Writes four numbers for each field record, `size` bytes from one to the next: its address, its flags, the addresses of the type's name
// and of the field's. `out` says how many records were written, and why no more: 0 the table's end, 1 the buffer is full, 2 a record that
// cannot be read.
#[unsafe(no_mangle)]
pub extern "C" fn hodrupec_field_records(
    image: &[u8],
    segments: &[u64],
    base_va: u64,
    count: u32,
    size: u32,
    next: u32,
    buffer: &mut [u64],
    out: &mut [u64; 2],
) -> u64
    ensures { TellsTable (guarded_table image.now segments.now (record_layout size) (cursor_at base_va count next) buffer.old) out.old buffer.old result out.new buffer.new }
{
    let walk = FieldRecordIter {
        base_va,
        count,
        entry_size: size,
        cursor: next,
    };
    c_tables::tell_counts(
        entry_tables::field_records(image, segments, walk, buffer),
        out,
    )
}
