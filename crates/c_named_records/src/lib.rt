// The records of a field descriptor with both names for programs in C or Rust, by the rules of the crate `c_rows`, in an archive of its
// own: a reader that only one loop uses is compiled into that loop.
#![tactic(auto)]

ghost use Rattle.named_records.specs.NamedRecords.{guarded_named};
ghost use Rattle.c_tables.specs.Tables.{TellsTable};

use field::FieldRecordIter;

// Writes ten numbers for each field record: the four of `hodrupec_field_records`; for the type's name the three of `hodrupec_text_at`; and
// for the field's name the three of `hodrupec_field_name`, with a string section whose first byte is at `strings_va`. `out` says how many
// records were written, and why no more: 0 the table's end, 1 the buffer is full, 2 a record that cannot be read.
#[unsafe(no_mangle)]
pub extern "C" fn hodrupec_named_records(
    image: &[u8],
    segments: &[u64],
    strings: &[u8],
    strings_va: u64,
    base_va: u64,
    count: u32,
    size: u32,
    next: u32,
    buffer: &mut [u64],
    out: &mut [u64; 2],
) -> u64
    ensures { TellsTable (guarded_named image.now segments.now strings.now strings_va (record { base_va = base_va; count = count; entry_size = size; cursor = next }) buffer.old) out.old buffer.old result out.new buffer.new }
{
    let walk = FieldRecordIter {
        base_va,
        count,
        entry_size: size,
        cursor: next,
    };
    c_tables::tell_counts(
        named_records::named_records(image, segments, strings, strings_va, walk, buffer),
        out,
    )
}
