// The calls, by the kind of the table.
ghost use Rattle.vtable.specs.Entries.{kind_layout, method, override, default_override, prespecialization};
ghost use Rattle.field.specs.Records.{record_layout, entries_of};
ghost use Rattle.entry_tables.specs.Tables.{shape_layout, guarded_table, GivesTable};

use crate::list::{Listed, list_entries};
use field::FieldRecordIter;
use refusal::Refusal;
use runtime::SwiftRuntime;
use vtable::{EntryIter, EntryKind, Shape, Word};

// A table by the shape of its entries, and how many bytes it is from one entry to the next.
fn table(
    image: &[u8],
    segments: &[u64],
    cursor: EntryIter,
    shape: Shape,
    stride: u32,
    buffer: &mut [u64],
) -> Result<Listed, Refusal>
    ensures { GivesTable (guarded_table image.now segments.now (shape_layout shape stride) cursor buffer.old) buffer.old result buffer.new }
{
    refusal::find_fault(segments)?;
    let rt = SwiftRuntime::new(image, segments);
    Ok(list_entries(&rt, cursor, shape, stride, buffer))
}

// A table whose entries lie one after the other.
fn packed_table(
    image: &[u8],
    segments: &[u64],
    cursor: EntryIter,
    kind: EntryKind,
    buffer: &mut [u64],
) -> Result<Listed, Refusal>
    ensures { GivesTable (guarded_table image.now segments.now (kind_layout kind) cursor buffer.old) buffer.old result buffer.new }
{
    let shape = kind.shape();
    table(image, segments, cursor, shape, shape.size(), buffer)
}

// Three numbers for each method: its address, its flags, its implementation's address. This call and the next three differ in the kind alone:
// docs/CALLS.md has each by its name, and so have the calls for C.
pub fn methods(
    image: &[u8],
    segments: &[u64],
    cursor: EntryIter,
    buffer: &mut [u64],
) -> Result<Listed, Refusal>
    ensures { GivesTable (guarded_table image.now segments.now method cursor buffer.old) buffer.old result buffer.new }
{
    packed_table(image, segments, cursor, EntryKind::Method, buffer)
}

// Four numbers for each override: its address, and those of the class, the method and the implementation.
pub fn overrides(
    image: &[u8],
    segments: &[u64],
    cursor: EntryIter,
    buffer: &mut [u64],
) -> Result<Listed, Refusal>
    ensures { GivesTable (guarded_table image.now segments.now override cursor buffer.old) buffer.old result buffer.new }
{
    packed_table(image, segments, cursor, EntryKind::Override, buffer)
}

// Three numbers for each default override: its address, and those of the method and the implementation.
pub fn default_overrides(
    image: &[u8],
    segments: &[u64],
    cursor: EntryIter,
    buffer: &mut [u64],
) -> Result<Listed, Refusal>
    ensures { GivesTable (guarded_table image.now segments.now default_override cursor buffer.old) buffer.old result buffer.new }
{
    packed_table(image, segments, cursor, EntryKind::DefaultOverride, buffer)
}

// Two numbers for each prespecialization: its address, and that of the metadata.
pub fn prespecializations(
    image: &[u8],
    segments: &[u64],
    cursor: EntryIter,
    buffer: &mut [u64],
) -> Result<Listed, Refusal>
    ensures { GivesTable (guarded_table image.now segments.now prespecialization cursor buffer.old) buffer.old result buffer.new }
{
    packed_table(
        image,
        segments,
        cursor,
        EntryKind::Prespecialization,
        buffer,
    )
}

// A record's flags, and the addresses of two names.
const RECORD: Shape = Shape {
    first: Word::Number,
    more: 2,
};

// Four numbers for each record: its address, its flags, the addresses of the type's name and of the field's.
pub fn field_records(
    image: &[u8],
    segments: &[u64],
    walk: FieldRecordIter,
    buffer: &mut [u64],
) -> Result<Listed, Refusal>
    ensures { GivesTable (guarded_table image.now segments.now (record_layout walk.entry_size) (entries_of walk) buffer.old) buffer.old result buffer.new }
{
    let cursor = EntryIter {
        base_va: walk.base_va,
        count: walk.count,
        next: walk.cursor,
    };
    table(image, segments, cursor, RECORD, walk.entry_size, buffer)
}
