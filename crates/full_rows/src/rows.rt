// The records of a section's rows, one after the other.
ghost use Rattle.std.specs.Prelude.{◌≡◌, [], ◌∷◌, ◌+◌, ◌≤◌, ◌*◌, ◌/◌, length, replicate, Some};
ghost use Rattle.util.specs.Buffer.{pasted, at_start};
ghost use Rattle.type_body.specs.Body.{body_of, class_of};
ghost use Rattle.full_rows.specs.FullRows.{body_numbers, table_recorded, recorded_numbers, recorded_of, block_four, block_fours, full_row, full_rows_in, numbers_of, given_of};
ghost use Rattle.runtime.specs.Runtime.{tried};
ghost use Rattle.typedescriptor.specs.Row.{row_of};

use classtrailers::{Block, BlockBody, BlockKind, Trailing};
use runtime::{SwiftRuntime, SwiftSection};
use segment::NO_MAPPING;
use type_body::{ClassBody, ClassSizes, Start, TypeBody};
use typedescriptor::Row;

// How many numbers a record has.
pub const RECORD: usize = 58;

// How many records were written, the slot to go on from, and whether all rows are given: a caller in C is told the slot also if they are.
#[derive(Clone, Copy)]
pub struct Given {
    pub records: usize,
    pub next: usize,
    pub all: bool,
}

// Puts numbers at a place of the list.
fn put(numbers: &[u64], buffer: &mut [u64], at: usize)
    requires { at + length numbers.now ≤ length buffer.old }
    ensures { buffer.new ≡ pasted buffer.old at numbers.now }
{
    let end = at + numbers.len();
    buffer[at..end].copy_from_slice(numbers);
}

// Puts `count` zeros: `fill`, with the promise that each of its callers needs.
fn put_zeros(count: usize, buffer: &mut [u64], at: usize)
    requires { at + count ≤ length buffer.old }
    ensures { buffer.new ≡ pasted buffer.old at (replicate count 0) }
{
    let end = at + count;
    buffer[at..end].fill(0);
}

// The first number of a body: its kind.
const CLASS: u64 = 1;

const STRUCT: u64 = 2;

const ENUM: u64 = 3;

// A row's own numbers.
fn row_numbers(slot: usize, row: Row) -> [u64; 6]
    ensures { result ≡ slot ∷ (row.address ∷ (row.flags ∷ (row.parent ∷ (row.name.start ∷ (row.name.size ∷ []))))) }
{
    [
        slot as u64,
        row.address,
        row.flags as u64,
        row.parent,
        row.name.start as u64,
        row.name.size as u64,
    ]
}

fn class_numbers(class: ClassBody) -> [u64; 8]
    ensures { result ≡ body_numbers (Some (class_of class)) }
{
    let (resilient, first, second) = match class.sizes {
        ClassSizes::Fixed {
            negative_words,
            positive_words,
        } => (0, negative_words as u64, positive_words as u64),
        ClassSizes::Resilient {
            bounds_va,
            extra_class_flags,
        } => (1, bounds_va, extra_class_flags as u64),
    };
    [
        CLASS,
        class.superclass_va,
        resilient,
        first,
        second,
        class.num_immediate_members as u64,
        class.num_fields as u64,
        class.field_offset_vector_offset as u64,
    ]
}

// The numbers of a body by themselves.
pub fn write_body(body: Option<TypeBody>, out: &mut [u64; 8])
    ensures { out.new ≡ body_numbers (body_of body) }
{
    *out = match body {
        Some(TypeBody::Class(class)) => class_numbers(class),
        Some(TypeBody::Struct(fields)) => [
            STRUCT,
            fields.num_fields as u64,
            fields.field_offset_vector_offset as u64,
            0,
            0,
            0,
            0,
            0,
        ],
        Some(TypeBody::Enum(cases)) => [
            ENUM,
            cases.num_payload_cases as u64,
            cases.payload_size_offset as u64,
            cases.num_empty_cases as u64,
            0,
            0,
            0,
            0,
        ],
        None => [0; 8],
    };
}

// How many kinds of blocks there are.
const KINDS: u32 = 11;

// The first number of a block that is present.
const THERE: u64 = 1;

// The three numbers of what is recorded of a block, 0 for those that its kind does not have.
#[derive(Clone, Copy)]
pub struct Recorded {
    pub first: u64,
    pub second: u64,
    pub third: u64,
}

// The numbers of a table: only a vtable has an offset, which comes before the others.
fn table_numbers(kind: BlockKind, offset: u32, count: u32, entries_va: u64) -> Recorded
    ensures { recorded_of result ≡ table_recorded kind offset count entries_va }
{
    match kind {
        BlockKind::VTable => Recorded {
            first: offset as u64,
            second: count as u64,
            third: entries_va,
        },
        _ => Recorded {
            first: count as u64,
            second: entries_va,
            third: 0,
        },
    }
}

pub fn numbers_of(block: Block) -> Recorded
    ensures { recorded_of result ≡ recorded_numbers block }
{
    let kind = block.kind;
    let body = block.body;
    match body {
        BlockBody::At(va) => Recorded {
            first: va,
            second: 0,
            third: 0,
        },
        BlockBody::Table {
            offset,
            count,
            entries_va,
        } => table_numbers(kind, offset, count, entries_va),
        BlockBody::Set { bits, protocols } => Recorded {
            first: bits as u64,
            second: protocols as u64,
            third: 0,
        },
    }
}

fn put_block(block: Block, buffer: &mut [u64], at: usize)
    requires { at + 4 ≤ length buffer.old }
    ensures { buffer.new ≡ pasted buffer.old at (block_four (Some block)) }
{
    let n = numbers_of(block);
    put(&[THERE, n.first, n.second, n.third], buffer, at);
}

// The blocks of a descriptor, which start at an address: after one that cannot be read, or whose end overflows, there is none.
fn put_blocks(rt: &SwiftRuntime, trailing: Trailing, start: u64, buffer: &mut [u64], at: usize)
    requires { at + 44 ≤ length buffer.old }
    ensures { buffer.new ≡ pasted buffer.old at (block_fours rt.now.image.now (tried rt.now) (Some (record { trailing = trailing; start = start }))) }
{
    let mut address = start;
    // No `continue` for a kind that is not there: with it the compiler made a second loop, of such kinds (docs/DECISIONS.md, "Bodies, blocks,
    // entries").
    for row in 0..KINDS {
        let here = at + 4 * (row as usize);
        if let Some(kind) = classtrailers::kind_there(trailing, row) {
            let Some(found) = classtrailers::block_at(rt, kind, address) else {
                put_zeros(44 - 4 * (row as usize), buffer, here);
                return;
            };
            put_block(found.block, buffer, here);
            let Some(end) = found.end else {
                put_zeros(40 - 4 * (row as usize), buffer, here + 4);
                return;
            };
            address = end;
        } else {
            put_zeros(4, buffer, here);
        }
    }
}

// A row's record at a place of the list.
fn put_record(rt: &SwiftRuntime, slot: usize, row: Row, buffer: &mut [u64], at: usize)
    requires { at + 58 ≤ length buffer.old }
    ensures { buffer.new ≡ pasted buffer.old at (full_row rt.now.image.now (tried rt.now) slot (row_of rt.now.image.now row)) }
{
    let address = row.address;
    let flags = row.flags;
    put(&row_numbers(slot, row), buffer, at);
    let body = type_body::decode_body(rt, address, flags);
    let mut numbers = [0; 8];
    write_body(body, &mut numbers);
    put(&numbers, buffer, at + 6);
    match type_body::trailing(address, flags, body) {
        Some(Start { trailing, start }) => {
            put_blocks(rt, trailing, start, buffer, at + 14);
        }
        None => {
            put_zeros(44, buffer, at + 14);
        }
    }
}

// The records of the rows from a slot on, as many as the list holds. The listing in one call has such a loop too, whose records end where
// their names do: one walk for both would be a trait with laws for what is put of a row, which is longer than the two loops. The mapping around one descriptor finds the next, unless that lies elsewhere.
pub fn put_rows(rt: &SwiftRuntime, types: SwiftSection, start: usize, buffer: &mut [u64]) -> Given
    ensures value { result ≡ given_of (full_rows_in rt.now.image.now rt.now.segments.now types.entry.body.now types.entry.vmaddr start (length buffer.old)) }
    ensures buffer_after { buffer.new ≡ at_start (numbers_of (full_rows_in rt.now.image.now rt.now.segments.now types.entry.body.now types.entry.vmaddr start (length buffer.old))) buffer.old }
{
    let count = types.body.len() / 4;
    let room = buffer.len() / RECORD;
    let mut mapping = NO_MAPPING;
    let mut n: usize = 0;
    for slot in start..count {
        let near = SwiftRuntime { mapping, ..*rt };
        let step = typedescriptor::slot_row_moving(&near, types, slot);
        mapping = step.mapping;
        let Some(row) = step.found else {
            continue;
        };
        if room <= n {
            return Given {
                records: n,
                next: slot,
                all: false,
            };
        }
        let here = SwiftRuntime { mapping, ..*rt };
        put_record(&here, slot, row, buffer, RECORD * n);
        n += 1;
    }
    Given {
        records: n,
        next: start.max(count),
        all: true,
    }
}
