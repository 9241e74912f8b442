// The rows, with their bodies and blocks.
ghost use Rattle.std.specs.Prelude.{◌≡◌};
ghost use Rattle.test_replay_full.specs.Shown.{rows_shown};

use crate::entries::{at_row, entries};
use crate::{
    SHOWN, bad_line, newline, nothing, number_field, one, refused, text_line, three, two, write,
};
use classtrailers::{Block, BlockBody, BlockKind, BlockStep};
use field_offsets::FieldOffsets;
use runtime::{SwiftRuntime, SwiftSection};
use std::io::Stdout;
use type_body::{ClassBody, ClassSizes, SingletonMetadataInit, TypeBody};
use typedescriptor::{Row, TypeIter, TypeStep};
use vtable::EntryKind;

// Bodies.

fn class_line(out: Stdout, class: ClassBody) {
    match class.sizes {
        ClassSizes::Fixed {
            negative_words,
            positive_words,
        } => {
            write(out, b"fixed");
            number_field(out, u64::from(negative_words));
            number_field(out, u64::from(positive_words));
        }
        ClassSizes::Resilient {
            bounds_va,
            extra_class_flags,
        } => {
            write(out, b"resilient");
            number_field(out, bounds_va);
            number_field(out, u64::from(extra_class_flags));
        }
    }
    three(
        out,
        u64::from(class.num_immediate_members),
        u64::from(class.num_fields),
        u64::from(class.field_offset_vector_offset),
    );
}

fn superclass_line(out: Stdout, rt: &SwiftRuntime, body: Option<TypeBody>) {
    match steps::superclass_name(rt.image, rt.segments, body) {
        Ok(text) => text_line(out, b"superclass", text),
        Err(refusal) => refused(out, refusal),
    }
}

fn body_lines(out: Stdout, rt: &SwiftRuntime, body: Option<TypeBody>) {
    match body {
        Some(TypeBody::Class(class)) => {
            class_line(out, class);
            superclass_line(out, rt, body);
        }
        Some(TypeBody::Struct(fields)) => {
            write(out, b"struct");
            two(
                out,
                u64::from(fields.num_fields),
                u64::from(fields.field_offset_vector_offset),
            );
        }
        Some(TypeBody::Enum(cases)) => {
            write(out, b"enum");
            three(
                out,
                u64::from(cases.num_payload_cases),
                u64::from(cases.payload_size_offset),
                u64::from(cases.num_empty_cases),
            );
        }
        None => write(out, b"bodiless\n"),
    }
}

// Blocks.

// The rest of a block's line: its kind and its numbers. A vtable has one more than the other tables.
fn block_end(out: Stdout, block: Block) {
    let kind = u64::from(classtrailers::number_of(block.kind));
    match block.body {
        BlockBody::At(address) => two(out, kind, address),
        BlockBody::Table {
            offset,
            count,
            entries_va,
        } => {
            number_field(out, kind);
            if block.kind == BlockKind::VTable {
                number_field(out, u64::from(offset));
            }
            two(out, u64::from(count), entries_va);
        }
        BlockBody::Set { bits, protocols } => {
            three(out, kind, u64::from(bits), u64::from(protocols));
        }
    }
}

fn init_line(out: Stdout, rt: &SwiftRuntime, address: u64) {
    write(out, b"init");
    match steps::singleton_init(rt.image, rt.segments, address) {
        Ok(
            Some(
                SingletonMetadataInit {
                    initialization_cache_va,
                    incomplete_metadata_va,
                    completion_function_va,
                },
            ),
        ) => three(
            out,
            initialization_cache_va,
            incomplete_metadata_va,
            completion_function_va,
        ),
        Ok(None) => nothing(out),
        Err(refusal) => refused(out, refusal),
    }
}

fn pointer_line(out: Stdout, rt: &SwiftRuntime, address: u64) {
    write(out, b"pointer");
    match steps::singleton_pointer(rt.image, rt.segments, address) {
        Ok(Some(metadata_va)) => one(out, metadata_va),
        Ok(None) => nothing(out),
        Err(refusal) => refused(out, refusal),
    }
}

// What lies at a block: its record or its entries.
fn detail_lines(out: Stdout, rt: &SwiftRuntime, block: Block) {
    match block.body {
        BlockBody::At(address) => match block.kind {
            BlockKind::SingletonMetadataInit => init_line(out, rt, address),
            BlockKind::SingletonMetadataPointer => pointer_line(out, rt, address),
            _ => {}
        },
        BlockBody::Table {
            offset: _,
            count,
            entries_va,
        } => {
            let kind = entry_kind(block.kind);
            entries(out, rt, kind, entries_va, count);
        }
        BlockBody::Set {
            bits: _,
            protocols: _,
        } => {}
    }
}

// The kind of a table's entries. No `From`: only the crates of the kinds may write that.
fn entry_kind(table: BlockKind) -> EntryKind {
    match table {
        BlockKind::VTable => EntryKind::Method,
        BlockKind::OverrideTable => EntryKind::Override,
        BlockKind::Prespecializations => EntryKind::Prespecialization,
        _ => EntryKind::DefaultOverride,
    }
}

fn block_line(out: Stdout, rt: &SwiftRuntime, block: Block) {
    write(out, b"block");
    block_end(out, block);
    detail_lines(out, rt, block);
}

// There are at most 11 blocks, and then the end.
fn block_lines(out: Stdout, rt: &SwiftRuntime, row: Row, body: Option<TypeBody>) {
    let mut walk = steps::block_walk(row.address, row.flags, body);
    for _ in 0..12 {
        match steps::next_block(rt.image, rt.segments, walk) {
            Ok(Some(BlockStep { block, next })) => {
                block_line(out, rt, block);
                walk = next;
            }
            Ok(None) => return,
            Err(refusal) => return refused(out, refusal),
        }
    }
    bad_line(out);
}

fn kind_line(out: Stdout, rt: &SwiftRuntime, row: Row, body: Option<TypeBody>, kind: BlockKind) {
    match steps::block_of_kind(rt.image, rt.segments, row.address, row.flags, body, kind) {
        Ok(Some(block)) => {
            write(out, b"kind");
            block_end(out, block);
        }
        Ok(None) => {}
        Err(refusal) => refused(out, refusal),
    }
}

// The block of each of the 11 kinds.
fn kind_lines(out: Stdout, rt: &SwiftRuntime, row: Row, body: Option<TypeBody>) {
    for number in 0..11 {
        match classtrailers::kind_numbered(number) {
            Some(kind) => kind_line(out, rt, row, body, kind),
            None => bad_line(out),
        }
    }
}

// Field offsets.

fn offset_field(out: Stdout, image: &[u8], offsets: FieldOffsets, number: u32) {
    match field_offsets::field_offset(image, Some(offsets), number) {
        Some(offset) => number_field(out, u64::from(offset)),
        None => nothing(out),
    }
}

fn offsets_line(out: Stdout, rt: &SwiftRuntime, row: Row) {
    write(out, b"offsets");
    match field_offsets::static_field_offsets(rt, row.address, row.flags) {
        Some(offsets) => {
            number_field(out, u64::from(offsets.count));
            for number in 0..offsets.count.min(SHOWN) {
                offset_field(out, rt.image, offsets, number);
            }
            newline(out);
        }
        None => nothing(out),
    }
}

// Rows.

fn row_line(out: Stdout, slot: usize, row: Row) {
    write(out, b"row");
    number_field(out, slot as u64);
    number_field(out, row.address);
    number_field(out, u64::from(row.flags));
    three(out, row.parent, row.name.start as u64, row.name.size as u64);
}

fn row_lines(out: Stdout, rt: &SwiftRuntime, slot: usize, row: Row) {
    row_line(out, slot, row);
    match steps::row_body(rt.image, rt.segments, row.address, row.flags) {
        Ok(body) => {
            body_lines(out, rt, body);
            block_lines(out, rt, row, body);
            kind_lines(out, rt, row, body);
        }
        Err(refusal) => refused(out, refusal),
    }
    offsets_line(out, rt, row);
    at_row(out, rt, row.address);
}

fn rows_line(out: Stdout, rows: u64) {
    write(out, b"rows");
    one(out, rows);
}

// Writes the first 4,096 rows of a types section, and returns how many there are.
pub fn all_rows(out: Stdout, rt: &SwiftRuntime, types: SwiftSection) -> u64
    ensures { result ≡ rows_shown rt.now.image.now rt.now.segments.now types.entry.body.now types.entry.vmaddr }
{
    let mut walk = TypeIter::new();
    for rows in 0..4096 {
        match steps::next_row(rt.image, rt.segments, types.body, types.vmaddr, walk) {
            Ok(Some(TypeStep { slot, row, next })) => {
                row_lines(out, rt, slot, row);
                walk = next;
            }
            Ok(None) => {
                rows_line(out, rows);
                return rows;
            }
            Err(refusal) => {
                refused(out, refusal);
                return 0;
            }
        }
    }
    bad_line(out);
    4096
}
