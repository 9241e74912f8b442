// The refusals of the public calls over segments, and their order: 1 before anything else, then 9, then 4, then 3. Each call is made on the
// first 0 to 8 numbers of lists of two segments, without one that wraps, with one last and with one first, and with one first that ends at
// 2^64 - 1; and for the joined name of a type without a parent and of one that is its own parent, with buffers that hold it,
// just hold it, and do not. A line is
//   walks COUNT ROW CONTEXT LINE             what next_row, next_context and next_line answer: an address or a length, `end`, or a refusal
//   reads COUNT BODY SUPERCLASS TEXT BLOCK KIND METHOD OVERRIDE DEFAULT PRESPECIALIZATION INIT POINTER
//                                            what the calls of the full level answer: a number of it, `nothing`, `unreadable`, `end`, or a refusal
//   name COUNT PARENT SIZE ANSWER BUFFER     what joined_name answers, and the eight bytes of which SIZE were its buffer
// tests/bundles.py writes the answers.
#![tactic(auto)]

use classtrailers::{Block, BlockBody, BlockIter, BlockKind, Trailing};
use parent::ParentChain;
use refusal::Refusal;
use std::io::Stdout;
use type_body::{ClassBody, ClassSizes, StructBody, TypeBody};
use type_lines::{LINE_BYTES, LineIter};
use typedescriptor::{Row, TypeIter};
use util::Place;
use vtable::{EntryIter, EntryKind, EntryStep, TableEntry};

const NOTHING: &[u8] = b" nothing";

const END: &[u8] = b" end";

// What could not be written is missing where the output is compared.
fn write(out: Stdout, text: &[u8]) {
    let _ = out.write_all(text);
}

fn number(out: Stdout, n: u64) {
    let _ = print!(out; " {n}");
}

// A line's first word, and how many segment numbers there are.
fn head(out: Stdout, word: &[u8], segments: &[u64]) {
    write(out, word);
    number(out, segments.len() as u64);
}

fn refused(out: Stdout, refusal: Refusal) {
    write(out, b" refused");
    number(out, refusal::number(refusal));
}

// A number, a word in place of one, or a refusal.
fn answer(out: Stdout, answer: Result<Option<u64>, Refusal>, none: &[u8]) {
    match answer {
        Ok(Some(n)) => number(out, n),
        Ok(None) => write(out, none),
        Err(refusal) => refused(out, refusal),
    }
}

fn row_address(image: &[u8], segments: &[u64]) -> Result<Option<u64>, Refusal> {
    let types = b"\x00\xf0\xff\xff";
    let step = steps::next_row(image, segments, types, 0x2000, TypeIter::new())?;
    Ok(step.map(|step| step.row.address))
}

fn context_address(image: &[u8], segments: &[u64]) -> Result<Option<u64>, Refusal> {
    let step = steps::next_context(image, segments, ParentChain::starting_at(0x1000))?;
    Ok(step.map(|step| step.context.address))
}

fn line_length(image: &[u8], segments: &[u64]) -> Result<Option<u64>, Refusal> {
    let types = b"\x00\xf0\xff\xff";
    // Memory is fixed: room for the longest line, of which the call tells the length.
    let mut line = [0u8; LINE_BYTES];
    let given = type_lines::next_line(image, segments, types, 0x2000, LineIter::new(), &mut line)?;
    Ok(given.map(|line| line.length as u64))
}

fn try_walks(out: Stdout, image: &[u8], segments: &[u64]) {
    head(out, b"walks", segments);
    answer(out, row_address(image, segments), END);
    answer(out, context_address(image, segments), END);
    answer(out, line_length(image, segments), END);
    write(out, b"\n");
}

// The fields of the body.
fn body_fields(image: &[u8], segments: &[u64]) -> Result<Option<u64>, Refusal> {
    match steps::row_body(image, segments, 0x1000, 17)? {
        Some(TypeBody::Struct(fields)) => Ok(Some(u64::from(fields.num_fields))),
        _ => Ok(None),
    }
}

// The place of a text.
fn answer_text(out: Stdout, found: Result<Option<Place>, Refusal>) {
    answer(
        out,
        found.map(|text| text.map(|place| place.start as u64)),
        NOTHING,
    );
}

// The name at 0x101c, as that of a superclass and by itself.
fn try_texts(out: Stdout, image: &[u8], segments: &[u64]) {
    let class = TypeBody::Class(ClassBody {
        superclass_va: 0x101c,
        sizes: ClassSizes::Fixed {
            negative_words: 0,
            positive_words: 0,
        },
        num_immediate_members: 0,
        num_fields: 0,
        field_offset_vector_offset: 0,
    });
    answer_text(out, steps::superclass_name(image, segments, Some(class)));
    answer_text(out, steps::text_at(image, segments, 0x101c));
}

// The address of a generic block.
fn block_address(block: Block) -> Option<u64> {
    match block.body {
        BlockBody::At(va) => Some(va),
        _ => None,
    }
}

// The descriptor's bytes as the generic block of a walk.
fn try_block(out: Stdout, image: &[u8], segments: &[u64]) {
    let walk = BlockIter {
        trailing: Trailing {
            flags: 0x91,
            is_class: false,
            extra: 0,
        },
        row: 0,
        address: 0x1000,
    };
    match steps::next_block(image, segments, walk) {
        Ok(Some(step)) => answer(out, Ok(block_address(step.block)), NOTHING),
        Ok(None) => write(out, END),
        Err(refusal) => refused(out, refusal),
    }
}

// The same as the block of a struct 28 bytes before them.
fn generic_address(image: &[u8], segments: &[u64]) -> Result<Option<u64>, Refusal> {
    let body = TypeBody::Struct(StructBody {
        num_fields: 0,
        field_offset_vector_offset: 0,
    });
    let found = steps::block_of_kind(image, segments, 0xfe4, 0x91, Some(body), BlockKind::Generic)?;
    Ok(found.and_then(block_address))
}

// The last word of an entry of each kind of table. A match: a kind's entries have as many words as the format says.
fn last_word(kind: EntryKind, entry: TableEntry) -> u64 {
    match kind {
        EntryKind::Method => entry.second,
        EntryKind::Override => entry.third,
        EntryKind::DefaultOverride => entry.second,
        EntryKind::Prespecialization => entry.first,
    }
}

fn entry_word(out: Stdout, kind: EntryKind, step: Result<EntryStep, Refusal>) {
    match step {
        Ok(EntryStep::Entry { entry, next: _ }) => number(out, last_word(kind, entry)),
        Ok(EntryStep::Unreadable { next: _ }) => write(out, b" unreadable"),
        Ok(EntryStep::End) => write(out, END),
        Err(refusal) => refused(out, refusal),
    }
}

// The descriptor's bytes as the first entry of each kind of table.
fn try_tables(out: Stdout, image: &[u8], segments: &[u64]) {
    let cursor = EntryIter::new(0x1000, 1);
    entry_word(
        out,
        EntryKind::Method,
        steps::next_method(image, segments, cursor),
    );
    for kind in [
        EntryKind::Override,
        EntryKind::DefaultOverride,
        EntryKind::Prespecialization,
    ] {
        entry_word(out, kind, steps::next_entry(image, segments, cursor, kind));
    }
}

// The descriptor's bytes as the record of a singleton: the completion function.
fn completion_function(image: &[u8], segments: &[u64]) -> Result<Option<u64>, Refusal> {
    let init = steps::singleton_init(image, segments, 0x1000)?;
    Ok(init.map(|init| init.completion_function_va))
}

fn try_reads(out: Stdout, image: &[u8], segments: &[u64]) {
    head(out, b"reads", segments);
    answer(out, body_fields(image, segments), NOTHING);
    try_texts(out, image, segments);
    try_block(out, image, segments);
    answer(out, generic_address(image, segments), NOTHING);
    try_tables(out, image, segments);
    answer(out, completion_function(image, segments), NOTHING);
    answer(
        out,
        steps::singleton_pointer(image, segments, 0x1000),
        NOTHING,
    );
    write(out, b"\n");
}

fn try_buffer(
    out: Stdout,
    image: &[u8],
    segments: &[u64],
    parent: u64,
    size: usize,
    buffer: &mut [u8],
) {
    if buffer.len() < size {
        return;
    }
    let row = Row {
        address: 0x1000,
        flags: 17,
        parent,
        name: Place { start: 28, size: 4 },
    };
    match steps::joined_name(image, segments, row, &mut buffer[..size]) {
        Ok(length) => number(out, length as u64),
        Err(refusal) => refused(out, refusal),
    }
    write(out, b" ");
    write(out, buffer);
}

// The buffer has a fixed size, and how much of it is handed on is an argument beside: the project has no heap.
fn try_name(out: Stdout, image: &[u8], segments: &[u64], parent: u64, size: usize) {
    head(out, b"name", segments);
    number(out, parent);
    number(out, size as u64);
    let mut buffer = [45u8; 8];
    try_buffer(out, image, segments, parent, size, &mut buffer);
    write(out, b"\n");
}

fn try_all(out: Stdout, image: &[u8], segments: &[u64]) {
    try_walks(out, image, segments);
    try_reads(out, image, segments);
    for size in [8, 4, 3] {
        try_name(out, image, segments, 0, size);
    }
    for size in [8, 3, 0] {
        try_name(out, image, segments, 0x1000, size);
    }
}

fn try_list(out: Stdout, image: &[u8], numbers: &[u64]) {
    for count in 0..=numbers.len() {
        try_all(out, image, &numbers[..count]);
    }
}

fn main(rt: HostRuntime) {
    let out = rt.stdout();
    // A struct named Clue at 0x1000 that is its own parent.
    let image =
        b"\x11\x00\x00\x00\xfc\xff\xff\xff\x14\x00\x00\x00\x00\x00\x00\x00\x00\x00\x00\x00\x00\x00\x00\x00\x00\x00\x00\x00Clue\x00";
    try_list(out, image, &[0x1000, 33, 0, 33, 0x9000, 1, 0, 1]);
    try_list(
        out,
        image,
        &[0x1000, 33, 0, 33, 0xFFFFFFFFFFFFFFF0, 16, 0, 0],
    );
    try_list(
        out,
        image,
        &[0xFFFFFFFFFFFFFFFF, 1, 0, 1, 0x1000, 33, 0, 33],
    );
    try_list(
        out,
        image,
        &[0xFFFFFFFFFFFFFFEF, 16, 0, 16, 0x1000, 33, 0, 33],
    );
}
