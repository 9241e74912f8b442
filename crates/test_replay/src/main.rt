// Replays the Rust's answers: reads one input a line from standard input, and writes the answers of the proved calls.
//
// A line is
//   input IMAGE TYPES_ADDRESS TYPES STRINGS_ADDRESS STRINGS COUNT SEGMENT_NUMBER.. COUNT ADDRESS..
// with one space between. All numbers and the bytes are lowercase hexadecimal; `-` stands for no bytes.
// Its answers are
//   row SLOT ADDRESS FLAGS PARENT NAME_PLACE NAME_LENGTH    for each row, in order, followed by
//   context ADDRESS FLAGS NAME_PLACE NAME_LENGTH            its first 8 contexts, the innermost first; `-` for a missing name
//   depth COUNT                                             how many contexts the walk gives, at most 100 (256)
//   name LENGTH BYTES                                       the joined name,
//   refused 3                                               and what a buffer one byte shorter gets, unless the name is empty
//   refused 4                                               or this in place of both, where a 257th context can be read
//   refused 9                                               or this in place of all rows and their end, where a segment wraps
//   end ROWS                                                and then for each address
//   offset ADDRESS OFFSET                                   its file offset,
//   field ADDRESS WHERE PLACE LENGTH                        the field name there: 1 in the image, 2 in the strings,
//   text OFFSET PLACE LENGTH                                the text at the image's offset ADDRESS % (length + 2)
// with `nothing` where there is none. `target/compare/compare sample OUT crates/test_replay` (after compare/build) makes both
// files, stdin and stdout, anew from the Rust; OUT gets them as one.
#![tactic(auto)]

use parent::{ParentChain, ParentContext, ParentStep};
use refusal::Refusal;
use runtime::{FieldName, SwiftRuntime, SwiftSection};
use std::io::Stdout;
use typedescriptor::{Row, TypeIter, TypeStep};
use util::Place;

// Parts of lines.

// These parts of lines are each test program's own: a public function of a crate promises something, and no clause speaks of what is printed.

// What could not be written is missing where the output is compared.
fn write(out: Stdout, text: &[u8]) {
    let _ = out.write_all(text);
}

// A line that is never expected: for an input line that cannot be read, or an answer that no call may give.
fn bad_line(out: Stdout) {
    write(out, b"bad line\n");
}

// A space and a number.
fn number_field(out: Stdout, n: u64) {
    let _ = print!(out; " {n:x}");
}

// The rest of a line that ends with a number.
fn last_field(out: Stdout, n: u64) {
    number_field(out, n);
    write(out, b"\n");
}

// The rest of a line for an answer that is nothing.
fn nothing(out: Stdout) {
    write(out, b" nothing\n");
}

// The rest of a line that ends with a place and a length.
fn place_end(out: Stdout, place: Place) {
    number_field(out, place.start as u64);
    last_field(out, place.size as u64);
}

fn refused(out: Stdout, refusal: Refusal) {
    write(out, b"refused");
    last_field(out, refusal::number(refusal));
}

fn name_line(out: Stdout, name: &[u8]) {
    write(out, b"name");
    number_field(out, name.len() as u64);
    write(out, b" ");
    if name.is_empty() {
        write(out, b"-");
    }
    for b in name {
        let _ = print!(out; "{b:02x}");
    }
    write(out, b"\n");
}

// The rows.

// The joined name, and once more into a buffer that is one byte too short for it.
fn name_lines(out: Stdout, rt: &SwiftRuntime, row: Row, buffer: &mut [u8]) {
    match steps::joined_name(rt.image, rt.segments, row, buffer) {
        Ok(0) => name_line(out, b""),
        Ok(length) => {
            name_line(out, util::part(buffer, 0, length));
            match buffer.get_mut(..length - 1) {
                Some(shorter) => match steps::joined_name(rt.image, rt.segments, row, shorter) {
                    Ok(_) => bad_line(out),
                    Err(refusal) => refused(out, refusal),
                },
                None => bad_line(out),
            }
        }
        Err(refusal) => refused(out, refusal),
    }
}

fn context_line(out: Stdout, context: ParentContext) {
    write(out, b"context");
    number_field(out, context.address);
    number_field(out, u64::from(context.flags));
    match context.name {
        Some(place) => place_end(out, place),
        None => write(out, b" -\n"),
    }
}

// One of the contexts: only the first 8 are written.
fn shown(out: Stdout, depth: u64, context: ParentContext) {
    if depth < 8 {
        context_line(out, context);
    }
}

fn depth_line(out: Stdout, depth: u64) {
    write(out, b"depth");
    last_field(out, depth);
}

// The contexts from a row's parent on. A walk gives at most 256, and then its end.
fn context_lines(out: Stdout, rt: &SwiftRuntime, parent: u64) {
    let mut walk = ParentChain::starting_at(parent);
    for depth in 0..257 {
        match steps::next_context(rt.image, rt.segments, walk) {
            Ok(Some(ParentStep { context, next })) => {
                shown(out, depth, context);
                walk = next;
            }
            Ok(None) => return depth_line(out, depth),
            Err(refusal) => return refused(out, refusal),
        }
    }
    bad_line(out);
}

fn row_line(out: Stdout, slot: usize, row: Row) {
    write(out, b"row");
    number_field(out, slot as u64);
    number_field(out, row.address);
    number_field(out, u64::from(row.flags));
    number_field(out, row.parent);
    place_end(out, row.name);
}

fn row_lines(out: Stdout, rt: &SwiftRuntime, slot: usize, row: Row) {
    // Memory is fixed: room for a name, of which the call tells the length.
    let mut buffer = [0u8; 1024];
    row_line(out, slot, row);
    context_lines(out, rt, row.parent);
    name_lines(out, rt, row, &mut buffer);
}

fn end_line(out: Stdout, rows: u64) {
    write(out, b"end");
    last_field(out, rows);
}

// The rows of a types section of fewer than 4,096 slots.
fn all_rows(out: Stdout, rt: &SwiftRuntime, types: SwiftSection) {
    let mut walk = TypeIter::new();
    for rows in 0..4096 {
        match steps::next_row(rt.image, rt.segments, types.body, types.vmaddr, walk) {
            Ok(Some(TypeStep { slot, row, next })) => {
                row_lines(out, rt, slot, row);
                walk = next;
            }
            Ok(None) => return end_line(out, rows),
            Err(refusal) => return refused(out, refusal),
        }
    }
    bad_line(out);
}

// The addresses.

fn offset_line(out: Stdout, segments: &[u64], address: u64) {
    write(out, b"offset");
    number_field(out, address);
    match runtime::vm_to_file_offset(segments, address) {
        Some(n) => last_field(out, n),
        None => nothing(out),
    }
}

fn field_line(out: Stdout, rt: &SwiftRuntime, strings: SwiftSection, address: u64) {
    write(out, b"field");
    number_field(out, address);
    match rt.lookup_field_name(strings, address) {
        Some(FieldName::Image(place)) => {
            number_field(out, 1);
            place_end(out, place);
        }
        Some(FieldName::Strings(place)) => {
            number_field(out, 2);
            place_end(out, place);
        }
        None => nothing(out),
    }
}

fn text_line(out: Stdout, image: &[u8], off: usize) {
    write(out, b"text");
    number_field(out, off as u64);
    match util::read_cstr_at(image, off) {
        Some(place) => place_end(out, place),
        None => nothing(out),
    }
}

// An offset of at most one more than the image's length, which is far below 2^64.
fn offset_by(image: &[u8], address: u64) -> usize {
    if image.len() < 0x1_0000_0000 {
        (address % (image.len() as u64 + 2)) as usize
    } else {
        0
    }
}

fn all_addresses(out: Stdout, rt: &SwiftRuntime, strings: SwiftSection, addresses: &[u64]) {
    for address in addresses {
        let address = *address;
        offset_line(out, rt.segments, address);
        field_line(out, rt, strings, address);
        text_line(out, rt.image, offset_by(rt.image, address));
    }
}

// From a line to its answers.

// How many bytes or numbers a field has; if it cannot be read, 0, and a bad line.
fn count(out: Stdout, read: Option<usize>) -> usize {
    if read.is_none() {
        bad_line(out);
    }
    read.unwrap_or(0)
}

// The line's three pieces of bytes and two lists, and all its answers.
// The buffers here and in the functions that call it have a fixed size, and what is filled is counted beside: the project has no heap.
fn run_line(out: Stdout, line: &[u8], types_va: u64, strings_va: u64) {
    let mut image = [0u8; 4096];
    let mut types = [0u8; 1024];
    let mut strings = [0u8; 1024];
    let mut segments = [0u64; 64];
    let mut addresses = [0u64; 64];
    let bytes = count(
        out,
        test_lines::parse_bytes(test_lines::field(line, 1), &mut image),
    );
    let slots = count(
        out,
        test_lines::parse_bytes(test_lines::field(line, 3), &mut types),
    );
    let names = count(
        out,
        test_lines::parse_bytes(test_lines::field(line, 5), &mut strings),
    );
    let numbers = count(out, test_lines::parse_list(line, 6, &mut segments));
    let next = numbers.wrapping_add(7);
    let given = count(out, test_lines::parse_list(line, next, &mut addresses));
    let rt = SwiftRuntime::new(
        util::part(&image, 0, bytes),
        test_lines::first(&segments, numbers),
    );
    let types = SwiftSection {
        body: util::part(&types, 0, slots),
        vmaddr: types_va,
    };
    let strings = SwiftSection {
        body: util::part(&strings, 0, names),
        vmaddr: strings_va,
    };
    all_rows(out, &rt, types);
    all_addresses(out, &rt, strings, test_lines::first(&addresses, given));
}

fn answer_line(out: Stdout, line: &[u8]) {
    if test_lines::field(line, 0) != b"input".as_slice() {
        bad_line(out);
        return;
    }
    let mut addresses = [0u64; 2];
    if !test_lines::parse_numbers(line, 2, 2, &mut addresses) {
        bad_line(out);
        return;
    }
    run_line(out, line, addresses[0], addresses[1]);
}

// Each test program has this walk of its own: one function for all would take the work on a line as a closure.
fn answer_lines(out: Stdout, input: &[u8]) {
    let mut at = 0;
    // No `split`: it gives an empty piece after the last newline too.
    while at < input.len() {
        answer_line(out, test_lines::line_at(input, at));
        at = test_lines::after_line(input, at);
    }
}

// Nothing past the first 131,072 bytes is read.
fn main(rt: HostRuntime) {
    let mut space = [0u8; 131072];
    let n = test_lines::read_full(&mut rt.stdin(), &mut space);
    answer_lines(rt.stdout(), &space[..n]);
}
