// Replays the Rust's answers on bodies, blocks, entries, singleton records, field offsets and fields: reads one input a line from
// standard input, and writes the answers of the proved calls.
//
// A line is
//   input IMAGE TYPES_ADDRESS TYPES FIELDS_ADDRESS FIELDS STRINGS_ADDRESS STRINGS COUNT SEGMENT_NUMBER..
// with one space between. All numbers and the bytes are lowercase hexadecimal; `-` stands for no bytes. Its answers are
//   row SLOT ADDRESS FLAGS PARENT NAME_PLACE NAME_LENGTH   for each row, in order, followed by its body, which is one of
//   fixed NEGATIVE POSITIVE MEMBERS FIELDS VECTOR          a class, with the sizes of its metadata,
//   resilient BOUNDS EXTRA MEMBERS FIELDS VECTOR           or with a resilient superclass;
//   superclass PLACE LENGTH                                then its superclass's name, or `superclass nothing`
//   struct FIELDS VECTOR
//   enum PAYLOAD_CASES SIZE_OFFSET EMPTY_CASES
//   bodiless
//   block KIND NUMBER..                                    each block, by stepping, followed by
//   init CACHE INCOMPLETE COMPLETION                       the singleton initialization there, or `init nothing`,
//   pointer METADATA                                       the singleton pointer there, or `pointer nothing`,
//   method ADDRESS FLAGS IMPL                              or the first 12 entries of the table there, `unreadable` for one that
//   override ADDRESS CLASS METHOD IMPL                     cannot be read, and then `done`, or `more` where there are more
//   default ADDRESS METHOD IMPL
//   metadata ADDRESS METADATA
//   kind KIND NUMBER..                                     the block of each kind, in one call, where there is one
//   offsets COUNT NUMBER..                                 a struct's field offsets, the first 12, or `offsets nothing`,
//                                                          and, for a row at one of the last 32 addresses, 5 entries of each
//                                                          kind there
//   refused 9                                              in place of all rows and their number, where a segment wraps
//   rows ROWS                                              and then for each field descriptor
//   descriptor ADDRESS KIND RECORD_SIZE COUNT
//   type PLACE LENGTH                                      its type's name, and its superclass's, or `nothing`
//   superclass PLACE LENGTH
//   record FLAGS                                           its first 12 records, `unreadable` for one that cannot be read,
//   type PLACE LENGTH                                      with the name of the type, and of the field:
//   name WHERE PLACE LENGTH                                1 in the image, 2 in the strings; then `done` or `more`
//   end                                                    where the walk ends; it goes on from there up to a second end
// A kind of block is its number in their order. `target/compare/compare sample-full OUT crates/test_replay_full` (after compare/build)
// makes both files, stdin and stdout, anew from the Rust; OUT gets them as one, with what each input is for.
#![tactic(auto)]

mod entries;
mod fields;
mod rows;

use crate::fields::all_fields;
use crate::rows::all_rows;
use refusal::Refusal;
use runtime::{SwiftRuntime, SwiftSection};
use std::io::Stdout;
use util::Place;

// Parts of lines, here for all modules.

// How many entries of a table, records of a descriptor and offsets of a struct are written.
const SHOWN: u32 = 12;

// These parts of lines are each test program's own: a public function of a crate promises something, and no clause speaks of what is printed.

// What could not be written is missing where the output is compared.
fn write(out: Stdout, text: &[u8]) {
    let _ = out.write_all(text);
}

// A line that is never expected: for an input line that cannot be read, or an answer that no call may give.
fn bad_line(out: Stdout) {
    write(out, b"bad line\n");
}

// A space and a number.
fn number_field(out: Stdout, n: u64) {
    let _ = print!(out; " {n:x}");
}

fn newline(out: Stdout) {
    write(out, b"\n");
}

// The rest of a line for an answer that is nothing.
fn nothing(out: Stdout) {
    write(out, b" nothing\n");
}

// The rest of a line of one, two or three numbers.
fn one(out: Stdout, a: u64) {
    number_field(out, a);
    newline(out);
}

fn two(out: Stdout, a: u64, b: u64) {
    number_field(out, a);
    one(out, b);
}

fn three(out: Stdout, a: u64, b: u64, c: u64) {
    number_field(out, a);
    two(out, b, c);
}

fn refused(out: Stdout, refusal: Refusal) {
    write(out, b"refused");
    one(out, refusal::number(refusal));
}

// A text of the image.
fn text_line(out: Stdout, name: &[u8], text: Option<Place>) {
    write(out, name);
    match text {
        Some(place) => two(out, place.start as u64, place.size as u64),
        None => nothing(out),
    }
}

fn done(out: Stdout) {
    write(out, b"done\n");
}

// The line after the entries that are shown of a table of `count`.
fn after_shown(out: Stdout, count: u32) {
    if count > SHOWN {
        write(out, b"more\n");
    } else {
        done(out);
    }
}

// Lines of the input.

// How many bytes or numbers a field has; if it cannot be read, 0, and a bad line.
fn count(out: Stdout, read: Option<usize>) -> usize {
    if read.is_none() {
        bad_line(out);
    }
    read.unwrap_or(0)
}

// The line's image, segments and sections, and all its answers.
// The buffers here and in the functions that call it have a fixed size, and what is filled is counted beside: the project has no heap.
fn run_line(out: Stdout, line: &[u8], types_va: u64, fields_va: u64, strings_va: u64) {
    let mut image = [0u8; 1024];
    let mut types = [0u8; 256];
    let mut fields = [0u8; 512];
    let mut strings = [0u8; 256];
    let mut segments = [0u64; 64];
    let bytes = count(
        out,
        test_lines::parse_bytes(test_lines::field(line, 1), &mut image),
    );
    let slots = count(
        out,
        test_lines::parse_bytes(test_lines::field(line, 3), &mut types),
    );
    let headers = count(
        out,
        test_lines::parse_bytes(test_lines::field(line, 5), &mut fields),
    );
    let names = count(
        out,
        test_lines::parse_bytes(test_lines::field(line, 7), &mut strings),
    );
    let numbers = count(out, test_lines::parse_list(line, 8, &mut segments));
    let rt = SwiftRuntime::new(
        util::part(&image, 0, bytes),
        test_lines::first(&segments, numbers),
    );
    let types = SwiftSection {
        body: util::part(&types, 0, slots),
        vmaddr: types_va,
    };
    let fields = SwiftSection {
        body: util::part(&fields, 0, headers),
        vmaddr: fields_va,
    };
    let strings = SwiftSection {
        body: util::part(&strings, 0, names),
        vmaddr: strings_va,
    };
    all_rows(out, &rt, types);
    all_fields(out, &rt, fields, strings);
}

fn answer_line(out: Stdout, line: &[u8]) {
    if test_lines::field(line, 0) != b"input".as_slice() {
        bad_line(out);
        return;
    }
    let mut addresses = [0u64; 3];
    if !test_lines::parse_numbers(line, 2, 2, &mut addresses) {
        bad_line(out);
        return;
    }
    run_line(out, line, addresses[0], addresses[1], addresses[2]);
}

// Each test program has this walk of its own: one function for all would take the work on a line as a closure.
fn answer_lines(out: Stdout, input: &[u8]) {
    let mut at = 0;
    // No `split`: it gives an empty piece after the last newline too.
    while at < input.len() {
        answer_line(out, test_lines::line_at(input, at));
        at = test_lines::after_line(input, at);
    }
}

// Nothing past the first 131,072 bytes is read.
fn main(rt: HostRuntime) {
    let mut space = [0u8; 131072];
    let n = test_lines::read_full(&mut rt.stdin(), &mut space);
    answer_lines(rt.stdout(), &space[..n]);
}
