// Runs vectors of `util`, `runtime` and `bundle_parts`: reads one a line from standard input, and writes one answer line for each.
//
// A line is FUNCTION A B BYTES STRINGS SEGMENT.., with one space between: the function called, two numbers, the image's (or the
// slice's, or the bundle's) bytes, the string section's bytes and the segments' numbers, as many as there are. Numbers and bytes are in lowercase
// hexadecimal; `-` stands for no bytes. tests/vectors.py writes the lines and the answers.
#![tactic(auto)]

use bundle::{Layout, Section};
use runtime::{FieldName, SwiftRuntime, SwiftSection};
use std::io::Stdout;
use util::Place;

// The numbers from the sixth field to the line's end.
fn parse_numbers(line: &[u8], out: &mut [u64]) -> Option<usize> {
    for n in 0..64 {
        let text = test_lines::field(line, 5 + n);
        if text.is_empty() {
            return Some(n);
        }
        let value = test_lines::parse_number(text)?;
        *out.get_mut(n)? = value;
    }
    None
}

// A call each, and its whole answer on a line.

// These parts of lines are each test program's own: a public function of a crate promises something, and no clause speaks of what is printed.

// What could not be written is missing where the output is compared.
fn write(out: Stdout, text: &[u8]) {
    let _ = out.write_all(text);
}

// A line that is never expected: for an input line that cannot be read, or an answer that no call may give.
fn bad_line(out: Stdout) {
    write(out, b"bad line\n");
}

fn nothing(out: Stdout) {
    write(out, b"nothing\n");
}

fn number_line(out: Stdout, n: u64) {
    let _ = println!(out; "{n:x}");
}

// A number and a space.
fn number_field(out: Stdout, n: u64) {
    let _ = print!(out; "{n:x} ");
}

// The bytes of a part that two calls return; `differs` if the two are not the same.
fn bytes_line(out: Stdout, part: &[u8], again: &[u8]) {
    if part != again {
        write(out, b"differs\n");
        return;
    }
    if part.is_empty() {
        write(out, b"-");
    }
    for b in part {
        let _ = print!(out; "{b:02x}");
    }
    write(out, b"\n");
}

// If there is no part, both calls return an empty one.
fn no_part(out: Stdout, part: &[u8], again: &[u8]) {
    if part.is_empty() && again.is_empty() {
        nothing(out);
    } else {
        write(out, b"differs\n");
    }
}

fn number_answer(out: Stdout, answer: Option<u64>) {
    match answer {
        Some(n) => number_line(out, n),
        None => nothing(out),
    }
}

// A sign and the magnitude.
fn signed_answer(out: Stdout, answer: Option<i32>) {
    match answer {
        Some(n) => {
            if n < 0 {
                write(out, b"-");
            }
            number_line(out, u64::from(n.unsigned_abs()));
        }
        None => nothing(out),
    }
}

// The offset is the i32 at the start of `s`.
fn relative_pointer(out: Stdout, base: u64, s: &[u8]) {
    match util::read_i32_le_at(s, 0) {
        Some(n) => {
            let _ = println!(out; "{:016x}", util::relative_pointer(base, n));
        }
        None => nothing(out),
    }
}

fn place_fields(out: Stdout, place: Place) {
    number_field(out, place.start as u64);
    number_field(out, place.size as u64);
}

fn text_line(out: Stdout, text: Option<Place>, part: &[u8], again: &[u8]) {
    match text {
        Some(place) => {
            place_fields(out, place);
            bytes_line(out, part, again);
        }
        None => no_part(out, part, again),
    }
}

fn read_cstr_at(out: Stdout, s: &[u8], off: usize) {
    let text = util::read_cstr_at(s, off);
    text_line(out, text, util::text_part(s, text), util::cstr_at(s, off));
}

fn read_cstr(out: Stdout, runtime: SwiftRuntime, vmaddr: u64) {
    let text = runtime.read_cstr(vmaddr);
    let part = util::text_part(runtime.image, text);
    text_line(out, text, part, part);
}

fn read_bytes(out: Stdout, runtime: SwiftRuntime, vmaddr: u64, length: usize) {
    let part = runtime.read_bytes(vmaddr, length);
    match runtime.find_bytes(vmaddr, length) {
        Some(place) => {
            number_field(out, place as u64);
            bytes_line(out, part, util::part(runtime.image, place, length));
        }
        None => no_part(out, part, part),
    }
}

fn lookup_field_name<'a>(
    out: Stdout,
    runtime: SwiftRuntime<'a, '_>,
    strings: SwiftSection<'a>,
    vmaddr: u64,
) {
    let name = runtime.lookup_field_name(strings, vmaddr);
    let part = runtime::field_name_part(runtime.image, strings.body, name);
    match name {
        Some(FieldName::Image(place)) => {
            write(out, b"image ");
            place_fields(out, place);
            bytes_line(
                out,
                part,
                util::part(runtime.image, place.start, place.size),
            );
        }
        Some(FieldName::Strings(place)) => {
            write(out, b"strings ");
            place_fields(out, place);
            bytes_line(out, part, util::part(strings.body, place.start, place.size));
        }
        None => no_part(out, part, part),
    }
}

// A section's address, and its bytes.
fn section_line(out: Stdout, bytes: &[u8], section: Section, part: &[u8]) {
    number_field(out, section.address);
    bytes_line(
        out,
        part,
        util::part(bytes, section.part.start, section.part.size),
    );
}

// From a function's name to its call. Each returns whether the name is known.

fn number_call(out: Stdout, name: &[u8], a: u64, bytes: &[u8]) -> bool {
    let off = a as usize;
    match name {
        b"read_u16_le_at" => number_answer(out, util::read_u16_le_at(bytes, off).map(u64::from)),
        b"read_u32_le_at" => number_answer(out, util::read_u32_le_at(bytes, off).map(u64::from)),
        b"read_u64_le_at" => number_answer(out, util::read_u64_le_at(bytes, off)),
        b"read_i32_le_at" => signed_answer(out, util::read_i32_le_at(bytes, off)),
        b"relative_pointer" => relative_pointer(out, a, bytes),
        b"read_cstr_at" => read_cstr_at(out, bytes, off),
        _ => return false,
    }
    true
}

fn address_call(out: Stdout, name: &[u8], a: u64, b: u64, runtime: SwiftRuntime) -> bool {
    let segments = runtime.segments;
    match name {
        b"vm_to_file_offset_in" => number_answer(out, segment::vm_to_file_offset_in(segments, a)),
        b"vm_to_file_offset" => number_answer(out, runtime::vm_to_file_offset(segments, a)),
        b"read_bytes" => read_bytes(out, runtime, a, b as usize),
        b"read_cstr" => read_cstr(out, runtime, a),
        _ => return false,
    }
    true
}

fn part_call(out: Stdout, name: &[u8], bytes: &[u8], layout: Layout) -> bool {
    match name {
        b"image_part" => {
            let part = bundle_parts::image_part(bytes, layout);
            bytes_line(out, part, part);
        }
        b"types_part" => {
            let part = bundle_parts::types_part(bytes, layout);
            section_line(out, bytes, layout.types, part);
        }
        b"fields_part" => {
            let part = bundle_parts::fields_part(bytes, layout);
            section_line(out, bytes, layout.fields, part);
        }
        b"strings_part" => {
            let part = bundle_parts::strings_part(bytes, layout);
            section_line(out, bytes, layout.strings, part);
        }
        _ => return false,
    }
    true
}

fn bundle_call(out: Stdout, name: &[u8], bytes: &[u8]) -> bool {
    match bundle::open_bundle(bytes) {
        Ok(layout) => part_call(out, name, bytes, layout),
        Err(_) => false,
    }
}

fn answer<'a>(
    out: Stdout,
    name: &[u8],
    a: u64,
    b: u64,
    runtime: SwiftRuntime<'a, '_>,
    strings: &'a [u8],
) -> bool {
    if *name == *b"lookup_field_name".as_slice() {
        let section = SwiftSection {
            body: strings,
            vmaddr: b,
        };
        lookup_field_name(out, runtime, section, a);
        return true;
    }
    number_call(out, name, a, runtime.image)
        || address_call(out, name, a, b, runtime)
        || bundle_call(out, name, runtime.image)
}

// How many bytes or numbers a field has; if it cannot be read, 0, and a bad line.
fn count(out: Stdout, read: Option<usize>) -> usize {
    if read.is_none() {
        bad_line(out);
    }
    read.unwrap_or(0)
}

// The buffers here and in the functions that call it have a fixed size, and what is filled is counted beside: the project has no heap.
fn run_line(out: Stdout, line: &[u8], a: u64, b: u64) {
    let mut image = [0u8; 1024];
    let mut strings = [0u8; 1024];
    let mut segments = [0u64; 64];
    let bytes = count(
        out,
        test_lines::parse_bytes(test_lines::field(line, 3), &mut image),
    );
    let names = count(
        out,
        test_lines::parse_bytes(test_lines::field(line, 4), &mut strings),
    );
    let numbers = count(out, parse_numbers(line, &mut segments));
    let known = answer(
        out,
        test_lines::field(line, 0),
        a,
        b,
        SwiftRuntime::new(
            util::part(&image, 0, bytes),
            test_lines::first(&segments, numbers),
        ),
        util::part(&strings, 0, names),
    );
    if !known {
        bad_line(out);
    }
}

fn answer_line(out: Stdout, line: &[u8]) {
    let mut given = [0u64; 2];
    if !test_lines::parse_numbers(line, 1, 1, &mut given) {
        bad_line(out);
        return;
    }
    run_line(out, line, given[0], given[1]);
}

// Each test program has this walk of its own: one function for all would take the work on a line as a closure.
fn answer_lines(out: Stdout, input: &[u8]) {
    let mut at = 0;
    // No `split`: it gives an empty piece after the last newline too.
    while at < input.len() {
        answer_line(out, test_lines::line_at(input, at));
        at = test_lines::after_line(input, at);
    }
}

fn main(rt: HostRuntime) {
    let mut space = [0u8; 131072];
    let n = test_lines::read_full(&mut rt.stdin(), &mut space);
    answer_lines(rt.stdout(), &space[..n]);
}
