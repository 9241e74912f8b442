// The lines of the printed listing, one after the other into the caller's buffer.
ghost use Rattle.std.specs.Prelude.{◌≡◌, ◌+◌, ◌<◌, ◌≤◌, false, [], ◌∷◌, ◌++◌, length};
ghost use Rattle.refusal.specs.Refusal.{answered, mapped, outcome, refusal_number};
ghost use Rattle.util.specs.Buffer.{Put, overwritten};
ghost use Rattle.typedescriptor.specs.Row.{row_of};
ghost use Rattle.refusal.specs.Guarded.{guarded};
ghost use Rattle.type_lines.specs.Digits.{digit, hex, decimal};
ghost use Rattle.type_lines.specs.Lines.{name_bytes, line_bytes, space, kind_word, refused_text, refused_line, name_text, row_line, end_line, line_step, line_answer, line_text};

use crate::digits::{digit_of, hex_digits};
use refusal::Refusal;
use runtime::{SwiftRuntime, SwiftSection};
use typedescriptor::{Row, TypeIter};

// The bytes of a name's buffer, and of a line's: no line is longer.
pub const NAME_BYTES: usize = 4096;

pub const LINE_BYTES: usize = 4121;

// A walk over the lines: the next slot to read, how many rows were given, and whether the last line was given. `ended` is no variant of an
// enum, since the definition of a step, `line_step`, has the walk as these three.
#[derive(Clone, Copy)]
pub struct LineIter {
    pub slot: usize,
    pub given: usize,
    pub ended: bool,
}

// A line of `length` bytes at the buffer's start, and the walk from there on.
#[derive(Clone, Copy)]
pub struct Line {
    pub length: usize,
    pub next: LineIter,
}

// One digit of a number below 10.
fn put_digit(n: u64, buffer: &mut [u8], at: usize) -> usize
    requires { (n < 10) × (at < length buffer.old) }
    ensures { Put buffer.old at (digit n ∷ []) result buffer.new }
{
    let d = [digit_of(n)];
    util::put(&d, buffer, at)
}

// The decimal digits of a number, at most `left` of them.
// `write!` or the crate `itoa` would print them as std's `decimal`, which is not the definition that the listing is specified by: no plainer.
fn put_decimal(n: u64, left: usize, buffer: &mut [u8], at: usize) -> usize
    requires { at + length (decimal left n) ≤ length buffer.old }
    ensures { Put buffer.old at (decimal left n) result buffer.new }
{
    if left == 0 {
        return at;
    }
    if n < 10 {
        return put_digit(n, buffer, at);
    }
    let end = put_decimal(n / 10, left - 1, buffer, at);
    put_digit(n % 10, buffer, end)
}

// The kind's word, by the low five bits of the flags.
fn kind_word(flags: u32) -> &'static [u8]
    ensures { result.now ≡ kind_word flags }
{
    match flags % 32 {
        16 => b"class",
        17 => b"struct",
        18 => b"enum",
        _ => b"other",
    }
}

// The address and the kind, each with a space after it.
fn put_head(row: Row, line: &mut [u8; LINE_BYTES]) -> usize
    ensures { Put line.old 0 (hex 16 row.address ++ space ++ kind_word row.flags ++ space) result line.new }
{
    let digits = hex_digits(row.address);
    let a = util::put(&digits, line, 0);
    let b = util::put(b" ", line, a);
    let c = util::put(kind_word(row.flags), line, b);
    util::put(b" ", line, c)
}

// `refused ` and the refusal's number.
fn put_refused(refusal: Refusal, line: &mut [u8], at: usize) -> usize
    requires { at + 28 ≤ length line.old }
    ensures { Put line.old at (refused_text (refusal_number refusal)) result line.new }
{
    let number = util::put(b"refused ", line, at);
    put_decimal(refusal::number(refusal), 20, line, number)
}

// The line of a refused bundle, at the start of `line`.
pub fn refused_line(refusal: Refusal, line: &mut [u8; LINE_BYTES]) -> usize
    ensures { Put line.old 0 (refused_line (refusal_number refusal)) result line.new }
{
    let end = put_refused(refusal, line, 0);
    util::put(b"\n", line, end)
}

// The joined name, or its refusal. The name's buffer is the bytes from `at` on.
fn put_name(rt: &SwiftRuntime, row: Row, line: &mut [u8], at: usize) -> usize
    requires { at + name_bytes ≤ length line.old }
    ensures { Put line.old at (name_text rt.now.image.now rt.now.segments.now (row_of rt.now.image.now row)) result line.new }
{
    match qualified_name::qualified_name(rt, row, &mut line[at..at + NAME_BYTES]) {
        Ok(length) => at + length,
        Err(refusal) => put_refused(refusal, line, at),
    }
}

fn put_row(rt: &SwiftRuntime, row: Row, line: &mut [u8; LINE_BYTES]) -> usize
    ensures { Put line.old 0 (row_line rt.now.image.now rt.now.segments.now (row_of rt.now.image.now row)) result line.new }
{
    let a = put_head(row, line);
    let b = put_name(rt, row, line, a);
    util::put(b"\n", line, b)
}

fn put_end(given: usize, line: &mut [u8; LINE_BYTES]) -> usize
    ensures { Put line.old 0 (end_line given) result line.new }
{
    let a = util::put(b"end ", line, 0);
    let b = put_decimal(given as u64, 20, line, a);
    util::put(b"\n", line, b)
}

// Writes the next line at the buffer's start.
fn next_into(
    lister: LineIter,
    rt: &SwiftRuntime,
    types: SwiftSection,
    line: &mut [u8; LINE_BYTES],
) -> Option<Line>
    ensures result_after { answered (line_answer line.new result) ≡ answered (line_step rt.now.image.now rt.now.segments.now types.entry.body.now types.entry.vmaddr lister) }
    ensures line_after { line.new ≡ overwritten line.old (line_text (answered (line_step rt.now.image.now rt.now.segments.now types.entry.body.now types.entry.vmaddr lister))) }
{
    let given = lister.given;
    if lister.ended {
        return None;
    }
    let walk = TypeIter { slot: lister.slot };
    match walk.next(rt, types) {
        Some(step) => Some(Line {
            length: put_row(rt, step.row, line),
            next: LineIter {
                slot: step.next.slot,
                given: given.wrapping_add(1),
                ended: false,
            },
        }),
        None => Some(Line {
            length: put_end(given, line),
            next: LineIter {
                slot: 0,
                given,
                ended: true,
            },
        }),
    }
}

impl LineIter {
    // The walk from the first line on.
    pub fn new() -> LineIter
        ensures { result ≡ record { slot = 0; given = 0; ended = false } }
    {
        LineIter {
            slot: 0,
            given: 0,
            ended: false,
        }
    }
}

// The next line of the rows of a types section, at the start of `line`.
pub fn next_line(
    image: &[u8],
    segments: &[u64],
    types: &[u8],
    vmaddr: u64,
    walk: LineIter,
    line: &mut [u8; LINE_BYTES],
) -> Result<Option<Line>, Refusal>
    ensures result_after { mapped (line_answer line.new) (outcome result) ≡ guarded segments.now (answered (line_step image.now segments.now types.now vmaddr walk)) }
    ensures line_after { line.new ≡ overwritten line.old (line_text (guarded segments.now (answered (line_step image.now segments.now types.now vmaddr walk)))) }
{
    refusal::find_fault(segments)?;
    let rt = SwiftRuntime::new(image, segments);
    let types = SwiftSection {
        body: types,
        vmaddr,
    };
    Ok(next_into(walk, &rt, types, line))
}
