// Prints the listing of a bundle, from a file or from standard input: each step's line is written, and nothing else.
#![tactic(auto)]

ghost use Rattle.std.specs.Prelude.{◌≡◌, ◌<◌, ◌≤◌, length, Some, None};
ghost use Rattle.refusal.specs.Refusal.{answered};
ghost use Rattle.refusal.specs.Guarded.{fault};
ghost use Rattle.util.specs.Cstr.{place, part_of};
ghost use Rattle.bundle.specs.Open.{bundle_most};
ghost use Rattle.type_lines.specs.Lines.{line_text};
ghost use Rattle.bundle_lines.specs.Printed.{pending_of, print_step, printed, lines_most, taken};
ghost use Rattle.list.specs.Input.{Came, CameFrom};

mod reason;

use bundle::{BUNDLE_BYTES, Layout};
use bundle_lines::{BundleLineIter, LINES};
use bundle_parts::SEGMENT_NUMBERS;
use reason::say_reason;
use std::env::{Env, FillError};
use std::io::{IsTerminal, Read, Stderr, Stdout};
use std::{fs, io};
use type_lines::LINE_BYTES;

// One byte more than any bundle has, so that a longer input is noticed.
const INPUT_BYTES: usize = BUNDLE_BYTES + 1;

// The longest argument that is looked at. A path has fewer bytes.
const WORD_BYTES: usize = 4096;

// How many lines were given, and whether all of them could be written: if not, why the first that could not was not.
#[derive(Clone, Copy)]
pub struct Written {
    pub lines: usize,
    pub all: io::Result<()>,
}

// Writes the line that the step from `pending` gives: apart from --help and --version, the only place that writes to standard output.
fn write_line(
    out: Stdout,
    bytes: &[u8],
    segments: &[u64],
    pending: BundleLineIter,
    text: &[u8],
) -> io::Result<()>
    requires { line_text (answered (print_step bytes.now segments.now (pending_of pending))) ≡ Some text.now }
{
    out.write_all(text)
}

// The bytes of a line in its buffer.
fn line_part(line: &[u8; LINE_BYTES], length: usize) -> &[u8]
    ensures { result.now ≡ part_of line.now (place 0 length) }
{
    util::part(line, 0, length)
}

// Steps to the end. Lines are written as long as they can be.
fn print_lines(out: Stdout, bytes: &[u8], segments: &[u64], first: BundleLineIter) -> Written
    requires { None ≡ fault segments.now }
    ensures { result.lines ≡ length (taken lines_most bytes.now segments.now (pending_of first)).lines }
{
    // Memory is fixed: room for the longest line, of which each step tells the length.
    let mut line = [0u8; LINE_BYTES];
    let mut left = first;
    let mut all = Ok(());
    for lines in 0..LINES {
        match left.next_line(bytes, segments, &mut line) {
            Ok(Some(printed)) => {
                if all.is_ok() {
                    all = write_line(out, bytes, segments, left, line_part(&line, printed.length));
                }
                left = printed.next;
            }
            Ok(None) => return Written { lines, all },
            Err(_) => return Written { lines, all },
        }
    }
    Written { lines: LINES, all }
}

// Writes the listing of a bundle.
fn print_listing(out: Stdout, bytes: &[u8]) -> Written
    ensures { result.lines ≡ length (printed bytes.now) }
{
    // Memory is fixed: room for the numbers of every bundle, and how many of them this one has.
    let mut numbers = [0u64; SEGMENT_NUMBERS];
    let first = bundle_lines::start(bytes);
    let count = first.segments(bytes, &mut numbers);
    print_lines(out, bytes, &numbers[..count], first)
}

// Where standard error cannot be written, there is nobody to say it to.
fn say(err: Stderr, text: &[u8]) {
    let _ = err.write_all(text);
}

fn fail(err: Stderr, what: &[u8], error: io::Error) {
    say(err, b"list: ");
    say(err, what);
    say(err, b": ");
    say_reason(err, error);
    say(err, b"\n");
}

// Why a bundle is refused with 2, and at which byte.
fn say_broken(err: Stderr, bytes: &[u8]) {
    if let Some(broken) = bundle_rules::broken_rule(bytes) {
        let _ = println!(err; "list: refused 2: {}, at byte {}", broken.rule, broken.at);
    }
}

// Whether a file starts as a Mach-O file does: thin or fat, of either width and byte order. No bundle does, since its first record
// would have more bytes than any bundle.
fn is_macho(bytes: &[u8]) -> bool {
    matches!(
        util::read_u32_le_at(bytes, 0),
        Some(0xFEEDFACF | 0xFEEDFACE | 0xCFFAEDFE | 0xCEFAEDFE | 0xBEBAFECA | 0xBFBAFECA)
    )
}

fn say_macho(err: Stderr, bytes: &[u8]) {
    let refusal = if BUNDLE_BYTES < bytes.len() { 5 } else { 2 };
    let _ = println!(err;
        "list: refused {refusal}: this is a Mach-O file and not a bundle; `scripts/make_bundle.py --macho FILE` makes a bundle of it"
    );
}

// Which segment a bundle is refused with 9 for, and its addresses.
fn say_wrapping(err: Stderr, bytes: &[u8], layout: Layout) {
    // Memory is fixed: room for the numbers of every bundle, and how many of them this one has.
    let mut numbers = [0u64; SEGMENT_NUMBERS];
    let count = bundle_parts::segment_numbers(bytes, layout, &mut numbers);
    if let Some(number) = refusal::wrapping_segment(&numbers[..count]) {
        let _ = print!(err;
            "list: refused 9: segment {} of {}",
            number.wrapping_add(1),
            count / 4
        );
        if let Some(segment) = bundle_parts::segment(bytes, layout, number) {
            let _ = print!(err;
                " does not end below 2^64: vmaddr 0x{:016x}, vmsize 0x{:016x}",
                segment.vmaddr, segment.vmsize
            );
        }
        let _ = println!(err);
    }
}

// Why a bundle by the format's rules is refused, if it is.
fn say_segments(err: Stderr, bytes: &[u8]) {
    if let Ok(layout) = bundle::open_bundle(bytes) {
        say_wrapping(err, bytes, layout);
    }
}

fn say_refused(err: Stderr, bytes: &[u8]) {
    if is_macho(bytes) {
        say_macho(err, bytes);
    } else if BUNDLE_BYTES < bytes.len() {
        let _ = println!(err; "list: refused 5: a bundle has at most {BUNDLE_BYTES} bytes");
    } else {
        say_broken(err, bytes);
        say_segments(err, bytes);
    }
}

// Prints what came: `space` has room for more than a bundle.
fn print_input(out: Stdout, err: Stderr, space: &[u8], count: usize)
    requires { (bundle_most < length space.now) × (count ≤ length space.now) }
{
    let bytes = &space[..count];
    let written = print_listing(out, bytes);
    if let Err(error) = written.all {
        fail(err, b"standard output", error);
    }
    say_refused(err, bytes);
}

// Reads to the end, or until the space is full; the count of bytes that came. std's `read_to_end` needs a heap, and `read_exact` says
// nothing of an input that is shorter.
fn read_input<R: Read>(from: &mut R, space: &mut [u8]) -> io::Result<usize>
    ensures count { Came space.new result }
    ensures bytes { CameFrom (R.remaining from.old) (R.remaining from.new) space.new result }
{
    let mut n: usize = 0;
    while n < space.len() {
        match from.read(&mut space[n..])? {
            0 => return Ok(n),
            more => n += more,
        }
    }
    Ok(n)
}

fn print_from<R: Read>(out: Stdout, err: Stderr, from: &mut R, name: &[u8]) {
    // Memory is fixed: room for the longest bundle, and how many bytes came.
    let mut space = [0u8; INPUT_BYTES];
    match read_input(from, &mut space) {
        Ok(count) => print_input(out, err, &space, count),
        Err(error) => fail(err, name, error),
    }
}

// std opens a path only if it is a text.
fn print_file(rt: &HostRuntime, path: &[u8]) {
    let (out, err) = (rt.stdout(), rt.stderr());
    let Ok(name) = str::from_utf8(path) else {
        say(err, b"list: ");
        say(err, path);
        say(err, b": the name is not UTF-8\n");
        return;
    };
    match fs::open(rt, name) {
        Ok(mut file) => print_from(out, err, &mut file, path),
        Err(error) => fail(err, path, error),
    }
}

fn print_standard_input(rt: &HostRuntime) {
    let (out, err) = (rt.stdout(), rt.stderr());
    let mut input = rt.stdin();
    if input.is_terminal() {
        let _ = println!(err; "list: reading a bundle from the terminal; `list --help` says more");
    }
    print_from(out, err, &mut input, b"standard input");
}

fn print(rt: &HostRuntime, text: &[u8]) {
    if let Err(error) = rt.stdout().write_all(text) {
        fail(rt.stderr(), b"standard output", error);
    }
}

fn print_help(rt: &HostRuntime) {
    print(
        rt,
        b"usage: list [FILE]\n       list --help | --version\nPrints the types that a bundle lists: the file's, or standard input's where there is no FILE.\nA line has a type's address, its kind and its name; the last one is `end` and the number of types.\nA bundle comes from a Mach-O file, such as a framework's, by scripts/make_bundle.py:\n    scripts/make_bundle.py --macho Name.framework/Name | target/bin/list\n",
    );
}

// The version in CHANGELOG.md; nowhere else in the code.
fn print_version(rt: &HostRuntime) {
    print(rt, b"list 0.1.0\n");
}

fn say_option(err: Stderr, word: &[u8]) {
    say(err, b"list: no such option: ");
    say(err, word);
    say(err, b" (list --help says more)\n");
}

// A word that begins with `-` is an option and not a file. A parser of words, as `clap`, takes an allocator, and memory is fixed.
fn print_argument(rt: &HostRuntime, word: &[u8]) {
    match word {
        b"--help" => print_help(rt),
        b"--version" => print_version(rt),
        [b'-', ..] => say_option(rt.stderr(), word),
        _ => print_file(rt, word),
    }
}

// Whether there is an argument of this number, whatever it is.
fn is_given(rt: &HostRuntime, number: usize) -> bool {
    // std's `arg` writes to a buffer and tells the length.
    let mut word = [0u8; 1];
    !matches!(rt.arg(number, &mut word), Err(FillError::NotPresent))
}

fn main(rt: HostRuntime) {
    if is_given(&rt, 2) {
        let _ = println!(rt.stderr(); "list: one FILE at most (list --help says more)");
        return;
    }
    // std's `arg` writes to a buffer and tells the length.
    let mut word = [0u8; WORD_BYTES];
    match rt.arg(1, &mut word) {
        Ok(length) => print_argument(&rt, &word[..length]),
        Err(FillError::TooLong) => say(rt.stderr(), b"list: argument: File name too long\n"),
        Err(FillError::NotPresent) => print_standard_input(&rt),
    }
}
