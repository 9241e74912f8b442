// The printed listing of a bundle, line by line.
ghost use Rattle.std.specs.Prelude.{◌≡◌, length};
ghost use Rattle.refusal.specs.Refusal.{answered, mapped, outcome};
ghost use Rattle.util.specs.Buffer.{at_start, overwritten};
ghost use Rattle.bundle_parts.specs.Accepted.{accept_bundle};
ghost use Rattle.refusal.specs.Guarded.{guarded};
ghost use Rattle.type_lines.specs.Lines.{line_text};
ghost use Rattle.bundle_lines.specs.Printed.{numbers_for, start_of, pending_of, rows, print_step, print_answer};

use bundle::Layout;
use bundle_parts::SEGMENT_NUMBERS;
use refusal::Refusal;
use type_lines::{LINE_BYTES, LineIter, next_line, refused_line};

// No bundle has more lines.
pub const LINES: usize = 16385;

// What is left to print: the lines of a bundle's rows from the walk's position on, the line of a refused bundle, or nothing. Three cases, as
// `Pending` of the definitions has them: no Option says them.
#[derive(Clone, Copy)]
pub enum BundleLineIter {
    Rows { layout: Layout, walk: LineIter },
    Refused(Refusal),
    Done,
}

// A line of `length` bytes at the buffer's start, and what is then left.
#[derive(Clone, Copy)]
pub struct PrintedLine {
    pub length: usize,
    pub next: BundleLineIter,
}

// What a bundle prints, from its first line on.
pub fn start(bytes: &[u8]) -> BundleLineIter
    ensures { pending_of result ≡ start_of (accept_bundle bytes.now) }
{
    match bundle_parts::accept_bundle(bytes) {
        Ok(layout) => BundleLineIter::Rows {
            layout,
            walk: LineIter::new(),
        },
        Err(refusal) => BundleLineIter::Refused(refusal),
    }
}

// Both calls match what is left: a type and a trait for each case would be no plainer, since a caller keeps one value that is copied.
impl BundleLineIter {
    // The numbers of the segments, for `next_line`.
    pub fn segments(self, bytes: &[u8], out: &mut [u64; SEGMENT_NUMBERS]) -> usize
        ensures value { result ≡ length (numbers_for bytes.now (pending_of self)) }
        ensures out_after { out.new ≡ at_start (numbers_for bytes.now (pending_of self)) out.old }
    {
        match self {
            BundleLineIter::Rows { layout, walk: _ } => bundle_parts::segment_numbers(
                bytes, layout, out,
            ),
            BundleLineIter::Refused(_) | BundleLineIter::Done => 0,
        }
    }

    // The next line, at the start of `line`.
    pub fn next_line(
        self,
        bytes: &[u8],
        segments: &[u64],
        line: &mut [u8; LINE_BYTES],
    ) -> Result<Option<PrintedLine>, Refusal>
        ensures result_after { mapped (print_answer line.new) (outcome result) ≡ guarded segments.now (answered (print_step bytes.now segments.now (pending_of self))) }
        ensures line_after { line.new ≡ overwritten line.old (line_text (guarded segments.now (answered (print_step bytes.now segments.now (pending_of self))))) }
    {
        refusal::find_fault(segments)?;
        match self {
            BundleLineIter::Rows { layout, walk } => rows_line(bytes, segments, layout, walk, line),
            BundleLineIter::Refused(refusal) => Ok(Some(PrintedLine {
                length: refused_line(refusal, line),
                next: BundleLineIter::Done,
            })),
            BundleLineIter::Done => Ok(None),
        }
    }
}

// The next line of a bundle's rows.
fn rows_line(
    bytes: &[u8],
    segments: &[u64],
    layout: Layout,
    walk: LineIter,
    line: &mut [u8; LINE_BYTES],
) -> Result<Option<PrintedLine>, Refusal>
    ensures result_after { mapped (print_answer line.new) (outcome result) ≡ guarded segments.now (answered (print_step bytes.now segments.now (rows layout walk))) }
    ensures line_after { line.new ≡ overwritten line.old (line_text (guarded segments.now (answered (print_step bytes.now segments.now (rows layout walk))))) }
{
    let image = bundle_parts::image_part(bytes, layout);
    let types = bundle_parts::types_part(bytes, layout);
    let found = next_line(image, segments, types, layout.types.address, walk, line)?;
    match found {
        Some(printed) => Ok(Some(PrintedLine {
            length: printed.length,
            next: BundleLineIter::Rows {
                layout,
                walk: printed.next,
            },
        })),
        None => Ok(None),
    }
}
