// The segments of a bundle, by their numbers.
ghost use Rattle.std.specs.Prelude.{◌≡◌, ◌+◌, ◌≤◌, length};
ghost use Rattle.util.specs.Buffer.{at_start};
ghost use Rattle.bundle_parts.specs.Parts.{segment_bytes, segment_in, u64_in, listed_numbers};

use crate::parts::segments_part;
use bundle::Layout;
use segment::Segment;

// The length of a list that holds the segment numbers of every bundle.
pub const SEGMENT_NUMBERS: usize = 8192;

// The number in the eight bytes from an offset on.
fn u64_in(body: &[u8], at: usize) -> u64
    requires { at + 8 ≤ length body.now }
    ensures { result ≡ u64_in body.now at }
{
    util::read_u64_le_at(body, at).unwrap()
}

// The segment with a number; none past the last.
pub fn segment(bytes: &[u8], layout: Layout, number: usize) -> Option<Segment>
    ensures { result ≡ segment_in (segment_bytes bytes.now layout) number }
{
    let body = segments_part(bytes, layout);
    if body.len() / 32 <= number {
        return None;
    }
    let at = 32 * number;
    Some(Segment {
        vmaddr: u64_in(body, at),
        vmsize: u64_in(body, at + 8),
        fileoff: u64_in(body, at + 16),
        filesize: u64_in(body, at + 24),
    })
}

// Writes the numbers of all segments, four to a segment, at the start of a list, and returns how many there are.
pub fn segment_numbers(bytes: &[u8], layout: Layout, out: &mut [u64; SEGMENT_NUMBERS]) -> usize
    ensures value { result ≡ length (listed_numbers bytes.now layout) }
    ensures out_after { out.new ≡ at_start (listed_numbers bytes.now layout) out.old }
{
    let body = segments_part(bytes, layout);
    let count = (body.len() / 32 * 4).min(SEGMENT_NUMBERS);
    for k in 0..count {
        out[k] = u64_in(body, 8 * k);
    }
    count
}
