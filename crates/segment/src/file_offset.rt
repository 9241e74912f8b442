// From a file offset to an address, by the segments: the way back from `vm_to_file_offset_in`.
ghost use Rattle.std.specs.Prelude.{◌≡◌};
ghost use Rattle.segment.specs.Segments.{segments_of};
ghost use Rattle.segment.specs.VmAddress.{turned, vm_address};

use crate::segment::{Segment, from_numbers, look_up};

// The segment with offsets and addresses exchanged, and only what has both: its first file bytes lie at its first addresses.
fn turned(segment: Segment) -> Segment
    ensures { result ≡ turned segment }
{
    let mapped = segment.vmsize.min(segment.filesize);
    Segment {
        vmaddr: segment.fileoff,
        vmsize: mapped,
        fileoff: segment.vmaddr,
        filesize: mapped,
    }
}

// The address of a file offset. A last piece of fewer than four numbers is not a segment. One expression, as `vm_to_file_offset_in` is: a
// function of both would take a closure, and is no plainer.
pub fn file_offset_to_vm_in(segments: &[u64], offset: u64) -> Option<u64>
    ensures { result ≡ vm_address (segments_of segments.now) offset }
{
    segments
        .as_chunks()
        .0
        .iter()
        .find_map(|numbers| look_up(turned(from_numbers(numbers)), offset))
        .flatten()
}
