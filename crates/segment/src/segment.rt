// From an address to a file offset, by the segments: the caller's list of numbers, four to a segment.
ghost use Rattle.std.specs.Prelude.{◌≡◌, true};
ghost use Rattle.segment.specs.Segments.{segment_from, file_offset, segments_of, decides};
ghost use Rattle.segment.specs.Mapping.{LocatedNear, Has, Covered, Clipped, Located, with_mapping, as_segment};

// Where a segment lies, in memory and in the file: the four numbers of a `segment_command_64` of mach-o/loader.h that say so.
#[derive(Clone, Copy)]
pub struct Segment {
    pub vmaddr: u64,
    pub vmsize: u64,
    pub fileoff: u64,
    pub filesize: u64,
}

// The segment that has these numbers.
pub fn from_numbers(numbers: &[u64; 4]) -> Segment
    ensures { result ≡ segment_from numbers.now }
{
    let [vmaddr, vmsize, fileoff, filesize] = *numbers;
    Segment {
        vmaddr,
        vmsize,
        fileoff,
        filesize,
    }
}

// What one segment says of an address: its file offset, if it has one, or `None` where the next segment decides.
pub fn look_up(segment: Segment, address: u64) -> Option<Option<u64>>
    ensures { result ≡ decides segment address }
{
    if segment.vmsize > u64::MAX - segment.vmaddr {
        return Some(None);
    }
    if address < segment.vmaddr {
        return None;
    }
    let delta = address - segment.vmaddr;
    if segment.vmsize <= delta {
        return None;
    }
    if segment.filesize == 0 {
        return None;
    }
    if segment.filesize <= delta {
        return Some(None);
    }
    Some(segment.fileoff.checked_add(delta))
}

// The file offset of an address. A last piece of fewer than four numbers is not a segment.
pub fn vm_to_file_offset_in(segments: &[u64], vmaddr: u64) -> Option<u64>
    ensures { result ≡ file_offset (segments_of segments.now) vmaddr }
{
    segments
        .as_chunks()
        .0
        .iter()
        .find_map(|numbers| look_up(from_numbers(numbers), vmaddr))
        .flatten()
}

// Addresses that lie one after the other in the file: `size` of them from `vmaddr` on, the first at `fileoff`.
#[derive(Clone, Copy)]
pub struct Mapping {
    pub vmaddr: u64,
    pub size: u64,
    pub fileoff: u64,
}

// The mapping without addresses: a call that takes it answers by the segments alone.
pub const NO_MAPPING: Mapping = Mapping {
    vmaddr: 0,
    size: 0,
    fileoff: 0,
};

// What a segment that covers an address has in the file around it, among the addresses from `low` up to but not including `high`: only the
// address itself, if the segment's end would lie past the last offset.
fn clip(low: u64, high: u64, segment: Segment, address: u64) -> Option<Mapping>
    requires { Covered low high segment address }
    ensures { Clipped low high segment address result }
{
    let delta = address - segment.vmaddr;
    if delta >= segment.filesize {
        return None;
    }
    if delta > u64::MAX - segment.fileoff {
        return None;
    }
    if segment.filesize > u64::MAX - segment.fileoff {
        return Some(Mapping {
            vmaddr: address,
            size: 1,
            fileoff: segment.fileoff + delta,
        });
    }
    let start = low.max(segment.vmaddr);
    let end = high.min(segment.vmaddr + segment.vmsize.min(segment.filesize));
    Some(Mapping {
        vmaddr: start,
        size: end - start,
        fileoff: segment.fileoff + (start - segment.vmaddr),
    })
}

// What is in the file around an address: those addresses of its segment about which no earlier segment decides, or `None` where not even
// the address itself is in the file. The tests are those of `look_up`; on each way past a segment one bound moves at most.
pub fn locate(segments: &[u64], address: u64) -> Option<Mapping>
    ensures { Located segments.now address result }
{
    let mut low = 0;
    let mut high = u64::MAX;
    for numbers in segments.as_chunks().0 {
        let segment = from_numbers(numbers);
        if u64::MAX - segment.vmaddr < segment.vmsize {
            return None;
        }
        let end = segment.vmaddr + segment.vmsize;
        if address < segment.vmaddr {
            high = high.min(segment.vmaddr);
        } else if end <= address {
            low = low.max(end);
        } else if segment.filesize != 0 {
            return clip(low, high, segment, address);
        }
    }
    None
}

// Whether an address is one of the mapping's.
fn has(mapping: Mapping, address: u64) -> bool
    ensures { result ≡ true → Has mapping address }
{
    mapping.vmaddr <= address && address - mapping.vmaddr < mapping.size
}

// What is in the file around an address: the caller's mapping, if it has the address, or what `locate` finds.
pub fn locate_near(segments: &[u64], mapping: Mapping, address: u64) -> Option<Mapping>
    ensures { LocatedNear segments.now mapping address result }
{
    if has(mapping, address) {
        return Some(mapping);
    }
    locate(segments, address)
}

// The mapping as a segment, which has a file byte at each of its addresses.
fn as_segment(mapping: Mapping) -> Segment
    ensures { result ≡ as_segment mapping }
{
    Segment {
        vmaddr: mapping.vmaddr,
        vmsize: mapping.size,
        fileoff: mapping.fileoff,
        filesize: mapping.size,
    }
}

// The file offset of an address, without a walk over the segments if the mapping has it: the mapping is tried before them, as one more
// segment.
pub fn vm_to_file_offset_near(segments: &[u64], mapping: Mapping, vmaddr: u64) -> Option<u64>
    ensures { result ≡ file_offset (segments_of (with_mapping mapping segments.now)) vmaddr }
{
    match look_up(as_segment(mapping), vmaddr) {
        Some(offset) => offset,
        None => vm_to_file_offset_in(segments, vmaddr),
    }
}
