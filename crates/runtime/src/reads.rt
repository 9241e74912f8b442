// Bytes and texts at an address.
ghost use Rattle.std.specs.Prelude.{◌≡◌};
ghost use Rattle.segment.specs.Segments.{file_offset, segments_of};
ghost use Rattle.runtime.specs.Reads.{bytes_place, text_place};
ghost use Rattle.runtime.specs.Bytes.{bytes_read};
ghost use Rattle.runtime.specs.Runtime.{tried};

use segment::{Mapping, NO_MAPPING};
use util::Place;

// What the readers read from: the image, the segments that say where its bytes lie, and a mapping that is tried before them.
#[derive(Clone, Copy)]
pub struct SwiftRuntime<'a, 's> {
    pub image: &'a [u8],
    pub segments: &'s [u64],
    pub mapping: Mapping,
}

impl<'a, 's> SwiftRuntime<'a, 's> {
    // Without a mapping: the readers answer by the segments alone.
    pub fn new(image: &'a [u8], segments: &'s [u64]) -> SwiftRuntime<'a, 's>
        ensures { result ≡ record { image = image.entry; segments = segments.entry; mapping = NO_MAPPING } }
    {
        SwiftRuntime {
            image,
            segments,
            mapping: NO_MAPPING,
        }
    }

    // Where `len` bytes at an address lie. Only the first address is translated: the rest follows in the image, and only the image's end
    // bounds it.
    pub fn find_bytes(&self, vmaddr: u64, len: usize) -> Option<usize>
        ensures { result ≡ bytes_place self.now.image.now (tried self.now) vmaddr len }
    {
        let image = self.image;
        let off = segment::vm_to_file_offset_near(self.segments, self.mapping, vmaddr)? as usize;
        if image.len() < off || image.len() - off < len {
            return None;
        }
        Some(off)
    }

    // The bytes themselves, as that part of the image: empty if there are none.
    pub fn read_bytes(&self, vmaddr: u64, len: usize) -> &'a [u8]
        ensures { result.now ≡ bytes_read self.now.image.now (tried self.now) vmaddr len }
    {
        match self.find_bytes(vmaddr, len) {
            Some(off) => util::part(self.image, off, len),
            None => &self.image[..0],
        }
    }

    // The text at an address. There is none at address 0. By itself it would read the runtime from memory, which its callers have just put together
    // (docs/BENCHMARKS.md, "A call for each table, and for each step").
    #[inline(always)]
    pub fn read_cstr(&self, vmaddr: u64) -> Option<Place>
        ensures { result ≡ text_place self.now.image.now (tried self.now) vmaddr }
    {
        if vmaddr == 0 {
            return None;
        }
        let start = segment::vm_to_file_offset_near(self.segments, self.mapping, vmaddr)? as usize;
        // The answer's place is `start`. It is returned as `start`, since copying it from the answer takes longer: docs/DECISIONS.md, "Speed".
        let size = util::read_cstr_at(self.image, start)?.size;
        Some(Place { start, size })
    }
}

// A section: its bytes, and the address of the first of them.
#[derive(Clone, Copy)]
pub struct SwiftSection<'a> {
    pub body: &'a [u8],
    pub vmaddr: u64,
}

pub fn vm_to_file_offset(segments: &[u64], vmaddr: u64) -> Option<u64>
    ensures { result ≡ file_offset (segments_of segments.now) vmaddr }
{
    segment::vm_to_file_offset_in(segments, vmaddr)
}
