// Where an entry lies in the image, and how far from it entries lie there one after the other, found by one walk over the segments.
ghost use Rattle.std.specs.Prelude.{◌≡◌, ◌+◌, ◌-◌, ◌*◌, ◌^◌, ◌<◌, ◌≤◌, min};
ghost use Rattle.entry_tables.specs.Tables.{Opens};

use runtime::SwiftRuntime;
use vtable::Shape;

// The entry at an address is at `place`, and one that starts at most `last` bytes after that address is as far after `place`.
#[derive(Clone, Copy)]
pub struct Window {
    pub place: usize,
    pub last: u64,
}

// How far after an entry others lie: no further than the bytes that are mapped, those that the image has, and those below 2^64.
fn reach(mapped: u64, left: u64, below: u64) -> u64
    ensures { result ≡ min mapped (min left below) }
{
    mapped.min(left.min(below))
}

// The window of a single entry, by the segments alone, as that of all.
fn window_of_one(rt: &SwiftRuntime, address: u64, size: usize) -> Option<Window>
    requires { address + (size - 4) < 2 ^ 64 }
    ensures { Opens rt.now.image.now rt.now.segments.now size address result }
{
    let place = SwiftRuntime::new(rt.image, rt.segments).find_bytes(address, size)?;
    Some(Window { place, last: 0 })
}

// The window of everything that is in the file from the entry's address on.
fn window_of_all(rt: &SwiftRuntime, address: u64, size: usize) -> Option<Window>
    requires { (4 ≤ size) × (address + (size - 4) < 2 ^ 64) }
    ensures { Opens rt.now.image.now rt.now.segments.now size address result }
{
    let image = rt.image;
    let mapping = segment::locate(rt.segments, address)?;
    let before = address - mapping.vmaddr;
    let from = mapping.fileoff as usize;
    if image.len() < from || image.len() - from < before as usize {
        return None;
    }
    let place = from + before as usize;
    let left = image.len() - place;
    if left < size {
        return None;
    }
    let below = u64::MAX - (size - 4) as u64 - address;
    let last = reach(mapping.size - before - 1, (left - size) as u64, below);
    Some(Window { place, last })
}

// The window of entry `k`. `alone` chooses one of two calls: two functions would both repeat the lines before it. The window of a single entry takes less time than that of all.
pub fn window_at(
    rt: &SwiftRuntime,
    base_va: u64,
    stride: u32,
    k: u32,
    shape: Shape,
    alone: bool,
) -> Option<Window>
    ensures { Opens rt.now.image.now rt.now.segments.now (4 + 4 * shape.more) (base_va + stride * k) result }
{
    let size = shape.size() as usize;
    let address = base_va.checked_add(stride as u64 * k as u64)?;
    if u64::MAX - address < (size - 4) as u64 {
        return None;
    }
    if alone {
        window_of_one(rt, address, size)
    } else {
        window_of_all(rt, address, size)
    }
}
