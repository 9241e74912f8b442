// Numbers in a header that the caller has read whole, so no call needs an answer for a short one: a number that would run past the end is 0. A
// line for each width: one function for all would need a trait of the readers, and would be longer.
ghost use Rattle.std.specs.Prelude.{◌≡◌};
ghost use Rattle.util.specs.LittleEndian.{unsigned_in, signed_in};
ghost use Rattle.util.specs.Pointer.{relative_address, relative_pointer};

use crate::pointer::{relative_address, relative_pointer};
use crate::read::{read_i32_le_at, read_u16_le_at, read_u32_le_at};

pub fn u16_at(header: &[u8], off: usize) -> u16
    ensures { result ≡ unsigned_in 2 header.now off }
{
    read_u16_le_at(header, off).unwrap_or(0)
}

pub fn u32_at(header: &[u8], off: usize) -> u32
    ensures { result ≡ unsigned_in 4 header.now off }
{
    read_u32_le_at(header, off).unwrap_or(0)
}

pub fn i32_at(header: &[u8], off: usize) -> i32
    ensures { result ≡ signed_in 4 header.now off }
{
    read_i32_le_at(header, off).unwrap_or(0)
}

// What the relative pointer at an offset of a header refers to. `slot_va` is the address of the pointer itself.
pub fn pointer_in(header: &[u8], off: usize, slot_va: u64) -> u64
    ensures { result ≡ relative_pointer slot_va (signed_in 4 header.now off) }
{
    relative_pointer(slot_va, i32_at(header, off))
}

// The same for a pointer that may be null.
pub fn address_in(header: &[u8], off: usize, slot_va: u64) -> u64
    ensures { result ≡ relative_address slot_va (signed_in 4 header.now off) }
{
    relative_address(slot_va, i32_at(header, off))
}
