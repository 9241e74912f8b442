// Numbers at an offset of a slice, the highest byte first.
ghost use Rattle.std.specs.Prelude.{◌≡◌};
ghost use Rattle.util.specs.BigEndian.{big_at};

use crate::read::bytes_at;

pub fn read_u32_be_at(data: &[u8], off: usize) -> Option<u32>
    ensures { result ≡ big_at 4 «data».now off }
{
    Some(u32::from_be_bytes(bytes_at(data, off)?))
}

pub fn read_u64_be_at(data: &[u8], off: usize) -> Option<u64>
    ensures { result ≡ big_at 8 «data».now off }
{
    Some(u64::from_be_bytes(bytes_at(data, off)?))
}
