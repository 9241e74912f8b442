// Numbers at an offset of a slice, the lowest byte first.
ghost use Rattle.std.specs.Prelude.{◌≡◌};
ghost use Rattle.util.specs.LittleEndian.{bytes_at, little_at, signed_at};

// The `N` bytes from an offset on, unless they run past the end.
pub fn bytes_at<const N: usize>(data: &[u8], off: usize) -> Option<[u8; N]>
    ensures { result ≡ bytes_at N «data».now off }
{
    data.get(off..)?.get(..N)?.try_into().ok()
}

pub fn read_u16_le_at(data: &[u8], off: usize) -> Option<u16>
    ensures { result ≡ little_at 2 «data».now off }
{
    Some(u16::from_le_bytes(bytes_at(data, off)?))
}

pub fn read_u32_le_at(data: &[u8], off: usize) -> Option<u32>
    ensures { result ≡ little_at 4 «data».now off }
{
    Some(u32::from_le_bytes(bytes_at(data, off)?))
}

pub fn read_u64_le_at(data: &[u8], off: usize) -> Option<u64>
    ensures { result ≡ little_at 8 «data».now off }
{
    Some(u64::from_le_bytes(bytes_at(data, off)?))
}

pub fn read_i32_le_at(data: &[u8], off: usize) -> Option<i32>
    ensures { result ≡ signed_at 4 «data».now off }
{
    Some(read_u32_le_at(data, off)?.cast_signed())
}
