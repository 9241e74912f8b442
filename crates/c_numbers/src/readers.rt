// The readers of darwinscope's src/util.rs that no other call reaches. A call's status is a number, since programs in C read it.
ghost use Rattle.std.specs.Prelude.{◌≡◌};
ghost use Rattle.leb128.specs.Leb128.{uleb128, sleb128};
ghost use Rattle.util.specs.BigEndian.{big_at};
ghost use Rattle.util.specs.Cstr.{fixed_text};
ghost use Rattle.segment.specs.Segments.{segments_of};
ghost use Rattle.segment.specs.VmAddress.{vm_address};
ghost use Rattle.refusal.specs.Refusal.{answered, mapped, outcome};
ghost use Rattle.refusal.specs.Guarded.{guarded};
ghost use Rattle.c_rows.specs.Numbers.{Tells, value_numbers};
ghost use Rattle.c_numbers.specs.Readers.{uleb_numbers, sleb_numbers, length_numbers};

use c_rows::{ANSWERED, THERE};
use refusal::Refusal;

// 1, the number at the start of the bytes, and how many bytes it has.
#[tactic(auto, unfolding(crate::specs::Readers::uleb_numbers))]
pub fn hodrupec_uleb128(bytes: &[u8], out: &mut [u64; 3]) -> u64
    ensures { (result ≡ 0) × (out.new ≡ uleb_numbers (uleb128 bytes.now)) }
{
    *out = match leb128::read_uleb128(bytes) {
        Some(number) => [THERE, number.value, number.consumed as u64],
        None => [0; 3],
    };
    ANSWERED
}

// The same for a signed number, as its 64 bits.
#[tactic(auto, unfolding(crate::specs::Readers::sleb_numbers))]
pub fn hodrupec_sleb128(bytes: &[u8], out: &mut [u64; 3]) -> u64
    ensures { (result ≡ 0) × (out.new ≡ sleb_numbers (sleb128 bytes.now)) }
{
    *out = match leb128::read_sleb128(bytes) {
        Some(number) => [THERE, number.value.cast_unsigned(), number.consumed as u64],
        None => [0; 3],
    };
    ANSWERED
}

// 1 and the number at an offset, the highest byte first.
pub fn hodrupec_u32_be(data: &[u8], off: usize, out: &mut [u64; 2]) -> u64
    ensures { (result ≡ 0) × (out.new ≡ value_numbers (big_at 4 «data».now off)) }
{
    *out = c_rows::value_numbers(util::read_u32_be_at(data, off).map(u64::from));
    ANSWERED
}

pub fn hodrupec_u64_be(data: &[u8], off: usize, out: &mut [u64; 2]) -> u64
    ensures { (result ≡ 0) × (out.new ≡ value_numbers (big_at 8 «data».now off)) }
{
    *out = c_rows::value_numbers(util::read_u64_be_at(data, off));
    ANSWERED
}

// 1 and the length of the text at the start of a field of fixed size.
#[tactic(auto, unfolding(crate::specs::Readers::length_numbers))]
pub fn hodrupec_fixed_text(bytes: &[u8], out: &mut [u64; 2]) -> u64
    ensures { (result ≡ 0) × (out.new ≡ length_numbers (fixed_text bytes.now)) }
{
    *out = [THERE, util::cstr_from_fixed(bytes).len() as u64];
    ANSWERED
}

#[tactic(auto, unfolding(refusal::specs::Guarded::guarded))]
fn vm_address(segments: &[u64], offset: u64) -> Result<Option<u64>, Refusal>
    ensures { outcome result ≡ guarded segments.now (answered (vm_address (segments_of segments.now) offset)) }
{
    refusal::find_fault(segments)?;
    Ok(segment::file_offset_to_vm_in(segments, offset))
}

// 1 and the address of a file offset.
pub fn hodrupec_vm_address(segments: &[u64], offset: u64, out: &mut [u64; 2]) -> u64
    ensures { Tells (mapped value_numbers (guarded segments.now (answered (vm_address (segments_of segments.now) offset)))) out.old result out.new }
{
    c_rows::tell_value(vm_address(segments, offset), out)
}
