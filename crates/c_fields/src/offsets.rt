// The byte offsets of a struct's fields.
ghost use Rattle.std.specs.Prelude.{◌≡◌};
ghost use Rattle.refusal.specs.Refusal.{answered, mapped, outcome};
ghost use Rattle.runtime.specs.Reads.{run};
ghost use Rattle.type_body.specs.Body.{body};
ghost use Rattle.field_offsets.specs.Offsets.{offsets, offsets_place, static_place, offset_in};
ghost use Rattle.refusal.specs.Guarded.{guarded};
ghost use Rattle.c_rows.specs.Numbers.{Tells, value_numbers};
ghost use Rattle.c_fields.specs.Offsets.{offsets_numbers};

use c_rows::{ANSWERED, THERE};
use field_offsets::FieldOffsets;
use refusal::Refusal;
use runtime::SwiftRuntime;

fn offsets_numbers(offsets: Option<FieldOffsets>) -> [u64; 3]
    ensures { result ≡ offsets_numbers offsets }
{
    match offsets {
        Some(offsets) => [THERE, offsets.place as u64, u64::from(offsets.count)],
        None => [0; 3],
    }
}

// Tells where a struct's offsets lie.
fn tell_offsets(answer: Result<Option<FieldOffsets>, Refusal>, out: &mut [u64; 3]) -> u64
    ensures { Tells (mapped offsets_numbers (outcome answer)) out.old result out.new }
{
    c_rows::tell(answer.map(offsets_numbers), out)
}

// Where the field offsets lie of the struct whose descriptor is at an address and has these flags, for metadata at another address: 1,
// their place in the image, and how many there are.
#[unsafe(no_mangle)]
pub extern "C" fn hodrupec_field_offsets(
    image: &[u8],
    segments: &[u64],
    address: u64,
    flags: u32,
    metadata_va: u64,
    out: &mut [u64; 3],
) -> u64
    ensures { Tells (mapped offsets_numbers (guarded segments.now (answered (offsets_place image.now segments.now (run image.now segments.now (body address flags)) metadata_va)))) out.old result out.new }
{
    let body = type_body::decode_body(&SwiftRuntime::new(image, segments), address, flags);
    tell_offsets(
        steps::field_offsets(image, segments, body, metadata_va),
        out,
    )
}

// The same for the metadata that the descriptor's singleton pointer refers to.
#[unsafe(no_mangle)]
pub extern "C" fn hodrupec_static_field_offsets(
    image: &[u8],
    segments: &[u64],
    address: u64,
    flags: u32,
    out: &mut [u64; 3],
) -> u64
    ensures { Tells (mapped offsets_numbers (guarded segments.now (answered (static_place image.now segments.now address flags)))) out.old result out.new }
{
    tell_offsets(
        steps::static_field_offsets(image, segments, address, flags),
        out,
    )
}

// 1 and the offset of the field with this number, out of `count` offsets that start at a place of the image. It takes no segments, and
// refuses nothing.
#[unsafe(no_mangle)]
pub extern "C" fn hodrupec_field_offset(
    image: &[u8],
    place: usize,
    count: u32,
    number: u32,
    out: &mut [u64; 2],
) -> u64
    ensures { Tells (answered (value_numbers (offset_in image.now (offsets place count) number))) out.old result out.new }
{
    let offsets = Some(FieldOffsets { place, count });
    let offset = field_offsets::field_offset(image, offsets, number);
    *out = c_rows::value_numbers(offset.map(u64::from));
    ANSWERED
}
