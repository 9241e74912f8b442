// What is certain of an image by its first bytes.
ghost use Rattle.std.specs.Prelude.{◌≡◌};
ghost use Rattle.refusal.specs.Refusal.{answered, mapped, outcome};
ghost use Rattle.typedescriptor.specs.Slots.{slot_row};
ghost use Rattle.refusal.specs.Guarded.{guarded};
ghost use Rattle.certainty.specs.Certain.{certain};
ghost use Rattle.certainty.specs.JoinedName.{name_certain};
ghost use Rattle.c_rows.specs.Numbers.{Tells};
ghost use Rattle.c_fields.specs.Certain.{certain_number};

use refusal::Refusal;

// 1 for what no further byte changes.
fn certain_number(certain: bool) -> [u64; 1]
    ensures { result ≡ certain_number certain }
{
    [u64::from(certain)]
}

fn tell_certain(answer: Result<bool, Refusal>, out: &mut [u64; 1]) -> u64
    ensures { Tells (mapped certain_number (outcome answer)) out.old result out.new }
{
    c_rows::tell(answer.map(certain_number), out)
}

// For a slot of a types section whose first byte is at `vmaddr`: 1 if its row, or that it has none, is the same in every image that starts
// with these bytes; 0 if a byte that follows can change it.
#[unsafe(no_mangle)]
pub extern "C" fn hodrupec_row_certain(
    image: &[u8],
    segments: &[u64],
    types: &[u8],
    vmaddr: u64,
    slot: usize,
    out: &mut [u64; 1],
) -> u64
    ensures { Tells (mapped certain_number (guarded segments.now (answered (certain image.now segments.now (slot_row types.now vmaddr slot))))) out.old result out.new }
{
    tell_certain(
        certainty::row_certain(image, segments, types, vmaddr, slot),
        out,
    )
}

// The same for the row with its joined name.
#[unsafe(no_mangle)]
pub extern "C" fn hodrupec_name_certain(
    image: &[u8],
    segments: &[u64],
    types: &[u8],
    vmaddr: u64,
    slot: usize,
    out: &mut [u64; 1],
) -> u64
    ensures { Tells (mapped certain_number (guarded segments.now (answered (name_certain image.now segments.now types.now vmaddr slot)))) out.old result out.new }
{
    tell_certain(
        certainty::name_certain(image, segments, types, vmaddr, slot),
        out,
    )
}
