// Texts at an address, and bodies.
ghost use Rattle.refusal.specs.Refusal.{answered, mapped};
ghost use Rattle.runtime.specs.PlaceNumbers.{text_numbers};
ghost use Rattle.runtime.specs.Reads.{run, text_place};
ghost use Rattle.type_body.specs.Body.{body};
ghost use Rattle.refusal.specs.Guarded.{guarded};
ghost use Rattle.c_rows.specs.Numbers.{Tells};
ghost use Rattle.full_rows.specs.FullRows.{body_numbers};

use c_rows::ANSWERED;

// 1, place and length of the text at an address: the name of a superclass, or a type's mangled name. There is none at address 0.
#[unsafe(no_mangle)]
pub extern "C" fn hodrupec_text_at(
    image: &[u8],
    segments: &[u64],
    vmaddr: u64,
    out: &mut [u64; 3],
) -> u64
    ensures { Tells (mapped text_numbers (guarded segments.now (answered (text_place image.now segments.now vmaddr)))) out.old result out.new }
{
    c_rows::tell_text(steps::text_at(image, segments, vmaddr), out)
}

// The body of the descriptor with these flags at an address. For a class: 1, the address of the superclass's name (0: none), 1 if the
// superclass is resilient, the metadata's negative and positive words or the address of its bounds and the extra class flags, immediate
// members, fields, the offset vector's word. For a struct: 2, fields, the offset vector's word. For an enum: 3, payload cases, the payload
// size's word, empty cases.
#[unsafe(no_mangle)]
pub extern "C" fn hodrupec_body(
    image: &[u8],
    segments: &[u64],
    address: u64,
    flags: u32,
    out: &mut [u64; 8],
) -> u64
    ensures { Tells (mapped body_numbers (guarded segments.now (answered (run image.now segments.now (body address flags))))) out.old result out.new }
{
    match steps::row_body(image, segments, address, flags) {
        Ok(body) => {
            full_rows::write_body(body, out);
            ANSWERED
        }
        Err(refusal) => u64::from(refusal),
    }
}
