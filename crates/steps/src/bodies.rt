// The body of a row, and texts at an address.
ghost use Rattle.std.specs.Prelude.{◌≡◌};
ghost use Rattle.refusal.specs.Refusal.{outcome, mapped, answered};
ghost use Rattle.refusal.specs.Guarded.{guarded};
ghost use Rattle.runtime.specs.Reads.{run, text_place};
ghost use Rattle.type_body.specs.Body.{body, body_of, superclass_name};

use refusal::Refusal;
use runtime::SwiftRuntime;
use type_body::TypeBody;
use util::Place;

// The body of the descriptor with these flags at an address.
pub fn row_body(
    image: &[u8],
    segments: &[u64],
    address: u64,
    flags: u32,
) -> Result<Option<TypeBody>, Refusal>
    ensures { mapped body_of (outcome result) ≡ guarded segments.now (answered (run image.now segments.now (body address flags))) }
{
    refusal::find_fault(segments)?;
    let rt = SwiftRuntime::new(image, segments);
    Ok(type_body::decode_body(&rt, address, flags))
}

// The name of a class's superclass; there is none for any other body. Only a class has an address for `text_at`.
pub fn superclass_name(
    image: &[u8],
    segments: &[u64],
    body: Option<TypeBody>,
) -> Result<Option<Place>, Refusal>
    ensures { outcome result ≡ guarded segments.now (answered (superclass_name image.now segments.now (body_of body))) }
{
    refusal::find_fault(segments)?;
    let rt = SwiftRuntime::new(image, segments);
    Ok(type_body::superclass_name(&rt, body))
}

// The text at an address; there is none at address 0.
pub fn text_at(image: &[u8], segments: &[u64], vmaddr: u64) -> Result<Option<Place>, Refusal>
    ensures { outcome result ≡ guarded segments.now (answered (text_place image.now segments.now vmaddr)) }
{
    refusal::find_fault(segments)?;
    let rt = SwiftRuntime::new(image, segments);
    Ok(rt.read_cstr(vmaddr))
}
