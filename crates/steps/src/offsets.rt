// The byte offsets of a struct's fields. `field_offsets::field_offset` returns one of them by its number; it takes no segments.
ghost use Rattle.std.specs.Prelude.{◌≡◌};
ghost use Rattle.refusal.specs.Refusal.{outcome, answered};
ghost use Rattle.refusal.specs.Guarded.{guarded};
ghost use Rattle.type_body.specs.Body.{body_of};
ghost use Rattle.field_offsets.specs.Offsets.{offsets_place, static_place};

use field_offsets::FieldOffsets;
use refusal::Refusal;
use runtime::SwiftRuntime;
use type_body::TypeBody;

// Where the offsets of a body's fields lie, for metadata at an address.
pub fn field_offsets(
    image: &[u8],
    segments: &[u64],
    body: Option<TypeBody>,
    metadata_va: u64,
) -> Result<Option<FieldOffsets>, Refusal>
    ensures { outcome result ≡ guarded segments.now (answered (offsets_place image.now segments.now (body_of body) metadata_va)) }
{
    refusal::find_fault(segments)?;
    let rt = SwiftRuntime::new(image, segments);
    Ok(field_offsets::field_offsets(&rt, body, metadata_va))
}

// The same for the descriptor with these flags at an address, for the metadata that its singleton pointer refers to.
pub fn static_field_offsets(
    image: &[u8],
    segments: &[u64],
    address: u64,
    flags: u32,
) -> Result<Option<FieldOffsets>, Refusal>
    ensures { outcome result ≡ guarded segments.now (answered (static_place image.now segments.now address flags)) }
{
    refusal::find_fault(segments)?;
    let rt = SwiftRuntime::new(image, segments);
    Ok(field_offsets::static_field_offsets(&rt, address, flags))
}
