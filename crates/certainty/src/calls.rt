// The public calls. Each tests its segments before anything else (refusals 1 and 9), and requires nothing of its caller.
ghost use Rattle.std.specs.Prelude.{◌≡◌};
ghost use Rattle.refusal.specs.Refusal.{answered, outcome};
ghost use Rattle.typedescriptor.specs.Slots.{slot_row};
ghost use Rattle.refusal.specs.Guarded.{guarded};
ghost use Rattle.certainty.specs.Certain.{certain};
ghost use Rattle.certainty.specs.JoinedName.{name_certain};

use crate::row::{joined_name_certain, slot_certain};
use refusal::Refusal;
use runtime::{SwiftRuntime, SwiftSection};

// Whether the row of a slot of the types section is certain, or that it has none: the answer for the bytes that arrived stays the same, whatever
// bytes follow. It does not if a read met the end of what arrived.
pub fn row_certain(
    image: &[u8],
    segments: &[u64],
    types: &[u8],
    vmaddr: u64,
    slot: usize,
) -> Result<bool, Refusal>
    ensures { outcome result ≡ guarded segments.now (answered (certain image.now segments.now (slot_row types.now vmaddr slot))) }
{
    refusal::find_fault(segments)?;
    let rt = SwiftRuntime::new(image, segments);
    let types = SwiftSection {
        body: types,
        vmaddr,
    };
    Ok(slot_certain(&rt, types, slot))
}

// The same for the row with its joined name.
pub fn name_certain(
    image: &[u8],
    segments: &[u64],
    types: &[u8],
    vmaddr: u64,
    slot: usize,
) -> Result<bool, Refusal>
    ensures { outcome result ≡ guarded segments.now (answered (name_certain image.now segments.now types.now vmaddr slot)) }
{
    refusal::find_fault(segments)?;
    let rt = SwiftRuntime::new(image, segments);
    let types = SwiftSection {
        body: types,
        vmaddr,
    };
    Ok(joined_name_certain(&rt, types, slot))
}
