// The rows of a types section. As every call here that takes segments, it tests them before anything else (refusals 1 and 9), and requires
// nothing of its caller. A closure for what follows the test would be no plainer than the test and its `?`.
ghost use Rattle.std.specs.Prelude.{◌≡◌};
ghost use Rattle.refusal.specs.Refusal.{outcome, mapped, answered};
ghost use Rattle.refusal.specs.Guarded.{guarded};
ghost use Rattle.typedescriptor.specs.Slots.{next_row, type_step_of};

use refusal::Refusal;
use runtime::{SwiftRuntime, SwiftSection};
use typedescriptor::{TypeIter, TypeStep};

// The next row of the types section from the walk's position.
pub fn next_row(
    image: &[u8],
    segments: &[u64],
    types: &[u8],
    vmaddr: u64,
    walk: TypeIter,
) -> Result<Option<TypeStep>, Refusal>
    ensures { mapped (type_step_of image.now) (outcome result) ≡ guarded segments.now (answered (next_row image.now segments.now types.now vmaddr walk.slot)) }
{
    refusal::find_fault(segments)?;
    let rt = SwiftRuntime::new(image, segments);
    let types = SwiftSection {
        body: types,
        vmaddr,
    };
    Ok(walk.next(&rt, types))
}
