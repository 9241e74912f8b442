// The contexts around a type, and the name that they join to.
ghost use Rattle.std.specs.Prelude.{◌≡◌, length};
ghost use Rattle.refusal.specs.Refusal.{outcome, mapped, answered, answer_of};
ghost use Rattle.refusal.specs.Guarded.{guarded};
ghost use Rattle.util.specs.Buffer.{overwritten};
ghost use Rattle.typedescriptor.specs.Row.{row_of};
ghost use Rattle.parent.specs.Chain.{chain_step, parent_step_of};
ghost use Rattle.qualified_name.specs.Name.{name_answer};

use parent::{ParentChain, ParentStep};
use refusal::Refusal;
use runtime::SwiftRuntime;
use typedescriptor::Row;

// The next context of a type from the walk's position.
pub fn next_context(
    image: &[u8],
    segments: &[u64],
    walk: ParentChain,
) -> Result<Option<ParentStep>, Refusal>
    ensures { mapped (parent_step_of image.now) (outcome result) ≡ guarded segments.now (answered (chain_step image.now segments.now walk.next_descriptor_va walk.given)) }
{
    refusal::find_fault(segments)?;
    let rt = SwiftRuntime::new(image, segments);
    Ok(walk.next(&rt))
}

// Writes the joined name of a row at the buffer's start.
pub fn joined_name(
    image: &[u8],
    segments: &[u64],
    row: Row,
    buffer: &mut [u8],
) -> Result<usize, Refusal>
    ensures result_value { outcome result ≡ mapped length (guarded segments.now (name_answer image.now segments.now (row_of image.now row) (length buffer.old))) }
    ensures buffer_after { buffer.new ≡ overwritten buffer.old (answer_of (guarded segments.now (name_answer image.now segments.now (row_of image.now row) (length buffer.old)))) }
{
    refusal::find_fault(segments)?;
    let rt = SwiftRuntime::new(image, segments);
    qualified_name::qualified_name(&rt, row, buffer)
}
