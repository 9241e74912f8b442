// The entries of a class's tables and of the prespecializations, one step after the other.
ghost use Rattle.std.specs.Prelude.{◌≡◌};
ghost use Rattle.refusal.specs.Refusal.{outcome, answered};
ghost use Rattle.refusal.specs.Guarded.{guarded};
ghost use Rattle.vtable.specs.Entries.{method, kind_layout, entry_step, step_answer};

use refusal::Refusal;
use runtime::SwiftRuntime;
use vtable::{EntryIter, EntryKind, EntryStep};

// The next entry of a table of a kind, from the walk's position.
pub fn next_entry(
    image: &[u8],
    segments: &[u64],
    cursor: EntryIter,
    kind: EntryKind,
) -> Result<EntryStep, Refusal>
    ensures { outcome result ≡ guarded segments.now (answered (step_answer (entry_step image.now segments.now (kind_layout kind) cursor))) }
{
    refusal::find_fault(segments)?;
    let rt = SwiftRuntime::new(image, segments);
    Ok(cursor.next(&rt, kind))
}

// The next method, by a walk that carries the image.
pub fn next_method(image: &[u8], segments: &[u64], cursor: EntryIter) -> Result<EntryStep, Refusal>
    ensures { outcome result ≡ guarded segments.now (answered (step_answer (entry_step image.now segments.now method cursor))) }
{
    refusal::find_fault(segments)?;
    Ok(vtable::method_step(cursor, image, segments))
}
