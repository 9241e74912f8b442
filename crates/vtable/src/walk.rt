// A walk over methods as one value that carries the image, the segments and the next entry's number, as docs/DECISIONS.md asks for (79). The
// step on slices and numbers does the work; each function here makes such a value or takes it apart.
ghost use Rattle.std.specs.Prelude.{◌≡◌};
ghost use Rattle.vtable.specs.Entries.{method, entry_step, step_answer, method_walk_from};

use crate::entry::EntryKind;
use crate::iter::{EntryIter, EntryStep};
use runtime::SwiftRuntime;

#[derive(Clone, Copy)]
pub struct MethodWalk<'a, 'b> {
    pub cursor: EntryIter,
    pub image: &'a [u8],
    pub segments: &'b [u64],
}

pub fn method_walk<'a, 'b>(
    cursor: EntryIter,
    image: &'a [u8],
    segments: &'b [u64],
) -> MethodWalk<'a, 'b>
    ensures { result ≡ method_walk_from cursor image.entry segments.entry }
{
    MethodWalk {
        cursor,
        image,
        segments,
    }
}

// The next method. The walk from there on is one with the cursor that is returned.
pub fn walk_step<'a, 'b>(w: MethodWalk<'a, 'b>) -> EntryStep
    ensures { result ≡ step_answer (entry_step w.entry.image.now w.entry.segments.now method w.entry.cursor) }
{
    w.cursor
        .next(&SwiftRuntime::new(w.image, w.segments), EntryKind::Method)
}

// The same on slices and numbers, with the value in between: what the calls for C go through.
pub fn method_step(cursor: EntryIter, image: &[u8], segments: &[u64]) -> EntryStep
    ensures { result ≡ step_answer (entry_step image.now segments.now method cursor) }
{
    walk_step(method_walk(cursor, image, segments))
}
