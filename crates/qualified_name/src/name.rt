// The joined name of a type: the names of the contexts around it, the outermost first, with dots, and then its own.
ghost use Rattle.runtime.specs.Runtime.{tried};
ghost use Rattle.std.specs.Prelude.{◌≡◌, ◌+◌, ◌≤◌, length};
ghost use Rattle.refusal.specs.Refusal.{outcome, mapped, answer_of};
ghost use Rattle.qualified_name.specs.Walk.{gathered, Walked, hops_answer, filled, before};
ghost use Rattle.qualified_name.specs.Name.{name_answer};
ghost use Rattle.typedescriptor.specs.Row.{row_of};
ghost use Rattle.util.specs.Buffer.{Put, overwritten};
ghost use Rattle.segment.specs.Mapping.{TrueMapping};

use parent::{CONTEXTS, has_name, read_context_name, read_header};
use refusal::Refusal;
use runtime::SwiftRuntime;
use segment::{Mapping, NO_MAPPING};
use typedescriptor::Row;
use util::Place;

// What a walk over contexts ended with. `room` is what the names, their dots and `rest` more bytes take.
#[derive(Clone, Copy)]
pub enum Walk {
    // After `count` names there is no further context.
    Ended {
        count: usize,
        room: usize,
    },
    // 8 names: the walk goes on at `next`, with `allowed` more contexts.
    Full {
        next: u64,
        allowed: usize,
        room: usize,
    },
}

// The mapping to read a type's contexts with: the caller's, if it has the first of them, or the addresses around that one.
pub fn around_parent(segments: &[u64], mapping: Mapping, parent: u64) -> Mapping
    ensures { TrueMapping segments.now mapping → TrueMapping segments.now result }
{
    if parent == 0 {
        return mapping;
    }
    segment::locate_near(segments, mapping, parent).unwrap_or(mapping)
}

// Reads contexts from `descriptor_va` on, of which `left` are allowed, until 8 have a name, and keeps where the names lie and how long they are.
// `count` rises only at a context that has a name: no range gives it.
fn collect(
    rt: &SwiftRuntime,
    descriptor_va: u64,
    left: usize,
    rest: usize,
    names: &mut [Place; 8],
) -> Result<Walk, Refusal>
    ensures { Walked rt.now.image.now (tried rt.now) left descriptor_va rest names.new result }
{
    let mut count = 0;
    let mut next = descriptor_va;
    let mut allowed = left;
    let mut room = rest;
    while count < 8 {
        let Some(header) = read_header(rt, next) else {
            return Ok(Walk::Ended { count, room });
        };
        if allowed == 0 {
            return Err(Refusal::DeepContexts);
        }
        allowed -= 1;
        if has_name(header.flags) {
            if let Some(name) = read_context_name(rt, next) {
                names[count] = name;
                room = room.saturating_add(name.size + 1);
                count += 1;
            }
        }
        next = header.parent;
    }
    Ok(Walk::Full {
        next,
        allowed,
        room,
    })
}

// Writes the first `count` names, the last of them first, each with its dot.
fn put_hops(image: &[u8], names: &[Place], count: usize, buffer: &mut [u8], at: usize) -> usize
    requires count_in_bounds { count ≤ length names.now }
    requires count_in_bounds_2 { at + length (gathered image.now names.now count) ≤ length buffer.old }
    ensures { Put buffer.old at (gathered image.now names.now count) result buffer.new }
{
    let mut end = at;
    for k in (0..count).rev() {
        let name = names[k];
        let dot = util::put(util::part(image, name.start, name.size), buffer, end);
        end = util::put(b".", buffer, dot);
    }
    end
}

// Writes the hops of the contexts from `descriptor_va` on into the buffer's start, the outermost first, if they and `rest` more bytes fit in.
// On the way up the room is measured, on the way back the hops are written: every context is read once, and a call is made for every 8 names.
fn write_hops(
    rt: &SwiftRuntime,
    descriptor_va: u64,
    left: usize,
    rest: usize,
    buffer: &mut [u8],
) -> Result<usize, Refusal>
    ensures result_value { outcome result ≡ hops_answer rt.now.image.now (tried rt.now) left descriptor_va rest (length buffer.old) }
    ensures buffer_after { buffer.new ≡ filled (outcome result) (before rt.now.image.now (tried rt.now) left descriptor_va) buffer.old }
{
    if descriptor_va == 0 {
        if buffer.len() < rest {
            return Err(Refusal::LongName);
        }
        return Ok(0);
    }
    // Memory is fixed: eight names at a time, and how many of them there are.
    let mut names = [Place { start: 0, size: 0 }; 8];
    let walk = collect(rt, descriptor_va, left, rest, &mut names)?;
    match walk {
        Walk::Ended { count, room } => {
            if buffer.len() < room {
                return Err(Refusal::LongName);
            }
            Ok(put_hops(rt.image, &names, count, buffer, 0))
        }
        Walk::Full {
            next,
            allowed,
            room,
        } => {
            let at = write_hops(rt, next, allowed, room, buffer)?;
            Ok(put_hops(rt.image, &names, 8, buffer, at))
        }
    }
}

// The joined name with the contexts read as if the mapping stood before the segments.
pub fn qualified_name_near(rt: &SwiftRuntime, row: Row, buffer: &mut [u8]) -> Result<usize, Refusal>
    ensures result_value { outcome result ≡ mapped length (name_answer rt.now.image.now (tried rt.now) (row_of rt.now.image.now row) (length buffer.old)) }
    ensures buffer_after { buffer.new ≡ overwritten buffer.old (answer_of (name_answer rt.now.image.now (tried rt.now) (row_of rt.now.image.now row) (length buffer.old))) }
{
    let own = util::part(rt.image, row.name.start, row.name.size);
    let at = write_hops(rt, row.parent, CONTEXTS, own.len(), buffer)?;
    Ok(util::put(own, buffer, at))
}

// By the segments alone.
pub fn qualified_name(rt: &SwiftRuntime, row: Row, buffer: &mut [u8]) -> Result<usize, Refusal>
    ensures result_value { outcome result ≡ mapped length (name_answer rt.now.image.now rt.now.segments.now (row_of rt.now.image.now row) (length buffer.old)) }
    ensures buffer_after { buffer.new ≡ overwritten buffer.old (answer_of (name_answer rt.now.image.now rt.now.segments.now (row_of rt.now.image.now row) (length buffer.old))) }
{
    let near = SwiftRuntime {
        mapping: around_parent(rt.segments, NO_MAPPING, row.parent),
        ..*rt
    };
    qualified_name_near(&near, row, buffer)
}
