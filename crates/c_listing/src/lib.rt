// All rows of a types section, in as many calls as the buffer's size needs, for programs in C or Rust, by the rules of the crate `c_rows`,
// in an archive of its own: a reader that only one loop uses is compiled into that loop. What a call for C takes stands one by one; the
// buffer and the place in it are two parameters, as the theorems on `util::put` have them.
#![tactic(auto)]

ghost use Rattle.std.specs.Prelude.{◌+◌, ◌≤◌, ◌≡◌, length};
ghost use Rattle.refusal.specs.Refusal.{answered, mapped, answer_of, outcome};
ghost use Rattle.segment.specs.Mapping.{TrueMapping};
ghost use Rattle.util.specs.Buffer.{Put, put_end, put_into, at_start, overwritten};
ghost use Rattle.typedescriptor.specs.Row.{row_of};
ghost use Rattle.qualified_name.specs.Name.{name_answer};
ghost use Rattle.refusal.specs.Guarded.{guarded};
ghost use Rattle.c_rows.specs.Numbers.{Tells};
ghost use Rattle.c_listing.specs.Listing.{two_numbers, head_bytes, row_bytes, listing_from, listing_numbers, listing_bytes};

use c_rows::ANSWERED;
use refusal::Refusal;
use runtime::{SwiftRuntime, SwiftSection};
use segment::NO_MAPPING;
use typedescriptor::Row;

// How many bytes of a record come before the name.
const HEAD: usize = 32;

// What stands for the length of a name that no larger buffer would hold: 2^64 - 4.
const TOO_DEEP: u64 = 0xffff_ffff_ffff_fffc;

// What a listing says of its end.
const ALL_GIVEN: u64 = 1;

const BUFFER_FULL: u64 = 0;

// Two numbers, eight bytes each, the lowest first.
fn pair(a: u64, b: u64) -> [u8; 16]
    ensures { result ≡ two_numbers a b }
{
    let mut bytes = [0; 16];
    bytes[..8].copy_from_slice(&a.to_le_bytes());
    bytes[8..].copy_from_slice(&b.to_le_bytes());
    bytes
}

// Puts what comes before a name at a place, and returns where the name starts.
fn put_head(slot: usize, row: Row, name_length: u64, buffer: &mut [u8], at: usize) -> usize
    requires { at + 32 ≤ length buffer.old }
    ensures { Put buffer.old at (head_bytes slot row.address row.flags name_length) result buffer.new }
{
    let first = pair(slot as u64, row.address);
    let second = pair(row.flags as u64, name_length);
    let middle = util::put(&first, buffer, at);
    util::put(&second, buffer, middle)
}

// Writes the joined name of a row at the start of `name`. The mapping that the row was read with finds its parents too, unless they lie
// elsewhere.
fn joined(rt: &SwiftRuntime, row: Row, name: &mut [u8]) -> Result<usize, Refusal>
    requires { TrueMapping rt.now.segments.now rt.now.mapping }
    ensures result_value { outcome result ≡ mapped length (name_answer rt.now.image.now rt.now.segments.now (row_of rt.now.image.now row) (length name.old)) }
    ensures name_after { name.new ≡ overwritten name.old (answer_of (name_answer rt.now.image.now rt.now.segments.now (row_of rt.now.image.now row) (length name.old))) }
{
    let near = SwiftRuntime {
        mapping: qualified_name::around_parent(rt.segments, rt.mapping, row.parent),
        ..*rt
    };
    qualified_name::qualified_name_near(&near, row, name)
}

// Puts a row's record at a place, and returns where it ends, or its start if it does not fit.
fn put_record(rt: &SwiftRuntime, slot: usize, row: Row, buffer: &mut [u8], at: usize) -> usize
    requires { TrueMapping rt.now.segments.now rt.now.mapping }
    ensures value { result ≡ put_end buffer.old at (row_bytes rt.now.image.now rt.now.segments.now slot (row_of rt.now.image.now row)) }
    ensures buffer_after { buffer.new ≡ put_into buffer.old at (row_bytes rt.now.image.now rt.now.segments.now slot (row_of rt.now.image.now row)) }
{
    if buffer.len() < at {
        return at;
    }
    if buffer.len() - at < HEAD {
        return at;
    }
    match joined(rt, row, &mut buffer[at + HEAD..]) {
        Ok(length) => put_head(slot, row, length as u64, buffer, at) + length,
        Err(refusal) => match refusal {
            Refusal::DeepContexts => put_head(slot, row, TOO_DEEP, buffer, at),
            _ => at,
        },
    }
}

// Puts the records of the rows from a slot on at the buffer's start, as long as they fit, and returns the three numbers of the call below. The mapping
// around one descriptor finds the next, unless that lies elsewhere: so the runtime is made anew for each row.
fn put_rows(
    image: &[u8],
    segments: &[u64],
    types: SwiftSection,
    start: usize,
    buffer: &mut [u8],
) -> [u64; 3]
    ensures value { result ≡ listing_numbers (listing_from image.now segments.now types.entry.body.now types.entry.vmaddr start (length buffer.old)) }
    ensures buffer_after { buffer.new ≡ at_start (listing_bytes (listing_from image.now segments.now types.entry.body.now types.entry.vmaddr start (length buffer.old))) buffer.old }
{
    let count = types.body.len() / 4;
    let mut mapping = NO_MAPPING;
    let mut at = 0;
    for slot in start..count {
        let rt = SwiftRuntime {
            image,
            segments,
            mapping,
        };
        let step = typedescriptor::slot_row_moving(&rt, types, slot);
        mapping = step.mapping;
        if let Some(row) = step.found {
            let near = SwiftRuntime { mapping, ..rt };
            let end = put_record(&near, slot, row, buffer, at);
            if end == at {
                return [at as u64, slot as u64, BUFFER_FULL];
            }
            at = end;
        }
    }
    [at as u64, start.max(count) as u64, ALL_GIVEN]
}

// The records of the rows from a slot on, one after the other, as long as they fit: a row's slot, its address, its flags and the length
// of its joined name, eight bytes each, and the name. A name that is refused with 4 has the length 2^64 - 4 and no bytes. `out` says
// how many bytes were written, the slot to go on from, and 1 if all rows are given, 0 if the buffer was full before the row of that
// slot.
#[unsafe(no_mangle)]
pub extern "C" fn hodrupec_listing(
    image: &[u8],
    segments: &[u64],
    types: &[u8],
    vmaddr: u64,
    start: usize,
    buffer: &mut [u8],
    out: &mut [u64; 3],
) -> u64
    ensures tells { Tells (mapped listing_numbers (guarded segments.now (answered (listing_from image.now segments.now types.now vmaddr start (length buffer.old))))) out.old result out.new }
    ensures buffer_after { buffer.new ≡ overwritten buffer.old (answer_of (mapped listing_bytes (guarded segments.now (answered (listing_from image.now segments.now types.now vmaddr start (length buffer.old)))))) }
{
    let types = SwiftSection {
        body: types,
        vmaddr,
    };
    if let Err(refusal) = refusal::find_fault(segments) {
        return u64::from(refusal);
    }
    *out = put_rows(image, segments, types, start, buffer);
    ANSWERED
}
