ghost use Rattle.std.specs.Prelude.{◌≡◌, length};
ghost use Rattle.refusal.specs.Refusal.{outcome, answered, mapped, answer_of};
ghost use Rattle.util.specs.Buffer.{overwritten};
ghost use Rattle.refusal.specs.Guarded.{guarded};
ghost use Rattle.full_rows.specs.FullRows.{full_rows_in, given_of, numbers_of};

use crate::rows::{Given, put_rows};
use refusal::Refusal;
use runtime::{SwiftRuntime, SwiftSection};

// Writes the records of the rows from a slot on at the list's start, as many as it holds. A record has 58 numbers: the row's slot, address,
// flags, parent, and the name's place and length; the body's eight; and four for each kind of block in the order in which they follow, 1
// and what is recorded.
pub fn full_rows(
    image: &[u8],
    segments: &[u64],
    types: &[u8],
    vmaddr: u64,
    start: usize,
    buffer: &mut [u64],
) -> Result<Given, Refusal>
    ensures result_value { outcome result ≡ mapped given_of (guarded segments.now (answered (full_rows_in image.now segments.now types.now vmaddr start (length buffer.old)))) }
    ensures buffer_after { buffer.new ≡ overwritten buffer.old (answer_of (mapped numbers_of (guarded segments.now (answered (full_rows_in image.now segments.now types.now vmaddr start (length buffer.old)))))) }
{
    refusal::find_fault(segments)?;
    let rt = SwiftRuntime::new(image, segments);
    let types = SwiftSection {
        body: types,
        vmaddr,
    };
    Ok(put_rows(&rt, types, start, buffer))
}
