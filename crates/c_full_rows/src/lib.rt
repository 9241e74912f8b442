// The rows of a types section with body and all trailing blocks for programs in C or Rust, by the rules of the crate `c_rows`, in an
// archive of its own: a reader that only one loop uses is compiled into that loop.
#![tactic(auto)]

ghost use Rattle.std.specs.Prelude.{◌≡◌, length};
ghost use Rattle.refusal.specs.Refusal.{answered, mapped, answer_of};
ghost use Rattle.util.specs.Buffer.{overwritten};
ghost use Rattle.refusal.specs.Guarded.{guarded};
ghost use Rattle.full_rows.specs.FullRows.{full_rows_in, given_of, numbers_of};
ghost use Rattle.c_rows.specs.Numbers.{Tells};
ghost use Rattle.c_full_rows.specs.FullRows.{given_numbers};

use full_rows::Given;

fn given_numbers(given: Given) -> [u64; 3]
    ensures { result ≡ given_numbers given }
{
    [
        given.records as u64,
        given.next as u64,
        u64::from(given.all),
    ]
}

// The records of the rows from a slot on, as many as the buffer holds. A record has 58 numbers:
//   0  the row's slot, address, flags, parent (0: none), and the name's place in the image and length;
//   6  the body as `hodrupec_body` writes it, eight numbers;
//  14  for each kind of block, in the order in which they follow a descriptor, 1 and the three numbers of `hodrupec_next_block`, or four zeros.
// `out` says how many records were written, the slot to go on from, and 1 if all rows are given, 0 if the buffer was full before the row of
// that slot.
#[unsafe(no_mangle)]
pub extern "C" fn hodrupec_full_rows(
    image: &[u8],
    segments: &[u64],
    types: &[u8],
    vmaddr: u64,
    start: usize,
    buffer: &mut [u64],
    out: &mut [u64; 3],
) -> u64
    ensures tells { Tells (mapped given_numbers (mapped given_of (guarded segments.now (answered (full_rows_in image.now segments.now types.now vmaddr start (length buffer.old)))))) out.old result out.new }
    ensures buffer_after { buffer.new ≡ overwritten buffer.old (answer_of (mapped numbers_of (guarded segments.now (answered (full_rows_in image.now segments.now types.now vmaddr start (length buffer.old)))))) }
{
    let given = full_rows::full_rows(image, segments, types, vmaddr, start, buffer);
    c_rows::tell(given.map(given_numbers), out)
}
