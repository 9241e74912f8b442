// The static library of the calls of `c_blocks`, for programs in C or Rust. Another crate cites the definitions of `c_blocks`, and a library
// that a crate uses cannot be built as a static one, so each call has its export here: the same name, parameters and clauses.
#![tactic(auto)]

ghost use Rattle.refusal.specs.Refusal.{answered, mapped};
ghost use Rattle.classtrailers.specs.Blocks.{next_block};
ghost use Rattle.refusal.specs.Guarded.{guarded};
ghost use Rattle.c_rows.specs.Numbers.{Tells};
ghost use Rattle.c_blocks.specs.Blocks.{start_at, start_numbers, walk_at, block_step_numbers};

// Where the walk over a descriptor's blocks starts: 1, whether it is a class, the extra class flags (0 if there are none), and the
// address of the first block. A walk starts at row 0.
#[unsafe(no_mangle)]
pub extern "C" fn hodrupec_first_block(
    image: &[u8],
    segments: &[u64],
    address: u64,
    flags: u32,
    out: &mut [u64; 4],
) -> u64
    ensures { Tells (mapped start_numbers (guarded segments.now (answered (start_at image.now segments.now address flags)))) out.old result out.new }
{
    c_blocks::hodrupec_first_block(image, segments, address, flags, out)
}

// A step of the walk: 1, the block's kind and its three numbers, and the row and the address from which the walk goes on.
#[unsafe(no_mangle)]
pub extern "C" fn hodrupec_next_block(
    image: &[u8],
    segments: &[u64],
    flags: u32,
    class: u32,
    extra: u32,
    row: u32,
    address: u64,
    out: &mut [u64; 7],
) -> u64
    ensures { Tells (mapped block_step_numbers (guarded segments.now (answered (next_block image.now segments.now (walk_at flags class extra row address))))) out.old result out.new }
{
    c_blocks::hodrupec_next_block(image, segments, flags, class, extra, row, address, out)
}
