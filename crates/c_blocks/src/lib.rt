// The walk over the blocks that trail a descriptor, for programs in C or Rust, by the rules of the crate `c_rows`, in an archive of its
// own (`c_blocks_c`): a reader that only one call uses is compiled into that call. A kind is its number in the order in which blocks follow
// each other, and a block's three numbers are those of a full row. A call's status is a number, and what it takes stands one by one, since
// programs in C pass and read both.
#![tactic(auto)]

ghost use Rattle.std.specs.Prelude.{◌≡◌};
ghost use Rattle.refusal.specs.Refusal.{answered, mapped, outcome};
ghost use Rattle.classtrailers.specs.Blocks.{next_block};
ghost use Rattle.refusal.specs.Guarded.{guarded};
ghost use Rattle.c_rows.specs.Numbers.{Tells};
ghost use Rattle.c_blocks.specs.Blocks.{start_at, start_numbers, walk_at, block_numbers, block_step_numbers};

use c_rows::THERE;
use classtrailers::{Block, BlockIter, BlockStep, Trailing};
use refusal::Refusal;
use type_body::Start;

fn start_numbers(start: Option<Start>) -> [u64; 4]
    ensures { result ≡ start_numbers start }
{
    match start {
        Some(start) => {
            let trailing = start.trailing;
            [
                THERE,
                u64::from(trailing.is_class),
                u64::from(trailing.extra),
                start.start,
            ]
        }
        None => [0; 4],
    }
}

// A block's kind, and its three numbers.
pub fn block_numbers(block: Block) -> [u64; 4]
    ensures { result ≡ block_numbers block }
{
    let kind = classtrailers::number_of(block.kind);
    let recorded = full_rows::numbers_of(block);
    [
        u64::from(kind),
        recorded.first,
        recorded.second,
        recorded.third,
    ]
}

fn block_step_numbers(step: Option<BlockStep>) -> [u64; 7]
    ensures { result ≡ block_step_numbers step }
{
    match step {
        Some(step) => {
            let block = block_numbers(step.block);
            let next = step.next;
            [
                THERE,
                block[0],
                block[1],
                block[2],
                block[3],
                u64::from(next.row),
                next.address,
            ]
        }
        None => [0; 7],
    }
}

#[tactic(auto, unfolding(refusal::specs::Guarded::guarded))]
fn start_at(
    image: &[u8],
    segments: &[u64],
    address: u64,
    flags: u32,
) -> Result<Option<Start>, Refusal>
    ensures { outcome result ≡ guarded segments.now (answered (start_at image.now segments.now address flags)) }
{
    let body = steps::row_body(image, segments, address, flags)?;
    Ok(type_body::trailing(address, flags, body))
}

// Where the walk over a descriptor's blocks starts: 1, whether it is a class, the extra class flags (0 if there are none), and the
// address of the first block. A walk starts at row 0.
pub fn hodrupec_first_block(
    image: &[u8],
    segments: &[u64],
    address: u64,
    flags: u32,
    out: &mut [u64; 4],
) -> u64
    ensures { Tells (mapped start_numbers (guarded segments.now (answered (start_at image.now segments.now address flags)))) out.old result out.new }
{
    let start = start_at(image, segments, address, flags);
    c_rows::tell(start.map(start_numbers), out)
}

// A step of the walk: 1, the block's kind and its three numbers, and the row and the address from which the walk goes on.
pub fn hodrupec_next_block(
    image: &[u8],
    segments: &[u64],
    flags: u32,
    class: u32,
    extra: u32,
    row: u32,
    address: u64,
    out: &mut [u64; 7],
) -> u64
    ensures { Tells (mapped block_step_numbers (guarded segments.now (answered (next_block image.now segments.now (walk_at flags class extra row address))))) out.old result out.new }
{
    let walk = BlockIter {
        trailing: Trailing {
            flags,
            is_class: class != 0,
            extra,
        },
        row,
        address,
    };
    c_rows::tell(
        steps::next_block(image, segments, walk).map(block_step_numbers),
        out,
    )
}
