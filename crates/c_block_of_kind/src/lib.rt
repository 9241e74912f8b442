// The block of a kind, for programs in C or Rust, by the rules of the crate `c_rows`, in an archive of its own: it needs the readers of the
// body and of the walk over blocks, which are compiled into their calls where those are the only users. A kind is its number in the order in
// which blocks follow each other, and a block's three numbers are those of a full row. What a call for C takes stands one by one.
#![tactic(auto)]

ghost use Rattle.std.specs.Prelude.{◌≡◌};
ghost use Rattle.refusal.specs.Refusal.{answered, mapped, outcome};
ghost use Rattle.refusal.specs.Guarded.{guarded};
ghost use Rattle.c_rows.specs.Numbers.{Tells};
ghost use Rattle.c_blocks.specs.Blocks.{start_at, kind_block_numbers, block_numbered};

use c_rows::THERE;
use classtrailers::Block;
use refusal::Refusal;

fn kind_block_numbers(block: Option<Block>) -> [u64; 5]
    ensures { result ≡ kind_block_numbers block }
{
    match block {
        Some(block) => {
            let numbers = c_blocks::block_numbers(block);
            [THERE, numbers[0], numbers[1], numbers[2], numbers[3]]
        }
        None => [0; 5],
    }
}

// The block of the kind with a number, for the descriptor with these flags at an address.
#[tactic(auto, unfolding(refusal::specs::Guarded::guarded))]
fn block_numbered(
    image: &[u8],
    segments: &[u64],
    address: u64,
    flags: u32,
    number: u32,
) -> Result<Option<Block>, Refusal>
    ensures { outcome result ≡ guarded segments.now (answered (block_numbered image.now segments.now (start_at image.now segments.now address flags) number)) }
{
    let body = steps::row_body(image, segments, address, flags)?;
    match classtrailers::kind_numbered(number) {
        Some(kind) => steps::block_of_kind(image, segments, address, flags, body, kind),
        None => Ok(None),
    }
}

// The block of a kind of the descriptor at an address: 1, the kind and its three numbers. There is none for a kind above 10.
#[unsafe(no_mangle)]
pub extern "C" fn hodrupec_block_of_kind(
    image: &[u8],
    segments: &[u64],
    address: u64,
    flags: u32,
    kind: u32,
    out: &mut [u64; 5],
) -> u64
    ensures { Tells (mapped kind_block_numbers (guarded segments.now (answered (block_numbered image.now segments.now (start_at image.now segments.now address flags) kind)))) out.old result out.new }
{
    let block = block_numbered(image, segments, address, flags, kind);
    c_rows::tell(block.map(kind_block_numbers), out)
}
