// The blocks that trail a row's body.
ghost use Rattle.std.specs.Prelude.{◌≡◌};
ghost use Rattle.refusal.specs.Refusal.{outcome, answered};
ghost use Rattle.refusal.specs.Guarded.{guarded};
ghost use Rattle.classtrailers.specs.Blocks.{next_block};
ghost use Rattle.type_body.specs.Body.{body_of};
ghost use Rattle.type_body.specs.Items.{trailers};
ghost use Rattle.steps.specs.Blocks.{walk_from, kind_from};

use classtrailers::{Block, BlockIter, BlockKind, BlockStep, Trailing};
use refusal::Refusal;
use runtime::SwiftRuntime;
use type_body::{Start, TypeBody};

// The row of a walk that has ended: how many kinds of blocks there are.
const OVER: u32 = 11;

// The walk over the blocks of a descriptor at an address with these flags and this body: it has ended if nothing follows.
pub fn block_walk(address: u64, flags: u32, body: Option<TypeBody>) -> BlockIter
    ensures { result ≡ walk_from (trailers address flags (body_of body)) }
{
    match type_body::trailing(address, flags, body) {
        Some(Start { trailing, start }) => BlockIter::start(trailing, start),
        None => BlockIter {
            trailing: Trailing {
                flags: 0,
                is_class: false,
                extra: 0,
            },
            row: OVER,
            address: 0,
        },
    }
}

// The next block from the walk's position.
pub fn next_block(
    image: &[u8],
    segments: &[u64],
    walk: BlockIter,
) -> Result<Option<BlockStep>, Refusal>
    ensures { outcome result ≡ guarded segments.now (answered (next_block image.now segments.now walk)) }
{
    refusal::find_fault(segments)?;
    let rt = SwiftRuntime::new(image, segments);
    Ok(walk.next(&rt))
}

// The block of a kind of a descriptor at an address with these flags and this body.
pub fn block_of_kind(
    image: &[u8],
    segments: &[u64],
    address: u64,
    flags: u32,
    body: Option<TypeBody>,
    kind: BlockKind,
) -> Result<Option<Block>, Refusal>
    ensures { outcome result ≡ guarded segments.now (answered (kind_from image.now segments.now kind (trailers address flags (body_of body)))) }
{
    refusal::find_fault(segments)?;
    let rt = SwiftRuntime::new(image, segments);
    let Some(Start { trailing, start }) = type_body::trailing(address, flags, body) else {
        return Ok(None);
    };
    let block = classtrailers::block_of_kind(&rt, trailing, start, kind);
    Ok(block)
}
