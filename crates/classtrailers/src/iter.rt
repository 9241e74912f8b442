// Block after block, and the block of a kind. The calls that walk so have no mapping, so a header is not read as `MAPPED`.
ghost use Rattle.std.specs.Prelude.{◌≡◌, ◌<◌};
ghost use Rattle.runtime.specs.Reads.{run};
ghost use Rattle.runtime.specs.Runtime.{tried};
ghost use Rattle.classtrailers.specs.Blocks.{row_at, row_number, passed, after, step_at, next_block, block};

use crate::block::{Block, BlockKind};
use crate::decode::read_block;
use crate::trailing::{Trailing, has_block, kind_there, number_of};
use runtime::SwiftRuntime;

// How many kinds of blocks there are.
pub const ROWS: u32 = 11;

// A walk over the blocks: the number of the kind that comes next, and the address of what follows.
#[derive(Clone, Copy)]
pub struct BlockIter {
    pub trailing: Trailing,
    pub row: u32,
    pub address: u64,
}

// A block, and the walk from its end on.
#[derive(Clone, Copy)]
pub struct BlockStep {
    pub block: Block,
    pub next: BlockIter,
}

// The walk from a block's end on, with the kind that comes next; it is over if that end is past the last address.
fn after(trailing: Trailing, row: u32, end: Option<u64>) -> BlockIter
    ensures { result ≡ after trailing row end }
{
    match end {
        Some(address) => BlockIter {
            trailing,
            row,
            address,
        },
        None => BlockIter {
            trailing,
            row: ROWS,
            address: 0,
        },
    }
}

// A block that is present, of the kind with this number, and the walk from its end on.
fn step_at(
    rt: &SwiftRuntime,
    trailing: Trailing,
    row: u32,
    kind: BlockKind,
    address: u64,
) -> Option<BlockStep>
    requires { (row < 11) × (row ≡ row_number kind) }
    ensures { result ≡ step_at rt.now.image.now (tried rt.now) trailing row address }
{
    let found = read_block::<false>(rt, kind, address)?;
    Some(BlockStep {
        block: found.block,
        next: after(trailing, row + 1, found.end),
    })
}

impl BlockIter {
    // The walk over the blocks that start at an address.
    pub fn start(trailing: Trailing, address: u64) -> BlockIter
        ensures { result ≡ record { trailing = trailing; row = 0; address = address } }
    {
        BlockIter {
            trailing,
            row: 0,
            address,
        }
    }

    // The next block that is present.
    pub fn next(self, rt: &SwiftRuntime) -> Option<BlockStep>
        ensures { result ≡ next_block rt.now.image.now (tried rt.now) self }
    {
        for row in self.row..ROWS {
            if let Some(kind) = kind_there(self.trailing, row) {
                return step_at(rt, self.trailing, row, kind, self.address);
            }
        }
        None
    }
}

// Where the next block starts: past the block with this number, if it is present.
fn pass(rt: &SwiftRuntime, trailing: Trailing, row: u32, address: u64) -> Option<u64>
    ensures { result ≡ run rt.now.image.now (tried rt.now) (passed trailing (row_at row) address) }
{
    let Some(kind) = kind_there(trailing, row) else {
        return Some(address);
    };
    read_block::<false>(rt, kind, address)?.end
}

// The block of a kind, for a descriptor whose blocks start at an address. Only the headers of the blocks before it are read.
pub fn block_of_kind(
    rt: &SwiftRuntime,
    trailing: Trailing,
    start: u64,
    kind: BlockKind,
) -> Option<Block>
    ensures { result ≡ run rt.now.image.now (tried rt.now) (block trailing start kind) }
{
    if !has_block(trailing, kind) {
        return None;
    }
    let mut address = start;
    for row in 0..number_of(kind) {
        address = pass(rt, trailing, row, address)?;
    }
    let found = read_block::<false>(rt, kind, address)?;
    Some(found.block)
}
