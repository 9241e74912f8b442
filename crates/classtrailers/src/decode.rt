// Blocks at an address. A header is read once, as a part of the image.
ghost use Rattle.std.specs.Prelude.{◌≡◌, false, ◌+◌, ◌*◌, ◌≤◌};
ghost use Rattle.runtime.specs.Bytes.{bytes_read};
ghost use Rattle.runtime.specs.Reads.{run};
ghost use Rattle.runtime.specs.Runtime.{tried};
ghost use Rattle.classtrailers.specs.Blocks.{placed_block, listed, row_at, row_number, below, block_at};

use crate::block::{Block, BlockBody, BlockKind, Ended};
use runtime::SwiftRuntime;

// How many bytes an entry has.
const OVERRIDE: u64 = 12;

const DEFAULT_OVERRIDE: u64 = 8;
// A metadata, and its accessor.
const PRESPECIALIZATION: u64 = 8;

// Where something ends, unless that reaches 2^64.
#[tactic(auto, unfolding(crate::specs::Blocks::below))]
fn end_of(at: u64, size: u64) -> Option<u64>
    ensures { result ≡ below (at + size) }
{
    at.checked_add(size)
}

// One without a header.
fn plain_at(kind: BlockKind, at: u64, size: u64) -> Ended
    ensures { result ≡ record { block = placed_block kind at; end = below (at + size) } }
{
    Ended {
        block: Block {
            kind,
            body: BlockBody::At(at),
        },
        end: end_of(at, size),
    }
}

// A function by itself: compiled into the readers below, its walk would set what `None` says of a block anew for each segment passed
// (docs/DECISIONS.md, "Bodies, blocks, entries").
#[inline(never)]
fn read_far<'a>(rt: &SwiftRuntime<'a, '_>, at: u64, len: usize) -> &'a [u8]
    ensures { result.now ≡ bytes_read rt.now.image.now (tried rt.now) at len }
{
    rt.read_bytes(at, len)
}

// The bytes of a header. `MAPPED`, which changes no answer, says that the mapping has them as a rule, so that the segments are seldom walked;
// without it a function by itself walks them.
fn read_bytes<'a, const MAPPED: bool>(rt: &SwiftRuntime<'a, '_>, at: u64, len: usize) -> &'a [u8]
    ensures { result.now ≡ bytes_read rt.now.image.now (tried rt.now) at len }
{
    if MAPPED {
        rt.read_bytes(at, len)
    } else {
        read_far(rt, at, len)
    }
}

// A generic header: its parameters take a byte each, their number rounded up to a multiple of four, its requirements 12 bytes each.
fn generic_at<const MAPPED: bool>(rt: &SwiftRuntime, at: u64) -> Option<Ended>
    ensures { result ≡ run rt.now.image.now (tried rt.now) (block_at (row_at 0) at) }
{
    let header = read_bytes::<MAPPED>(rt, at, 16);
    if header.len() < 16 {
        return None;
    }
    let parameters = util::u16_at(header, 8) as u64;
    let requirements = util::u16_at(header, 10) as u64;
    let end = end_of(at, 16 + 4 * ((parameters + 3) / 4) + 12 * requirements)?;
    Some(Ended {
        block: Block {
            kind: BlockKind::Generic,
            body: BlockBody::At(at),
        },
        end: Some(end),
    })
}

fn vtable_at<const MAPPED: bool>(rt: &SwiftRuntime, at: u64) -> Option<Ended>
    ensures { result ≡ run rt.now.image.now (tried rt.now) (block_at (row_at 4) at) }
{
    let header = read_bytes::<MAPPED>(rt, at, 8);
    if header.len() < 8 {
        return None;
    }
    let count = util::u32_at(header, 4);
    let end = end_of(at, 8 + 8 * (count as u64))?;
    Some(Ended {
        block: Block {
            kind: BlockKind::VTable,
            body: BlockBody::Table {
                offset: util::u32_at(header, 0),
                count,
                entries_va: at + 8,
            },
        },
        end: Some(end),
    })
}

// A table whose header is the number of its entries, each of `entry` bytes.
fn entries_at<const MAPPED: bool>(
    rt: &SwiftRuntime,
    kind: BlockKind,
    at: u64,
    entry: u64,
) -> Option<Ended>
    requires { entry ≤ 12 }
    ensures { result ≡ run rt.now.image.now (tried rt.now) (block_at (listed kind (λ _. false) entry) at) }
{
    let header = read_bytes::<MAPPED>(rt, at, 4);
    if header.len() < 4 {
        return None;
    }
    let count = util::u32_at(header, 0);
    let end = end_of(at, 4 + entry * (count as u64))?;
    Some(Ended {
        block: Block {
            kind,
            body: BlockBody::Table {
                offset: 0,
                count,
                entries_va: at + 4,
            },
        },
        end: Some(end),
    })
}

// Two bytes are read, and the next block starts four bytes on.
fn invertible_at<const MAPPED: bool>(rt: &SwiftRuntime, at: u64) -> Option<Ended>
    ensures { result ≡ run rt.now.image.now (tried rt.now) (block_at (row_at 8) at) }
{
    let header = read_bytes::<MAPPED>(rt, at, 2);
    if header.len() < 2 {
        return None;
    }
    let bits = util::u16_at(header, 0);
    let set = Block {
        kind: BlockKind::InvertibleProtocolSet,
        body: BlockBody::Set {
            bits,
            protocols: u16::count_ones(bits),
        },
    };
    Some(Ended {
        block: set,
        end: end_of(at, 4),
    })
}

// The block of a kind at an address. The kind chooses the reader: a reader's constants stand in its arm, as they would in a table of kinds.
// The mapping is tried before the segments; a true mapping changes no answer.
pub(super) fn read_block<const MAPPED: bool>(
    rt: &SwiftRuntime,
    kind: BlockKind,
    at: u64,
) -> Option<Ended>
    ensures { result ≡ run rt.now.image.now (tried rt.now) (block_at (row_at (row_number kind)) at) }
{
    match kind {
        BlockKind::Generic => generic_at::<MAPPED>(rt, at),
        BlockKind::ResilientSuperclass => Some(plain_at(kind, at, 4)),
        BlockKind::ForeignMetadataInit => Some(plain_at(kind, at, 4)),
        BlockKind::SingletonMetadataInit => Some(plain_at(kind, at, 12)),
        BlockKind::VTable => vtable_at::<MAPPED>(rt, at),
        BlockKind::OverrideTable => entries_at::<MAPPED>(rt, kind, at, OVERRIDE),
        BlockKind::ObjcResilientClassStub => Some(plain_at(kind, at, 4)),
        BlockKind::Prespecializations => entries_at::<MAPPED>(rt, kind, at, PRESPECIALIZATION),
        BlockKind::InvertibleProtocolSet => invertible_at::<MAPPED>(rt, at),
        BlockKind::SingletonMetadataPointer => Some(plain_at(kind, at, 4)),
        BlockKind::DefaultOverrideTable => entries_at::<MAPPED>(rt, kind, at, DEFAULT_OVERRIDE),
    }
}

// The block of a kind at an address, compiled for a caller whose mapping, around a descriptor, has that descriptor's blocks as a rule.
pub fn block_at(rt: &SwiftRuntime, kind: BlockKind, at: u64) -> Option<Ended>
    ensures { result ≡ run rt.now.image.now (tried rt.now) (block_at (row_at (row_number kind)) at) }
{
    read_block::<true>(rt, kind, at)
}
