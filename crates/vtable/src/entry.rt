ghost use Rattle.std.specs.Prelude.{◌≡◌, ◌+◌, ◌*◌, ◌%◌, ◌^◌};
ghost use Rattle.runtime.specs.Runtime.{tried};
ghost use Rattle.vtable.specs.Entries.{shape_words, words_of, kind_layout, entry_size, entry_bytes};

use crate::shape::{Shape, Word};
use runtime::SwiftRuntime;

// The kinds of tables.
#[derive(Clone, Copy)]
pub enum EntryKind {
    Method,
    Override,
    DefaultOverride,
    Prespecialization,
}

impl EntryKind {
    // What the words of an entry are.
    pub fn shape(self) -> Shape
        ensures { shape_words result ≡ words_of self }
    {
        let (first, more) = match self {
            EntryKind::Method => (Word::Number, 1),
            EntryKind::Override => (Word::Pointer, 2),
            EntryKind::DefaultOverride => (Word::Pointer, 1),
            EntryKind::Prespecialization => (Word::Pointer, 0),
        };
        Shape { first, more }
    }

    // How many bytes an entry has.
    pub fn size(self) -> u32
        ensures { result ≡ entry_size (kind_layout self) }
    {
        self.shape().size()
    }
}

// One entry: its address, and what its words say. A method's are its flags and its implementation; an override's the class, the method and the
// implementation; a default override's the method and the implementation; a prespecialization's the metadata. A relative pointer of offset 0 gives
// address 0, and a word that the kind does not have is 0.
#[derive(Clone, Copy)]
pub struct TableEntry {
    pub address: u64,
    pub first: u64,
    pub second: u64,
    pub third: u64,
}

// The address of entry `k` of a table whose entries are `stride` bytes from one another, modulo 2^64.
pub fn entry_address(base_va: u64, stride: u32, k: u32) -> u64
    ensures { result ≡ (base_va + stride * k) % 2 ^ 64 }
{
    base_va.wrapping_add(stride as u64 * k as u64)
}

// Its `size` bytes, as that part of the image: empty if they cannot be read, or if one of its words does not lie below 2^64.
pub fn entry_bytes<'a>(
    rt: &SwiftRuntime<'a, '_>,
    base_va: u64,
    size: u32,
    stride: u32,
    k: u32,
) -> &'a [u8]
    ensures { result.now ≡ entry_bytes rt.now.image.now (tried rt.now) size stride base_va k }
{
    if size < 4 {
        return &rt.image[..0];
    }
    let Some(address) = base_va.checked_add(stride as u64 * k as u64) else {
        return &rt.image[..0];
    };
    if u64::MAX - address < (size - 4) as u64 {
        return &rt.image[..0];
    }
    rt.read_bytes(address, size as usize)
}
