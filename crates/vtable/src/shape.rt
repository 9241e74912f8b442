// What the words of an entry are, and what they say.
ghost use Rattle.std.specs.Prelude.{◌≤◌};

use crate::entry::TableEntry;

// A word of four bytes: a number, or the offset of a relative pointer that may be null.
#[derive(Clone, Copy)]
pub enum Word {
    Number,
    Pointer,
}

// The first word is of either kind, and at most two pointers follow it.
#[derive(Clone, Copy)]
pub struct Shape {
    pub first: Word,
    pub more: u32,
    pub ghost small: { more ≤ 2 },
}

impl Shape {
    ghost use Rattle.std.specs.Prelude.{◌≡◌, ◌+◌, ◌*◌};
    ghost use Rattle.vtable.specs.Entries.{packed, shape_words, entry_of, table_entry};

    // How many bytes an entry has.
    pub fn size(self) -> u32
        ensures { result ≡ 4 + 4 * self.more }
    {
        4 + 4 * self.more
    }

    // What an entry's bytes say.
    #[tactic(auto, using(crate::proofs::EntriesLaws::wrapped_address))]
    pub fn entry(self, bytes: &[u8], address: u64) -> TableEntry
        ensures { result ≡ table_entry (entry_of (packed (shape_words self)) address bytes.now) }
    {
        let first = match self.first {
            Word::Number => util::u32_at(bytes, 0) as u64,
            Word::Pointer => util::address_in(bytes, 0, address),
        };
        let second = if self.more < 1 {
            0
        } else {
            util::address_in(bytes, 4, address.wrapping_add(4))
        };
        let third = if self.more < 2 {
            0
        } else {
            util::address_in(bytes, 8, address.wrapping_add(8))
        };
        TableEntry {
            address,
            first,
            second,
            third,
        }
    }
}
