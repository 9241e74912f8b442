// Walks over the entries of a table, by value: each step returns the walk.
ghost use Rattle.std.specs.Prelude.{◌≡◌, ◌<◌};
ghost use Rattle.runtime.specs.Runtime.{tried};
ghost use Rattle.vtable.specs.Entries.{kind_layout, start, moved, entry_step, step_answer};

use crate::entry::{EntryKind, TableEntry, entry_address, entry_bytes};
use runtime::SwiftRuntime;

// The table's address, how many entries it has, and the number of the next one.
#[derive(Clone, Copy)]
pub struct EntryIter {
    pub base_va: u64,
    pub count: u32,
    pub next: u32,
}

// What a step gives: an entry, or that there is one that cannot be read, each with the walk from there on; or the end. No Option: a caller may go
// on past an entry that cannot be read.
#[derive(Clone, Copy)]
pub enum EntryStep {
    Entry { entry: TableEntry, next: EntryIter },
    Unreadable { next: EntryIter },
    End,
}

impl EntryIter {
    pub fn new(base_va: u64, count: u32) -> EntryIter
        ensures { result ≡ start base_va count }
    {
        EntryIter {
            base_va,
            count,
            next: 0,
        }
    }

    // The walk past its next entry.
    fn moved(self) -> EntryIter
        requires { self.next < self.count }
        ensures { result ≡ moved self }
    {
        EntryIter {
            next: self.next + 1,
            ..self
        }
    }

    // The next entry of a table of a kind.
    pub fn next(self, rt: &SwiftRuntime, kind: EntryKind) -> EntryStep
        ensures { result ≡ step_answer (entry_step rt.now.image.now (tried rt.now) (kind_layout kind) self) }
    {
        if self.count <= self.next {
            return EntryStep::End;
        }
        let next = self.moved();
        let shape = kind.shape();
        let size = kind.size();
        let bytes = entry_bytes(rt, self.base_va, size, size, self.next);
        if bytes.is_empty() {
            return EntryStep::Unreadable { next };
        }
        let address = entry_address(self.base_va, size, self.next);
        EntryStep::Entry {
            entry: shape.entry(bytes, address),
            next,
        }
    }
}
