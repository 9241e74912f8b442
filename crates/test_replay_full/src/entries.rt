// The first entries of a table of each kind.
ghost use Rattle.std.specs.Prelude.{◌≡◌, ◌-◌, ◌^◌, min, leb};

use crate::{SHOWN, after_shown, number_field, refused, three, two, write};
use runtime::SwiftRuntime;
use std::io::Stdout;
use vtable::{EntryIter, EntryKind, EntryStep, TableEntry};

// How many entries of each kind are read at a row's own address.
const AT_ROW: u32 = 5;

fn words(out: Stdout, kind: EntryKind, entry: TableEntry) {
    match kind {
        EntryKind::Method => {
            write(out, b"method");
            three(out, entry.address, entry.first, entry.second);
        }
        EntryKind::Override => {
            write(out, b"override");
            number_field(out, entry.address);
            three(out, entry.first, entry.second, entry.third);
        }
        EntryKind::DefaultOverride => {
            write(out, b"default");
            three(out, entry.address, entry.first, entry.second);
        }
        EntryKind::Prespecialization => {
            write(out, b"metadata");
            two(out, entry.address, entry.first);
        }
    }
}

fn entry_line(out: Stdout, rt: &SwiftRuntime, kind: EntryKind, cursor: EntryIter) {
    match steps::next_entry(rt.image, rt.segments, cursor, kind) {
        Ok(EntryStep::Entry { entry, next: _ }) => words(out, kind, entry),
        Ok(EntryStep::Unreadable { next: _ }) => write(out, b"unreadable\n"),
        Ok(EntryStep::End) => write(out, b"bad line\n"),
        Err(refusal) => refused(out, refusal),
    }
}

// Writes the first entries of a table, and returns how many. A step moves past one that cannot be read, so there are as many steps as
// entries.
pub fn entries(out: Stdout, rt: &SwiftRuntime, kind: EntryKind, base_va: u64, count: u32) -> u32
    ensures { result ≡ min count 12 }
{
    let most = count.min(SHOWN);
    for next in 0..most {
        let cursor = EntryIter {
            base_va,
            count,
            next,
        };
        entry_line(out, rt, kind, cursor);
    }
    after_shown(out, count);
    most
}

// Entries without a header, at a row's own address, if that is one of the last 32 addresses: they pass 2^64. Returns whether it is.
pub fn at_row(out: Stdout, rt: &SwiftRuntime, address: u64) -> bool
    ensures { result ≡ leb (2 ^ 64 - 32) address }
{
    if address < 0xffff_ffff_ffff_ffe0 {
        return false;
    }
    for kind in [
        EntryKind::Method,
        EntryKind::Override,
        EntryKind::DefaultOverride,
        EntryKind::Prespecialization,
    ] {
        entries(out, rt, kind, address, AT_ROW);
    }
    true
}
