// The entries of a table, one after the other, into the caller's list of numbers.
ghost use Rattle.std.specs.Prelude.{◌≡◌, ◌+◌, ◌*◌, ◌^◌, ◌<◌, ◌≤◌, min, ◌∷◌, length, take, drop};
ghost use Rattle.util.specs.Buffer.{pasted, at_start};
ghost use Rattle.vtable.specs.Entries.{entry_of};
ghost use Rattle.entry_tables.specs.Tables.{entry_numbers, stop_number, stop_at, shape_layout, words_in, PutRun, table_in, Lists};

use crate::window::{Window, window_at};
use runtime::SwiftRuntime;
use vtable::{EntryIter, Shape, TableEntry};

// Why there are no more entries; `as u64` gives the number that the calls hand on.
#[derive(Clone, Copy, PartialEq, Eq)]
pub enum Stop {
    // The table ends.
    Ended = 0,
    // The list is full.
    Full = 1,
    // The next entry cannot be read.
    Unreadable = 2,
}

// How many entries the caller's list has, and why there are no more.
#[derive(Clone, Copy)]
pub struct Listed {
    pub entries: usize,
    pub stop: Stop,
}

// The entry's numbers at a place of the list.
fn put_entry(entry: TableEntry, shape: Shape, buffer: &mut [u64], at: usize)
    requires { at + (2 + shape.more) ≤ length buffer.old }
    ensures { buffer.new ≡ pasted buffer.old at («entry».address ∷ words_in shape.more «entry») }
{
    buffer[at] = entry.address;
    buffer[at + 1] = entry.first;
    if shape.more == 0 {
        return;
    }
    buffer[at + 2] = entry.second;
    if shape.more == 1 {
        return;
    }
    buffer[at + 3] = entry.third;
}

// Puts the numbers of the entry at a place of the image at a place of the list. The entry's bytes are a part of known length, so no read
// tests the length again.
fn put_from(image: &[u8], place: usize, address: u64, shape: Shape, buffer: &mut [u64], at: usize)
    requires { (address + 4 * shape.more < 2 ^ 64) × ((place + (4 + 4 * shape.more) ≤ length image.now) × (at + (2 + shape.more) ≤ length buffer.old)) }
    ensures { buffer.new ≡ pasted buffer.old at (entry_numbers (entry_of (shape_layout shape 0) address (take (4 + 4 * shape.more) (drop place image.now)))) }
{
    let end = place + shape.size() as usize;
    put_entry(shape.entry(&image[place..end], address), shape, buffer, at);
}

// Puts at most `most` entries that lie one after the other in the image, the first at `place` and the others at most `last` bytes further
// on, and returns how many.
fn put_run(
    image: &[u8],
    place: usize,
    last: u64,
    address: u64,
    shape: Shape,
    stride: u32,
    most: usize,
    buffer: &mut [u64],
    at: usize,
) -> usize
    requires { (address + last + 4 * shape.more < 2 ^ 64) × ((place + last + (4 + 4 * shape.more) ≤ length image.now) × (at + (2 + shape.more) * most ≤ length buffer.old)) }
    ensures { PutRun image.now (shape_layout shape stride) place last address most buffer.old at result buffer.new }
{
    let width = 2 + shape.more as usize;
    let step = stride as u64;
    let mut past: u64 = 0;
    for n in 0..most {
        let here = place + past as usize;
        put_from(image, here, address + past, shape, buffer, at + width * n);
        if last - past < step {
            return n + 1;
        }
        past += step;
    }
    most
}

// The only entry that is left.
fn list_one(
    rt: &SwiftRuntime,
    cursor: EntryIter,
    shape: Shape,
    stride: u32,
    buffer: &mut [u64],
) -> Listed
    requires { cursor.next + 1 ≡ cursor.count }
    ensures { Lists (table_in rt.now.image.now rt.now.segments.now (shape_layout shape stride) cursor (length buffer.old)) buffer.old result buffer.new }
{
    let base_va = cursor.base_va;
    let k = cursor.next;
    if buffer.len() < 2 + shape.more as usize {
        return Listed {
            entries: 0,
            stop: Stop::Full,
        };
    }
    match window_at(rt, base_va, stride, k, shape, true) {
        Some(Window { place, last: _ }) => {
            let address = vtable::entry_address(base_va, stride, k);
            put_from(rt.image, place, address, shape, buffer, 0);
            Listed {
                entries: 1,
                stop: Stop::Ended,
            }
        }
        None => Listed {
            entries: 0,
            stop: Stop::Unreadable,
        },
    }
}

// Why a list with no room for entry `k` ends: it is full, unless the table ends there.
pub fn stopped(k: u32, count: u32) -> Stop
    ensures { stop_number result ≡ stop_at k count }
{
    if k < count { Stop::Full } else { Stop::Ended }
}

// Run after run. No `for`: a turn lists as many entries as a run has.
fn list_runs(
    rt: &SwiftRuntime,
    cursor: EntryIter,
    shape: Shape,
    stride: u32,
    buffer: &mut [u64],
) -> Listed
    ensures { Lists (table_in rt.now.image.now rt.now.segments.now (shape_layout shape stride) cursor (length buffer.old)) buffer.old result buffer.new }
{
    let width = 2 + shape.more as usize;
    let base_va = cursor.base_va;
    let count = cursor.count;
    let room = buffer.len() / width;
    let mut k = cursor.next;
    let mut n: usize = 0;
    while n < room {
        if count <= k {
            return Listed {
                entries: n,
                stop: Stop::Ended,
            };
        }
        let found = window_at(rt, base_va, stride, k, shape, false);
        match found {
            Some(Window { place, last }) => {
                let address = vtable::entry_address(base_va, stride, k);
                let most = ((count - k) as usize).min(room - n);
                let run = put_run(
                    rt.image,
                    place,
                    last,
                    address,
                    shape,
                    stride,
                    most,
                    buffer,
                    width * n,
                );
                k += run as u32;
                n += run;
            }
            None => {
                return Listed {
                    entries: n,
                    stop: Stop::Unreadable,
                };
            }
        }
    }
    Listed {
        entries: n,
        stop: stopped(k, count),
    }
}

// The entries from a walk's position on: of a shape, and `stride` bytes from one to the next. A single entry is listed by itself, since setting
// up a run takes as long as listing an entry.
pub fn list_entries(
    rt: &SwiftRuntime,
    cursor: EntryIter,
    shape: Shape,
    stride: u32,
    buffer: &mut [u64],
) -> Listed
    ensures { Lists (table_in rt.now.image.now rt.now.segments.now (shape_layout shape stride) cursor (length buffer.old)) buffer.old result buffer.new }
{
    if cursor.next < cursor.count && cursor.count - cursor.next == 1 {
        return list_one(rt, cursor, shape, stride, buffer);
    }
    list_runs(rt, cursor, shape, stride, buffer)
}
