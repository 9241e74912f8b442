// What the calls for C over tables share. Each kind of table has an archive of its own, by the rules of the crate `c_rows`: with one kind
// in an archive, the compiler makes the step and the loop for that kind.
#![tactic(auto)]

ghost use Rattle.std.specs.Prelude.{◌≡◌, ◌≤◌, ◌-◌, ◌++◌, take, replicate};
ghost use Rattle.refusal.specs.Refusal.{mapped, outcome};
ghost use Rattle.entry_tables.specs.Tables.{table_answer, listed_counts};
ghost use Rattle.c_rows.specs.Numbers.{Tells};
ghost use Rattle.c_tables.specs.Tables.{cursor_at, step_numbers, count_numbers};

use c_rows::THERE;
use entry_tables::Listed;
use refusal::Refusal;
use vtable::{EntryIter, EntryStep};

// The first number of an entry that cannot be read.
const UNREADABLE: u64 = 2;

// The walk over a table of `count` entries that stands at entry `next`.
pub fn cursor_at(base_va: u64, count: u32, next: u32) -> EntryIter
    ensures { result ≡ cursor_at base_va count next }
{
    EntryIter {
        base_va,
        count,
        next,
    }
}

// 1, the next entry's number, the entry's address and what its words say; 2, the next entry's number and zeros for an entry that cannot be
// read; zeros at the end.
pub fn step_numbers(step: EntryStep) -> [u64; 6]
    ensures { result ≡ step_numbers step }
{
    match step {
        EntryStep::Entry { entry, next } => [
            THERE,
            u64::from(next.next),
            entry.address,
            entry.first,
            entry.second,
            entry.third,
        ],
        EntryStep::Unreadable { next } => [UNREADABLE, u64::from(next.next), 0, 0, 0, 0],
        EntryStep::End => [0; 6],
    }
}

fn first_numbers<const N: usize>(step: EntryStep) -> [u64; N]
    ensures first { N ≤ 6 → result ≡ take N (step_numbers step) }
    ensures beyond { 6 ≤ N → result ≡ step_numbers step ++ replicate (N - 6) 0 }
{
    let numbers = step_numbers(step);
    // No `copy_from_slice`: it tests whether the lists overlap, and reads in pairs what was just written one by one, which makes the
    // processor wait (docs/DECISIONS.md, "Bodies, blocks, entries").
    if let Some(first) = numbers.first_chunk() {
        return *first;
    }
    let mut longer = [0; N];
    longer[..6].copy_from_slice(&numbers);
    longer
}

// Tells as many of a step's numbers as its kind of entry has, which are six at most; a longer list has zeros behind them.
pub fn tell_step<const N: usize>(answer: Result<EntryStep, Refusal>, out: &mut [u64; N]) -> u64
    ensures first { N ≤ 6 → Tells (mapped (λ step. take N (step_numbers step)) (outcome answer)) out.old result out.new }
    ensures beyond { 6 ≤ N → Tells (mapped (λ step. step_numbers step ++ replicate (N - 6) 0) (outcome answer)) out.old result out.new }
{
    c_rows::tell(answer.map(first_numbers), out)
}

// How many entries a whole table's answer has, and why no more, 0 the table's end, 1 the buffer is full, 2 an entry that cannot be read.
fn count_numbers(listed: Listed) -> [u64; 2]
    ensures { result ≡ count_numbers (listed_counts listed) }
{
    [listed.entries as u64, listed.stop as u64]
}

// Writes the counts of a whole table's answer, and returns the status.
pub fn tell_counts(answer: Result<Listed, Refusal>, out: &mut [u64; 2]) -> u64
    ensures { Tells (mapped count_numbers (table_answer answer)) out.old result out.new }
{
    c_rows::tell(answer.map(count_numbers), out)
}
