// Methods for programs in C or Rust, one at a time and as whole tables, by the rules of the crates `c_rows` and `c_tables`.
// Each archive has both calls of its kind: the C interface names them, and takes what a walk is made of one by one.
#![tactic(auto)]

ghost use Rattle.std.specs.Prelude.{◌≡◌};
ghost use Rattle.refusal.specs.Refusal.{answered, mapped};
ghost use Rattle.refusal.specs.Guarded.{guarded};
ghost use Rattle.vtable.specs.Entries.{method, entry_step, step_answer};
ghost use Rattle.entry_tables.specs.Tables.{guarded_table};
ghost use Rattle.c_rows.specs.Numbers.{Tells};
ghost use Rattle.c_tables.specs.Tables.{cursor_at, entry_step_numbers, TellsTable};

// A step of a walk that stands at entry `next`; the words are the method's flags and its implementation.
#[unsafe(no_mangle)]
pub extern "C" fn hodrupec_next_method(
    image: &[u8],
    segments: &[u64],
    base_va: u64,
    count: u32,
    next: u32,
    out: &mut [u64; 5],
) -> u64
    ensures { Tells (mapped (entry_step_numbers 2) (guarded segments.now (answered (step_answer (entry_step image.now segments.now method (cursor_at base_va count next)))))) out.old result out.new }
{
    let cursor = c_tables::cursor_at(base_va, count, next);
    c_tables::tell_step(steps::next_method(image, segments, cursor), out)
}

// Writes three numbers for each method: its address, its flags, the implementation.
#[unsafe(no_mangle)]
pub extern "C" fn hodrupec_methods(
    image: &[u8],
    segments: &[u64],
    base_va: u64,
    count: u32,
    next: u32,
    buffer: &mut [u64],
    out: &mut [u64; 2],
) -> u64
    ensures { TellsTable (guarded_table image.now segments.now method (cursor_at base_va count next) buffer.old) out.old buffer.old result out.new buffer.new }
{
    let walk = c_tables::cursor_at(base_va, count, next);
    c_tables::tell_counts(entry_tables::methods(image, segments, walk, buffer), out)
}
