// The static library of the calls of `c_rows`, for programs in C or Rust. Other crates use `c_rows`, and a library that a crate uses cannot be
// built as a static one, so each call has its export here: the same name, parameters and clauses.
#![tactic(auto)]

ghost use Rattle.std.specs.Prelude.{◌≡◌, length};
ghost use Rattle.refusal.specs.Refusal.{answered, mapped, answer_of};
ghost use Rattle.util.specs.Buffer.{overwritten};
ghost use Rattle.segment.specs.Segments.{file_offset, segments_of};
ghost use Rattle.util.specs.Cstr.{text_at};
ghost use Rattle.runtime.specs.FieldName.{field_name};
ghost use Rattle.runtime.specs.PlaceNumbers.{text_numbers, field_numbers};
ghost use Rattle.typedescriptor.specs.Slots.{next_row};
ghost use Rattle.parent.specs.Chain.{chain_step};
ghost use Rattle.qualified_name.specs.Name.{name_answer};
ghost use Rattle.refusal.specs.Guarded.{guarded};
ghost use Rattle.c_rows.specs.Numbers.{Tells, value_numbers, row_numbers, chain_step_numbers, one_number, named_row};

// 1 and the file offset of an address.
#[unsafe(no_mangle)]
pub extern "C" fn hodrupec_file_offset(segments: &[u64], vmaddr: u64, out: &mut [u64; 2]) -> u64
    ensures { Tells (mapped value_numbers (guarded segments.now (answered (file_offset (segments_of segments.now) vmaddr)))) out.old result out.new }
{
    c_rows::hodrupec_file_offset(segments, vmaddr, out)
}

// 1, place and length of the text at an offset. It takes no segments, and refuses nothing.
#[unsafe(no_mangle)]
pub extern "C" fn hodrupec_text(data: &[u8], off: usize, out: &mut [u64; 3]) -> u64
    ensures { Tells (answered (text_numbers (text_at «data».now off))) out.old result out.new }
{
    c_rows::hodrupec_text(data, off, out)
}

// The numbers of the field name at an address.
#[unsafe(no_mangle)]
pub extern "C" fn hodrupec_field_name(
    image: &[u8],
    segments: &[u64],
    strings: &[u8],
    vmaddr: u64,
    target_va: u64,
    out: &mut [u64; 3],
) -> u64
    ensures { Tells (mapped field_numbers (guarded segments.now (answered (field_name image.now segments.now strings.now vmaddr target_va)))) out.old result out.new }
{
    c_rows::hodrupec_field_name(image, segments, strings, vmaddr, target_va, out)
}

// The next row from a slot on: 1, its slot, the slot to go on from, address, flags, parent, and the name's place and length.
#[unsafe(no_mangle)]
pub extern "C" fn hodrupec_next_row(
    image: &[u8],
    segments: &[u64],
    types: &[u8],
    vmaddr: u64,
    slot: usize,
    out: &mut [u64; 8],
) -> u64
    ensures { Tells (mapped row_numbers (guarded segments.now (answered (next_row image.now segments.now types.now vmaddr slot)))) out.old result out.new }
{
    c_rows::hodrupec_next_row(image, segments, types, vmaddr, slot, out)
}

// A step of a walk that stands at an address and has given `given` contexts: 1, address, flags, the address to go on from, how many
// have then been given, and the name as 1, place and length.
#[unsafe(no_mangle)]
pub extern "C" fn hodrupec_next_context(
    image: &[u8],
    segments: &[u64],
    descriptor_va: u64,
    given: usize,
    out: &mut [u64; 8],
) -> u64
    ensures { Tells (mapped chain_step_numbers (guarded segments.now (answered (chain_step image.now segments.now descriptor_va given)))) out.old result out.new }
{
    c_rows::hodrupec_next_context(image, segments, descriptor_va, given, out)
}

// Writes the joined name of a row with this parent and this name at the buffer's start; `out` is its length.
#[unsafe(no_mangle)]
pub extern "C" fn hodrupec_qualified_name(
    image: &[u8],
    segments: &[u64],
    parent: u64,
    name_place: usize,
    name_length: usize,
    buffer: &mut [u8],
    out: &mut [u64; 1],
) -> u64
    ensures tells { Tells (mapped one_number (mapped length (guarded segments.now (name_answer image.now segments.now (named_row image.now parent name_place name_length) (length buffer.old))))) out.old result out.new }
    ensures buffer_after { buffer.new ≡ overwritten buffer.old (answer_of (guarded segments.now (name_answer image.now segments.now (named_row image.now parent name_place name_length) (length buffer.old)))) }
{
    c_rows::hodrupec_qualified_name(
        image,
        segments,
        parent,
        name_place,
        name_length,
        buffer,
        out,
    )
}
