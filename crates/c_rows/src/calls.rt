ghost use Rattle.std.specs.Prelude.{◌≡◌, List, ℕ, length};
ghost use Rattle.refusal.specs.Refusal.{answered, mapped, answer_of, outcome};
ghost use Rattle.util.specs.Buffer.{overwritten};
ghost use Rattle.segment.specs.Segments.{file_offset, segments_of};
ghost use Rattle.util.specs.Cstr.{text_at};
ghost use Rattle.runtime.specs.FieldName.{field_name, field_name_of};
ghost use Rattle.runtime.specs.PlaceNumbers.{text_numbers, field_numbers};
ghost use Rattle.typedescriptor.specs.Slots.{next_row, type_step_of};
ghost use Rattle.parent.specs.Chain.{chain_step, parent_step_of};
ghost use Rattle.qualified_name.specs.Name.{name_answer};
ghost use Rattle.refusal.specs.Guarded.{guarded};
ghost use Rattle.c_rows.specs.Numbers.{Tells, value_numbers, row_numbers, chain_step_numbers, one_number, named_row};

use parent::{ParentChain, ParentStep};
use refusal::Refusal;
use runtime::{FieldName, SwiftRuntime, SwiftSection};
use typedescriptor::{Row, TypeIter, TypeStep};
use util::Place;

// The status of a call that answers. A status is a number, since programs in C read it.
pub const ANSWERED: u64 = 0;

// The first number of an answer: that there is something, and for a field name that it lies in the string section.
pub const THERE: u64 = 1;

const IN_STRINGS: u64 = 2;

// Writes the numbers of a call's answer, and returns the status.
pub fn tell<const N: usize>(answer: Result<[u64; N], Refusal>, out: &mut [u64; N]) -> u64
    ensures { Tells (outcome answer.entry) out.old result out.new }
{
    match answer {
        Ok(numbers) => {
            *out = numbers;
            ANSWERED
        }
        Err(refusal) => u64::from(refusal),
    }
}

// 1 and a number.
pub fn value_numbers(value: Option<u64>) -> [u64; 2]
    ensures { result ≡ value_numbers value }
{
    match value {
        Some(number) => [THERE, number],
        None => [0; 2],
    }
}

// 1, place and length of a text.
pub fn text_numbers(text: Option<Place>) -> [u64; 3]
    ensures { result ≡ text_numbers text }
{
    match text {
        Some(place) => [THERE, place.start as u64, place.size as u64],
        None => [0; 3],
    }
}

// 1 for a name in the image, 2 for one in the string section, and its place and length.
pub fn field_name_numbers(name: Option<FieldName>) -> [u64; 3]
    ensures { result ≡ field_numbers (field_name_of name) }
{
    match name {
        Some(FieldName::Image(place)) => [THERE, place.start as u64, place.size as u64],
        Some(FieldName::Strings(place)) => [IN_STRINGS, place.start as u64, place.size as u64],
        None => [0; 3],
    }
}

// Tells a number, a text or a field's name, or that there is none.
pub fn tell_value(answer: Result<Option<u64>, Refusal>, out: &mut [u64; 2]) -> u64
    ensures { Tells (mapped value_numbers (outcome answer)) out.old result out.new }
{
    tell(answer.map(value_numbers), out)
}

pub fn tell_text(answer: Result<Option<Place>, Refusal>, out: &mut [u64; 3]) -> u64
    ensures { Tells (mapped text_numbers (outcome answer)) out.old result out.new }
{
    tell(answer.map(text_numbers), out)
}

pub fn tell_field_name(answer: Result<Option<FieldName>, Refusal>, out: &mut [u64; 3]) -> u64
    ensures { Tells (mapped field_numbers (mapped field_name_of (outcome answer))) out.old result out.new }
{
    tell(answer.map(field_name_numbers), out)
}

// The numbers of the next row, as the call below tells them.
fn row_numbers(step: Option<TypeStep>) -> [u64; 8]
    ensures { (image : List ℕ) → result ≡ row_numbers (type_step_of image step) }
{
    match step {
        Some(step) => {
            let row = step.row;
            [
                THERE,
                step.slot as u64,
                step.next.slot as u64,
                row.address,
                u64::from(row.flags),
                row.parent,
                row.name.start as u64,
                row.name.size as u64,
            ]
        }
        None => [0; 8],
    }
}

// The numbers of the next context, as the call below tells them.
fn context_numbers(step: Option<ParentStep>) -> [u64; 8]
    ensures { (image : List ℕ) → result ≡ chain_step_numbers (parent_step_of image step) }
{
    match step {
        Some(step) => {
            let context = step.context;
            let name = text_numbers(context.name);
            [
                THERE,
                context.address,
                u64::from(context.flags),
                step.next.next_descriptor_va,
                step.next.given as u64,
                name[0],
                name[1],
                name[2],
            ]
        }
        None => [0; 8],
    }
}

#[tactic(auto, unfolding(refusal::specs::Guarded::guarded))]
fn file_offset(segments: &[u64], vmaddr: u64) -> Result<Option<u64>, Refusal>
    ensures { outcome result ≡ guarded segments.now (answered (file_offset (segments_of segments.now) vmaddr)) }
{
    refusal::find_fault(segments)?;
    Ok(segment::vm_to_file_offset_in(segments, vmaddr))
}

// 1 and the file offset of an address.
pub fn hodrupec_file_offset(segments: &[u64], vmaddr: u64, out: &mut [u64; 2]) -> u64
    ensures { Tells (mapped value_numbers (guarded segments.now (answered (file_offset (segments_of segments.now) vmaddr)))) out.old result out.new }
{
    tell_value(file_offset(segments, vmaddr), out)
}

// 1, place and length of the text at an offset. It takes no segments, and refuses nothing.
pub fn hodrupec_text(data: &[u8], off: usize, out: &mut [u64; 3]) -> u64
    ensures { Tells (answered (text_numbers (text_at «data».now off))) out.old result out.new }
{
    *out = text_numbers(util::read_cstr_at(data, off));
    ANSWERED
}

#[tactic(auto, unfolding(refusal::specs::Guarded::guarded))]
fn field_name(
    image: &[u8],
    segments: &[u64],
    strings: &[u8],
    vmaddr: u64,
    target_va: u64,
) -> Result<Option<FieldName>, Refusal>
    ensures { mapped field_name_of (outcome result) ≡ guarded segments.now (answered (field_name image.now segments.now strings.now vmaddr target_va)) }
{
    refusal::find_fault(segments)?;
    let strings = SwiftSection {
        body: strings,
        vmaddr,
    };
    Ok(SwiftRuntime::new(image, segments).lookup_field_name(strings, target_va))
}

// The numbers of the field name at an address.
pub fn hodrupec_field_name(
    image: &[u8],
    segments: &[u64],
    strings: &[u8],
    vmaddr: u64,
    target_va: u64,
    out: &mut [u64; 3],
) -> u64
    ensures { Tells (mapped field_numbers (guarded segments.now (answered (field_name image.now segments.now strings.now vmaddr target_va)))) out.old result out.new }
{
    tell_field_name(field_name(image, segments, strings, vmaddr, target_va), out)
}

// The next row from a slot on: 1, its slot, the slot to go on from, address, flags, parent, and the name's place and length.
pub fn hodrupec_next_row(
    image: &[u8],
    segments: &[u64],
    types: &[u8],
    vmaddr: u64,
    slot: usize,
    out: &mut [u64; 8],
) -> u64
    ensures { Tells (mapped row_numbers (guarded segments.now (answered (next_row image.now segments.now types.now vmaddr slot)))) out.old result out.new }
{
    let step = steps::next_row(image, segments, types, vmaddr, TypeIter { slot });
    tell(step.map(row_numbers), out)
}

// A step of a walk that stands at an address and has given `given` contexts: 1, address, flags, the address to go on from, how many
// have then been given, and the name as 1, place and length.
pub fn hodrupec_next_context(
    image: &[u8],
    segments: &[u64],
    descriptor_va: u64,
    given: usize,
    out: &mut [u64; 8],
) -> u64
    ensures { Tells (mapped chain_step_numbers (guarded segments.now (answered (chain_step image.now segments.now descriptor_va given)))) out.old result out.new }
{
    let walk = ParentChain {
        next_descriptor_va: descriptor_va,
        given,
    };
    tell(
        steps::next_context(image, segments, walk).map(context_numbers),
        out,
    )
}

fn one_number(length: usize) -> [u64; 1]
    ensures { result ≡ one_number length }
{
    [length as u64]
}

// Writes the joined name of a row with this parent and this name at the buffer's start; `out` is its length.
pub fn hodrupec_qualified_name(
    image: &[u8],
    segments: &[u64],
    parent: u64,
    name_place: usize,
    name_length: usize,
    buffer: &mut [u8],
    out: &mut [u64; 1],
) -> u64
    ensures tells { Tells (mapped one_number (mapped length (guarded segments.now (name_answer image.now segments.now (named_row image.now parent name_place name_length) (length buffer.old))))) out.old result out.new }
    ensures buffer_after { buffer.new ≡ overwritten buffer.old (answer_of (guarded segments.now (name_answer image.now segments.now (named_row image.now parent name_place name_length) (length buffer.old)))) }
{
    let row = Row {
        address: 0,
        flags: 0,
        parent,
        name: Place {
            start: name_place,
            size: name_length,
        },
    };
    tell(
        steps::joined_name(image, segments, row, buffer).map(one_number),
        out,
    )
}
