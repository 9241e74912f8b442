// The byte offsets of a struct's fields, by the vector in its metadata.
ghost use Rattle.runtime.specs.Runtime.{tried};
ghost use Rattle.std.specs.Prelude.{◌≡◌, Some};
ghost use Rattle.runtime.specs.Reads.{and_then, run};
ghost use Rattle.type_body.specs.Body.{of_struct, body_of};
ghost use Rattle.type_body.specs.Items.{pointer_of_block, trailers};
ghost use Rattle.field_offsets.specs.Offsets.{offsets_place, offset_in, metadata_after, static_place};

use classtrailers::{Block, BlockBody, BlockKind};
use runtime::SwiftRuntime;
use type_body::{Start, TypeBody, decode_body, singleton_metadata_pointer};

// Where the vector lies in the image, and how many numbers of four bytes it has.
#[derive(Clone, Copy)]
pub struct FieldOffsets {
    pub place: usize,
    pub count: u32,
}

fn struct_offsets(
    rt: &SwiftRuntime,
    count: u32,
    word: u32,
    metadata_va: u64,
) -> Option<FieldOffsets>
    ensures { result ≡ offsets_place rt.now.image.now (tried rt.now) (Some (of_struct count word)) metadata_va }
{
    if count == 0 || word == 0 || metadata_va == 0 {
        return None;
    }
    let distance = 8 * (word as u64);
    let vector_va = metadata_va.checked_add(distance)?;
    let length = 4 * (count as usize);
    let place = rt.find_bytes(vector_va, length)?;
    Some(FieldOffsets { place, count })
}

// The offsets of the fields of a struct whose metadata is at an address. There are none for any other body, and none unless all of them
// are in the image. By itself it would read the body from memory, in pieces of another size than it was written in.
#[inline(always)]
pub fn field_offsets(
    rt: &SwiftRuntime,
    body: Option<TypeBody>,
    metadata_va: u64,
) -> Option<FieldOffsets>
    ensures { result ≡ offsets_place rt.now.image.now (tried rt.now) (body_of body) metadata_va }
{
    match body? {
        TypeBody::Struct(fields) => struct_offsets(
            rt,
            fields.num_fields,
            fields.field_offset_vector_offset,
            metadata_va,
        ),
        TypeBody::Class(_) | TypeBody::Enum(_) => None,
    }
}

fn offset_at(image: &[u8], offsets: FieldOffsets, number: u32) -> Option<u32>
    ensures { result ≡ offset_in image.now offsets number }
{
    let FieldOffsets { place, count } = offsets;
    if count <= number || image.len() < place || image.len() - place < 4 * (count as usize) {
        return None;
    }
    util::read_u32_le_at(image, place + 4 * (number as usize))
}

// The offset of the field with this number. There is none unless the whole vector lies in the image.
pub fn field_offset(image: &[u8], offsets: Option<FieldOffsets>, number: u32) -> Option<u32>
    ensures { result ≡ and_then offsets (λ v. offset_in image.now v number) }
{
    offset_at(image, offsets?, number)
}

fn pointer_of(rt: &SwiftRuntime, block: Block) -> Option<u64>
    ensures { result ≡ run rt.now.image.now (tried rt.now) (pointer_of_block block) }
{
    let BlockBody::At(address) = block.body else {
        return None;
    };
    singleton_metadata_pointer(rt, address)
}

// The metadata's address from the singleton pointer among the blocks after a body.
fn metadata_after(
    rt: &SwiftRuntime,
    address: u64,
    flags: u32,
    body: Option<TypeBody>,
) -> Option<u64>
    ensures { result ≡ metadata_after rt.now.image.now (tried rt.now) (trailers address flags (body_of body)) }
{
    let Start { trailing, start } = type_body::trailing(address, flags, body)?;
    let kind = BlockKind::SingletonMetadataPointer;
    let block = classtrailers::block_of_kind(rt, trailing, start, kind)?;
    pointer_of(rt, block)
}

// The offsets of the fields of the descriptor with these flags at an address, for the metadata that its singleton pointer refers to.
pub fn static_field_offsets(rt: &SwiftRuntime, address: u64, flags: u32) -> Option<FieldOffsets>
    ensures { result ≡ static_place rt.now.image.now (tried rt.now) address flags }
{
    let body = decode_body(rt, address, flags);
    let metadata_va = metadata_after(rt, address, flags, body)?;
    field_offsets(rt, body, metadata_va)
}
