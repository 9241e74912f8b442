ghost use Rattle.std.specs.Prelude.{◌≡◌, ◌+◌, ◌≤◌, ◌<◌, ◌^◌};
ghost use Rattle.runtime.specs.Runtime.{tried};
ghost use Rattle.runtime.specs.Reads.{run};
ghost use Rattle.type_body.specs.Body.{sizes_at, sizes_of, class_body, class_of, struct_body, struct_of, enum_body, enum_of, body_part, body, body_of, superclass_name};

use context::{ContextDescriptorFlags, ContextDescriptorKind};
use runtime::SwiftRuntime;
use util::Place;

// The two words of a class whose meaning a resilient superclass changes: the metadata's sizes, or the address of its bounds (0 if it
// has none) and the extra class flags.
#[derive(Clone, Copy)]
pub enum ClassSizes {
    Fixed {
        negative_words: u32,
        positive_words: u32,
    },
    Resilient {
        bounds_va: u64,
        extra_class_flags: u32,
    },
}

// What follows the 20 bytes of a class. The superclass's name is looked up at its address, which is 0 if the class has none.
#[derive(Clone, Copy)]
pub struct ClassBody {
    pub superclass_va: u64,
    pub sizes: ClassSizes,
    pub num_immediate_members: u32,
    pub num_fields: u32,
    pub field_offset_vector_offset: u32,
}

#[derive(Clone, Copy)]
pub struct StructBody {
    pub num_fields: u32,
    pub field_offset_vector_offset: u32,
}

#[derive(Clone, Copy)]
pub struct EnumBody {
    pub num_payload_cases: u32,
    pub payload_size_offset: u8,
    pub num_empty_cases: u32,
}

#[derive(Clone, Copy)]
pub enum TypeBody {
    Class(ClassBody),
    Struct(StructBody),
    Enum(EnumBody),
}

// The words at 4 and 8 of a class's 24 bytes; `slot_va` is the address of the first of them. Which they are is a bit of the flags, and an
// `if` on it is the plainest way to ask for it.
fn class_sizes(header: &[u8], slot_va: u64, resilient: bool) -> ClassSizes
    ensures { sizes_of result ≡ sizes_at resilient slot_va header.now }
{
    if resilient {
        ClassSizes::Resilient {
            bounds_va: util::address_in(header, 4, slot_va),
            extra_class_flags: util::u32_at(header, 8),
        }
    } else {
        ClassSizes::Fixed {
            negative_words: util::u32_at(header, 4),
            positive_words: util::u32_at(header, 8),
        }
    }
}

// What the 24 bytes after the first 20 of a class at `address` say.
fn class_in(header: &[u8], address: u64, flags: u32) -> ClassBody
    requires { address + 44 < 2 ^ 64 }
    ensures { class_of result ≡ class_body address flags header.now }
{
    let resilient = ContextDescriptorFlags(flags)
        .type_flags()
        .class_has_resilient_superclass();
    ClassBody {
        superclass_va: util::address_in(header, 0, address + 20),
        sizes: class_sizes(header, address + 24, resilient),
        num_immediate_members: util::u32_at(header, 12),
        num_fields: util::u32_at(header, 16),
        field_offset_vector_offset: util::u32_at(header, 20),
    }
}

fn struct_in(header: &[u8]) -> StructBody
    ensures { struct_of result ≡ struct_body header.now }
{
    StructBody {
        num_fields: util::u32_at(header, 0),
        field_offset_vector_offset: util::u32_at(header, 4),
    }
}

// The low 24 bits of the first word count the payload cases, the high 8 are the payload size's word.
fn enum_in(header: &[u8]) -> EnumBody
    ensures { enum_of result ≡ enum_body header.now }
{
    let packed = util::u32_at(header, 0);
    EnumBody {
        num_payload_cases: packed % 0x100_0000,
        payload_size_offset: (packed / 0x100_0000) as u8,
        num_empty_cases: util::u32_at(header, 4),
    }
}

// The bytes that a body of this size has after the descriptor's first 20: none unless all of them are in the image and end below 2^64.
fn body_part<'a>(rt: &SwiftRuntime<'a, '_>, address: u64, size: usize) -> &'a [u8]
    requires { size ≤ 24 }
    ensures { result.now ≡ body_part rt.now.image.now (tried rt.now) address size }
{
    if address > 0xffff_ffff_ffff_ffeb - (size as u64) {
        return &rt.image[..0];
    }
    rt.read_bytes(address + 20, size)
}

// The body of the descriptor with these flags at an address: nothing if it is not a class, struct or enum, if its bytes are not in the
// image, or if its end reaches 2^64. The mapping is tried before the segments; a true mapping changes no answer.
pub fn decode_body(rt: &SwiftRuntime, address: u64, flags: u32) -> Option<TypeBody>
    ensures { body_of result ≡ run rt.now.image.now (tried rt.now) (body address flags) }
{
    match ContextDescriptorFlags(flags).kind() {
        ContextDescriptorKind::Class => {
            let header = body_part(rt, address, 24);
            if header.len() < 24 {
                return None;
            }
            Some(TypeBody::Class(class_in(header, address, flags)))
        }
        ContextDescriptorKind::Struct => {
            let header = body_part(rt, address, 8);
            if header.len() < 8 {
                return None;
            }
            Some(TypeBody::Struct(struct_in(header)))
        }
        ContextDescriptorKind::Enum => {
            let header = body_part(rt, address, 8);
            if header.len() < 8 {
                return None;
            }
            Some(TypeBody::Enum(enum_in(header)))
        }
        ContextDescriptorKind::Module
        | ContextDescriptorKind::Extension
        | ContextDescriptorKind::Anonymous
        | ContextDescriptorKind::Protocol
        | ContextDescriptorKind::OpaqueType
        | ContextDescriptorKind::Other(_) => None,
    }
}

// The name of a class's superclass; `util::text_part` returns the part of the image. There is none for any other body.
pub fn superclass_name(rt: &SwiftRuntime, body: Option<TypeBody>) -> Option<Place>
    ensures { result ≡ superclass_name rt.now.image.now (tried rt.now) (body_of body) }
{
    match body? {
        TypeBody::Class(class) => rt.read_cstr(class.superclass_va),
        TypeBody::Struct(_) | TypeBody::Enum(_) => None,
    }
}
