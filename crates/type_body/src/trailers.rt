ghost use Rattle.std.specs.Prelude.{◌≡◌, ◌+◌};
ghost use Rattle.type_body.specs.Body.{extra_flags, sizes_of, body_of};
ghost use Rattle.type_body.specs.Items.{start_below, trailers};

use crate::body::{ClassSizes, TypeBody};
use classtrailers::Trailing;

// What a walk over the blocks of a descriptor starts from: what decides which blocks there are, and the address of the first.
#[derive(Clone, Copy)]
pub struct Start {
    pub trailing: Trailing,
    pub start: u64,
}

fn extra_flags(sizes: ClassSizes) -> u32
    ensures { result ≡ extra_flags (sizes_of sizes) }
{
    match sizes {
        ClassSizes::Fixed {
            negative_words: _,
            positive_words: _,
        } => 0,
        ClassSizes::Resilient {
            bounds_va: _,
            extra_class_flags,
        } => extra_class_flags,
    }
}

// What follows a descriptor of `length` bytes, its body among them.
fn trailing_after(
    address: u64,
    flags: u32,
    is_class: bool,
    extra: u32,
    length: u64,
) -> Option<Start>
    ensures { result ≡ start_below (record { trailing = record { flags = flags; is_class = is_class; extra = extra }; start = address + length }) }
{
    let start = address.checked_add(length)?;
    Some(Start {
        trailing: Trailing {
            flags,
            is_class,
            extra,
        },
        start,
    })
}

// What follows the body of a descriptor at an address. Nothing follows where there is no body, or where it would start at or above 2^64.
pub fn trailing(address: u64, flags: u32, body: Option<TypeBody>) -> Option<Start>
    ensures { result ≡ trailers address flags (body_of body) }
{
    match body? {
        TypeBody::Class(class) => {
            trailing_after(address, flags, true, extra_flags(class.sizes), 44)
        }
        TypeBody::Struct(_) | TypeBody::Enum(_) => trailing_after(address, flags, false, 0, 28),
    }
}
