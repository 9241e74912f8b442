// What belongs to a type row, carried over from darwinscope's src/swift/typedescriptor.rs: its body, the start of its trailing blocks, and
// the singleton records.
#![tactic(auto)]

mod body;
mod singleton;
mod trailers;

pub use body::{
    ClassBody, ClassSizes, EnumBody, StructBody, TypeBody, decode_body, superclass_name,
};
pub use singleton::{SingletonMetadataInit, singleton_metadata_init, singleton_metadata_pointer};
pub use trailers::{Start, trailing};
