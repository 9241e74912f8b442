// The offsets of a struct's fields, carried over from darwinscope's src/swift/typedescriptor.rs: the vector in its metadata.
#![tactic(auto)]

mod offsets;

pub use offsets::{FieldOffsets, field_offset, field_offsets, static_field_offsets};
