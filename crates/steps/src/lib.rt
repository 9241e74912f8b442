// The product's calls over an image, its segments and its sections, with their refusals. They take these one by one, as a caller in C hands
// them over and docs/CALLS.md names them; each makes a `SwiftRuntime` of them for the readers.
#![tactic(auto, unfolding(refusal::specs::Guarded::guarded))]

mod blocks;
mod bodies;
mod contexts;
mod entries;
mod fields;
mod offsets;
mod rows;
mod singletons;

pub use blocks::{block_of_kind, block_walk, next_block};
pub use bodies::{row_body, superclass_name, text_at};
pub use contexts::{joined_name, next_context};
pub use entries::{next_entry, next_method};
pub use fields::{
    descriptor_superclass_name, descriptor_type_name, field_name, field_type_name, next_field,
    next_field_record,
};
pub use offsets::{field_offsets, static_field_offsets};
pub use rows::next_row;
pub use singletons::{singleton_init, singleton_pointer};
