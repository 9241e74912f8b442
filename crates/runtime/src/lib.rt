// Bytes and texts at an address: what darwinscope's src/swift/mod.rs, section.rs and reflstr.rs do for the readers above.
#![tactic(auto)]

mod reads;
mod reflstr;

pub use reads::{SwiftRuntime, SwiftSection, vm_to_file_offset};
pub use reflstr::{FieldName, field_name_part};
