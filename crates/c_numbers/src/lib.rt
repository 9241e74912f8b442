// The readers of numbers, texts and flag words for programs in C or Rust, by the rules of the crate `c_rows`. They are compared with the
// Rust, and no listing needs them. They are exported by `c_numbers_c`, since other crates use this one too.
#![tactic(auto)]

mod flags;
mod readers;

pub use flags::{
    field_kind_number, hodrupec_class_flags, hodrupec_conformance_flags, hodrupec_context_flags,
    hodrupec_field_flags, hodrupec_field_kind, hodrupec_method_flags, hodrupec_type_flags,
};
pub use readers::{
    hodrupec_fixed_text, hodrupec_sleb128, hodrupec_u32_be, hodrupec_u64_be, hodrupec_uleb128,
    hodrupec_vm_address,
};
