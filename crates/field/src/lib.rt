// The fields section and its records, carried over from darwinscope's src/swift/field.rs.
#![tactic(auto)]

mod iter;
mod record;

pub use iter::{FieldDescriptor, FieldIter, FieldStep, mangled_type_name, superclass_mangled_name};
pub use record::{FieldRecord, FieldRecordIter, FieldRecordStep, field_name, record_type_name};
