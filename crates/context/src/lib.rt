// Kinds and flags of Swift's descriptors, carried over from darwinscope's src/swift/context.rs: functions of the number alone.
#![tactic(auto)]

mod bits;
mod conformance;
mod descriptor;
mod field;
mod method;
mod types;

pub use conformance::ConformanceFlags;
pub use descriptor::{ContextDescriptorFlags, ContextDescriptorKind};
pub use field::{FieldDescriptorKind, FieldRecordFlags};
pub use method::{MethodDescriptorFlags, SwiftMethodKind};
pub use types::{MetadataInitializationKind, TypeContextDescriptorFlags, TypeReferenceKind};
