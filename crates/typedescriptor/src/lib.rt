// Type rows, carried over from darwinscope's src/swift/typedescriptor.rs: the types section is a list of relative pointers, one to
// a slot, to descriptors in the image.
#![tactic(auto)]

mod descriptor;
mod iter;

pub use descriptor::Row;
pub use iter::{SlotRow, TypeIter, TypeStep, slot_descriptor, slot_row, slot_row_moving};
