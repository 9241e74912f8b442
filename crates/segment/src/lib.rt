// Between addresses and file offsets, carried over from darwinscope's src/util.rs. A crate of its own: nothing here needs the rest of util, and
// its proofs are long.
#![tactic(auto)]

mod file_offset;
mod segment;

pub use file_offset::file_offset_to_vm_in;
pub use segment::{
    Mapping, NO_MAPPING, Segment, from_numbers, locate, locate_near, vm_to_file_offset_in,
    vm_to_file_offset_near,
};
