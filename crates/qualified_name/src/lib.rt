// The joined name of a type, carried over from darwinscope's src/swift/parent.rs.
#![tactic(auto)]

mod name;

pub use name::{around_parent, qualified_name, qualified_name_near};
