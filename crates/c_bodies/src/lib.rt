// Bodies, singleton records and texts at an address for programs in C or Rust, by the rules of the crate `c_rows`.
#![tactic(auto)]

mod bodies;
mod singletons;
