// LEB128 numbers, carried over from darwinscope's src/util.rs. A crate of its own: their proofs are long, and nothing else needs them.
#![tactic(auto)]

mod leb128;

pub use leb128::{Leb128, Sleb128, Uleb128, read_sleb128, read_uleb128};
