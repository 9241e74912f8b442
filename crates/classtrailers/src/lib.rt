// The blocks that trail a class, a struct or an enum descriptor, carried over from darwinscope's src/swift/classtrailers.rs.
#![tactic(auto)]

mod block;
mod decode;
mod iter;
mod trailing;

pub use block::{Block, BlockBody, BlockKind, Ended};
pub use decode::block_at;
pub use iter::{BlockIter, BlockStep, block_of_kind};
pub use trailing::{Trailing, kind_numbered, kind_there, number_of};
