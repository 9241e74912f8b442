// The contexts that enclose a type, carried over from darwinscope's src/swift/parent.rs.
#![tactic(auto)]

mod chain;
mod header;

pub use chain::{CONTEXTS, ParentChain, ParentStep};
pub use header::{
    ContextHeader, ParentContext, has_name, read_context, read_context_name, read_header,
};
