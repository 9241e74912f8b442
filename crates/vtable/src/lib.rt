// The entries of a class's tables and of the prespecializations, carried over from darwinscope's src/swift/vtable.rs and
// classtrailers.rs.
#![tactic(auto)]

mod entry;
mod iter;
mod shape;
mod walk;

pub use entry::{EntryKind, TableEntry, entry_address, entry_bytes};
pub use iter::{EntryIter, EntryStep};
pub use shape::{Shape, Word};
pub use walk::{MethodWalk, method_step, method_walk, walk_step};
