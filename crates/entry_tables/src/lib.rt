// Whole tables of entries in one call: the methods, overrides, default overrides and prespecializations of a type, and the records of a
// field descriptor, into the caller's list of numbers. Each call tests its segments before anything else (refusals 1
// and 9).
#![tactic(auto)]

mod calls;
mod list;
mod window;

pub use calls::{default_overrides, field_records, methods, overrides, prespecializations};
pub use list::{Listed, Stop, stopped};
