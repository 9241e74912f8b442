// The records of a field descriptor with both names in one call, ten numbers each in the caller's list. The call tests its segments
// before anything else (refusals 1 and 9).
#![tactic(auto)]

mod calls;
mod records;

pub use calls::named_records;
