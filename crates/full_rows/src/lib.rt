// The rows of a types section with body and all trailing blocks in one call, as records of a fixed number of numbers in the caller's list.
// The call tests its segments before anything else (refusals 1 and 9).
#![tactic(auto, unfolding(refusal::specs::Guarded::guarded))]

mod calls;
mod rows;

pub use calls::full_rows;
pub use rows::{Given, Recorded, numbers_of, write_body};
