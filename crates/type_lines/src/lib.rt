// The lines of the printed listing.
#![tactic(auto)]

mod digits;
mod lines;

pub use lines::{LINE_BYTES, Line, LineIter, next_line, refused_line};
