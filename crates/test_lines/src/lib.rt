// Reads the fields of the test programs' lines.
#![tactic(auto)]

mod hex;
mod input;
mod line;

pub use hex::{digit, parse_bytes, parse_list, parse_number, parse_numbers};
pub use input::read_full;
pub use line::{after_line, field, find, first, line_at};
