// What lies in an opened bundle: the image, its sections and its segments. And which bundles are accepted, segments and all.
#![tactic(auto)]

mod accepted;
mod parts;
mod segments;

pub use accepted::accept_bundle;
pub use parts::{fields_part, image_part, strings_part, types_part};
pub use segments::{SEGMENT_NUMBERS, segment, segment_numbers};
