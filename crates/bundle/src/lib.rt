// The bundle: an image with its segments and three sections, in one list of bytes.
#![tactic(auto)]

mod open;

pub use open::{BUNDLE_BYTES, IMAGE, Layout, SEGMENTS, Section, body_fits, open_bundle};
