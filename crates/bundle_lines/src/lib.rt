// The printed listing of a bundle.
#![tactic(auto)]

mod lines;

pub use lines::{BundleLineIter, LINES, PrintedLine, start};
