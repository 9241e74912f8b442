// What is certain by an image's first bytes: whether a row of their listing, or its joined name, is that of every image that starts with them.
#![tactic(auto)]

mod calls;
mod chain;
mod reads;
mod row;

pub use calls::{name_certain, row_certain};
