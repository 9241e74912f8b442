// Which rule of the format a refused bundle breaks.
#![tactic(auto)]

mod rules;

pub use rules::{Broken, Rule, broken_rule};
