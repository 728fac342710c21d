//! What is told of a refusal: its line, the rule that the program breaks, and what to do.
#![tactic(auto)]

mod laws;
mod rule;
mod stages;
mod table;
mod telling;

pub use laws::each_kind_has_a_rule;
pub use rule::Rule;
pub use telling::{refusal_text, rule_of};
