//! Tests of the words that threads share and of what is built on them, over their public calls.
#![tactic(auto)]

#[cfg(test)]
mod areas;
#[cfg(test)]
mod contention;
#[cfg(test)]
mod logs;
#[cfg(test)]
mod packings;
#[cfg(test)]
mod sections;
#[cfg(test)]
mod setting;
#[cfg(test)]
mod steps;
