//! Tests of runs of the ordinary machine that follow a schedule, over their public calls.
#![tactic(auto)]

#[cfg(test)]
mod limits;
#[cfg(test)]
mod runs;
#[cfg(test)]
mod setting;
