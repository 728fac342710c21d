//! Tests of runs of the ordinary machine, over public calls.
#![tactic(auto)]

#[cfg(test)]
mod advancing;
#[cfg(test)]
mod scheduling;
#[cfg(test)]
mod toys;
