//! Tests of runs on several host threads, over public calls.
#![tactic(auto)]

#[cfg(test)]
mod ends;
#[cfg(test)]
mod gates;
#[cfg(test)]
mod left;
#[cfg(test)]
mod running;
