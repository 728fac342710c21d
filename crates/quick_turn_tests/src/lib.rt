//! Tests of usual turns of threads, over public calls.
#![tactic(auto)]

#[cfg(test)]
mod cases;
#[cfg(test)]
mod port;
#[cfg(test)]
mod random;
#[cfg(test)]
mod run;
#[cfg(test)]
mod slices;
