//! Tests of linking: which program is refused, why and where.
#![tactic(auto)]

#[cfg(test)]
mod programs;
#[cfg(test)]
mod supers;
