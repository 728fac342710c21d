//! Tests of the crates that read and write class files, over their public calls: the walk through a file, its reader
//! and its writer.
#![tactic(auto)]

#[cfg(test)]
mod class_one;
#[cfg(test)]
mod codes;
#[cfg(test)]
mod reads;
#[cfg(test)]
mod walks;
