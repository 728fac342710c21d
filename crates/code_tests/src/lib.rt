//! Tests of what is in a constant pool, of reading code arrays and stack map frames, of a refusal's text and number,
//! and of writing instructions and frames. The program `code_vectors` tries class files.
#![tactic(auto)]

#[cfg(test)]
mod frames;
#[cfg(test)]
mod lookups;
#[cfg(test)]
mod pool;
#[cfg(test)]
mod refusal;
#[cfg(test)]
mod steps;
#[cfg(test)]
mod write;
