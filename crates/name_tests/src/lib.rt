//! Tests of the names, descriptors and texts of class files, over the public calls of `class_names`.
#![tactic(auto)]

#[cfg(test)]
mod descriptors;
#[cfg(test)]
mod names;
#[cfg(test)]
mod texts;
