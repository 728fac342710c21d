//! Where a thread is in a method of String or StringBuilder that reads or makes texts, and what holds of these texts.
//!
//! A crate of definitions and laws: `specs/Stages.antt` has the stages as data, and `Laws` that they are the plans of
//! `java_rows`; `Reading` and `Making` say what the methods read and leave in objects and words.
#![tactic(auto)]

pub mod laws;
