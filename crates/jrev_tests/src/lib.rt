//! Tests of the top call, over folders and streams in memory.
#![tactic(auto)]

#[cfg(test)]
mod failing;
#[cfg(test)]
mod loading;
#[cfg(test)]
mod making;
#[cfg(test)]
mod naming;
#[cfg(test)]
mod stressing;
#[cfg(test)]
mod words;
