//! The frame of a walk over a method's instructions (JVMS SE 8, 4.10.1.6), whose locals and stack are lists that share
//! their parts. Contracts see a [`CurrentFrame`] as the frame of the rules that it stands for (`shown`).
#![tactic(auto)]

mod changes;
mod compare;
mod same;
mod stop;
mod stores;

pub use stop::CheckStop;
pub use stores::{CurrentFrame, FrameStores};
