//! The stack map frames of a method (JVMS SE 8, 4.7.4, 4.10.1.4), made one from the other, so that what two of them
//! share is kept once; and what comes to an instruction where there is one.
#![tactic(auto)]

mod entry;
mod here;
mod items;
mod make;
mod mapped;
mod pool;
mod stack;
mod takes;
mod words;

pub use entry::MethodEntry;
pub use here::frame_here;
pub use mapped::{MapFrames, MappedFrame};
pub use pool::{PoolOperands, object_type};
