//! What a Java thread does next where operations are needed, as data: [`Todo`](frame_snapshot::Todo) is what is left of
//! an instruction, and `specs/Todos.antt` says which plan of `java_rows` it stands for.
//!
//! [`Here`] is where a thread is. Its calls return what is to be done; nothing is changed, and no memory is taken.
#![tactic(auto)]

mod arrays;
mod begin;
mod calls;
mod fields;
mod here;
mod initializing;
mod invoking;
mod leaving;
mod natives;
mod objects;
mod operands;
mod pool;
mod program;
mod reached;
mod uses;
mod values;

pub use here::Here;
pub use program::JavaProgram;
pub use reached::Reached;
pub use values::with_operands;
