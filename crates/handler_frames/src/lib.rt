//! The exception handlers that cover an instruction (JVMS SE 8, 4.10.1.6): each takes the locals there and what it
//! catches. A walk over a method's instructions asks at each of them, and pays for what has changed since the last.
#![tactic(auto)]

mod covering;
mod find;
mod join;
mod method;
mod ordered;
mod span;

pub use covering::CoveringHandlers;
pub use method::MethodHandlers;
