//! Whether class files are a program that is executed (JVMS SE 8, 4.1 to 4.10.1, 5.3 to 5.5): [`accept`] reads, decodes,
//! links and verifies them, in this order. `specs/Accepted.antt` says when a program is accepted, and what another one
//! is refused for.
#![tactic(auto)]

mod decoding;
mod main_method;
mod program;
mod reading;
mod refusal;

pub use program::{Program, accept};
pub use refusal::{AcceptRefusal, Refusal, Stage};
pub use subset_verify::World;
