//! The instructions that need no operation (JVMS SE 8, 2.11.2 to 2.11.4, 2.11.6, 2.11.7, 6.5): what they make of the
//! top frame of a thread.
//!
//! [`local_step`] executes one, [`look_ahead`] says what it would come to, [`run_local`] and [`run_here`] execute many. None
//! takes memory, and nothing is copied or searched by name.
#![tactic(auto)]

mod ahead;
mod apply;
mod branches;
mod constants;
mod effect;
mod execute;
mod execute_others;
mod locals;
mod numbers;
mod operands;
mod plain;
mod quick;
mod run;
mod step;

pub use ahead::surely_moves;
pub use constants::{Constant, Constants};
pub use numbers::{long, to_byte, to_char, to_short};
pub use operands::{four, one, three, two};
pub use quick::{Quick, make_quick, make_quicks};
pub use run::{LocalRun, run_here, run_local, run_step};
pub use step::{LocalStep, local_step, look_ahead};
