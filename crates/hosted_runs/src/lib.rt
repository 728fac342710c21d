//! Threads that share words and that several host threads give turns at once, from an opening to what comes of them.
#![tactic(auto)]

mod running;

pub use running::run_hosted;
