//! Tests of the ordinary machine and of what it is built on, over their public calls.
#![tactic(auto)]

/// A step that a thread made: its number, the silent steps before it, the operation and the reply.
#[cfg(test)]
macro_rules! event {
    ($thread:expr, $silent:expr, $op:expr, $reply:expr) => {
        op_core::Event {
            thread: $thread,
            silent: $silent,
            op: $op,
            reply: $reply,
        }
    };
}

#[cfg(test)]
mod monitors_and_threads;
#[cfg(test)]
mod refusals;
#[cfg(test)]
mod replays;
#[cfg(test)]
mod tables;
