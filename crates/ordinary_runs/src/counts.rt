//! How many turns of each thread counted.

ghost use Rattle.std.specs.Prelude.{◌≡◌, ◌+◌, ◌<◌, ◌^◌};
ghost use Rattle.op_core.specs.OrdinaryState.{set_at};
ghost use Rattle.ordinary_runs.specs.Turns.{count_in};

/// How many turns of each thread counted, by the thread's number.
#[derive(Clone, Copy)]
pub(crate) struct TurnCounts {
    counts: [u64; 256],
}

impl TurnCounts {
    /// None yet.
    pub(crate) fn new() -> Self
        ensures { count_in result ≡ (λ _. 0) }
    {
        TurnCounts { counts: [0; 256] }
    }

    pub(crate) fn of(&self, thread: u8) -> u64
        ensures { result ≡ count_in self.now thread }
    {
        self.counts[thread as usize]
    }

    pub(crate) fn add(&mut self, thread: u8, turns: u64)
        requires { count_in self.old thread + turns < 2 ^ 64 }
        ensures { count_in self.new ≡ set_at (count_in self.old) thread (count_in self.old thread + turns) }
    {
        self.counts[thread as usize] += turns;
    }
}
