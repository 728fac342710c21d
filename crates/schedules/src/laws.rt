//! Laws of all runs that follow a schedule, each as the contract of a function with no parameters and an
//! empty body, for the crates above to cite.

ghost use Rattle.schedules.specs.Laws.{RunsHaveOneEnd, RunsGoOn, ThreadsAreListed};

/// What gives turns to threads, for the laws: a machine that runs them, with its counts and limits.
pub trait GivesTurns {
    ghost use Rattle.schedules.specs.Run.{TurnSystem};

    /// The states that turns lead to.
    ghost State: { Type 0 };

    /// What each state shows of the threads, and what a turn makes of it.
    ghost system: { TurnSystem State };
}

/// Where a turn comes to one thing alone, a schedule has one run from each beginning.
pub fn runs_have_one_end<T: GivesTurns>()
    ensures { RunsHaveOneEnd T.system }
{}

/// Turns that follow a schedule go on after others that do.
pub fn runs_go_on<T: GivesTurns>()
    ensures { RunsGoOn T.system }
{}

/// The list of the enabled threads, from which one is picked, is made by asking one number after another.
pub fn threads_are_listed<T: GivesTurns>()
    ensures { ThreadsAreListed T.system }
{}
