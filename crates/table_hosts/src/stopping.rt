//! The host's steps on the stop word.

ghost use Rattle.std.specs.Prelude.{◌≡◌, ℕ, nat_eq, not};
ghost use Rattle.step_port.specs.declared.answer.StepAnswer.{StepAnswer};
ghost use Rattle.step_port.specs.declared.step.Step.{Step};
ghost use Rattle.table_hosts.specs.Seated.{StandsOn};
ghost use Rattle.table_hosts.specs.HostSteps.{HostStepped};

use crate::SeatedThread;
use op_core::ThreadCode;
use step_port::StepPort;
use table_words::TableWords;

/// Looks at the stop word for the host, by the seat of a thread, which goes on from where it is. Answers the thread, and whether
/// the word is set. It takes no memory.
pub fn load_stop<C: ThreadCode + Drop>(
    table: &TableWords<C>,
    seated: SeatedThread<C>,
) -> (SeatedThread<C>, bool)
    requires { StandsOn C.state C.saved C.code table.now seated }
    ensures { (word : ℕ) × (result.1 ≡ not (nat_eq word 0)) × HostStepped C.state C.saved C.code table.now Step.LoadStop (StepAnswer.Found word) seated result.0 }
{
    let SeatedThread { thread, seat } = seated;
    let mut port = table.port(seat);
    let is_set = port.load_stop();
    let seat = port.into_seat();
    (SeatedThread { thread, seat }, is_set)
}

/// Sets the stop word for the host, by the seat of a thread, which goes on from where it is. It takes no memory.
pub fn set_stop<C: ThreadCode + Drop>(
    table: &TableWords<C>,
    seated: SeatedThread<C>,
) -> SeatedThread<C>
    requires { StandsOn C.state C.saved C.code table.now seated }
    ensures { HostStepped C.state C.saved C.code table.now Step.SetStop StepAnswer.Done seated result }
{
    let SeatedThread { thread, seat } = seated;
    let mut port = table.port(seat);
    port.set_stop();
    let seat = port.into_seat();
    SeatedThread { thread, seat }
}
