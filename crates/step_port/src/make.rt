//! One step made through a port, by the call of its kind.

ghost use Rattle.std.specs.Prelude.{◌≡◌, ◌<◌};
ghost use Rattle.step_port.specs.Steps.{effect_of, IsOwnStep, IsStore};
ghost use Rattle.step_port.specs.Words.{exchanged, CanAnswer};
ghost use Rattle.step_port.specs.declared.answer.StepAnswer.{StepAnswer};

use crate::{Step, StepAnswer, StepPort};

/// Makes one step of a thread's own through a port, which must allow it. The steps of the host, and the one that
/// hands a thread out, aren't made so. Takes no memory.
pub fn make_step<P: StepPort>(port: &mut P, step: Step) -> StepAnswer
    requires own { IsOwnStep step }
    requires allowed { P.allows port.old step }
    ensures made { P.stepped port.old step result port.new }
    ensures kind { CanAnswer (effect_of step) result }
{
    match step {
        Step::LoadWord(at) => StepAnswer::Found(port.load_word(at)),
        Step::SwapWord(at, old, new) => answer_to_exchange(port.swap_word(at, old, new)),
        Step::DrawSection => StepAnswer::Found(port.draw_section()),
        Step::LoadSection(section) => StepAnswer::Found(port.load_section(section)),
        Step::Pin(section, old, level) => answer_to_exchange(port.pin(section, old, level)),
        Step::Revoke(section, old, level) => answer_to_exchange(port.revoke(section, old, level)),
        Step::Commit(section, old) => answer_to_exchange(port.commit(section, old)),
        Step::OpenLevel(section, old) => answer_to_exchange(port.open_level(section, old)),
        Step::CloseLevel(section, old, depth) => {
            answer_to_exchange(port.close_level(section, old, depth))
        }
        Step::LoadMonitor(object) => StepAnswer::Found(port.load_monitor(object)),
        Step::TakeMonitor(object, new) => answer_to_exchange(port.take_monitor(object, new)),
        Step::TakeWords(count) => StepAnswer::Found(port.take_words(count)),
        Step::Ticket => StepAnswer::Found(port.ticket()),
        Step::DrawThread => StepAnswer::Found(port.draw_thread()),
        Step::StartThread(object, thread) => answer_to_exchange(port.start_thread(object, thread)),
        Step::LoadThread(which) => StepAnswer::Found(port.load_thread(which)),
        Step::Notify(thread, old) => answer_to_exchange(port.notify(thread, old)),
        Step::LoadWait(thread) => StepAnswer::Found(port.load_wait(thread)),
        Step::LoadClass(class) => StepAnswer::Found(port.load_class(class)),
        Step::ClaimClass(class, thread) => answer_to_exchange(port.claim_class(class, thread)),
        Step::RestoreWord(_, _)
        | Step::OpenSection(_, _)
        | Step::MarkUndone(_, _)
        | Step::SetDepth(_, _)
        | Step::Release(_)
        | Step::SetHeader(_, _)
        | Step::EndThread(_)
        | Step::SetWait(_, _)
        | Step::SettleClass(_, _) => {
            make_store(port, step);
            StepAnswer::Done
        }
        Step::LoadStop
        | Step::SetStop
        | Step::Split(_, _, _)
        | Step::LookMonitor(_)
        | Step::LookSection(_)
        | Step::BreakLevel(_, _, _) => unreachable!(),
    }
}

fn make_store<P: StepPort>(port: &mut P, step: Step)
    requires own { IsOwnStep step }
    requires store { IsStore step }
    requires allowed { P.allows port.old step }
    ensures { P.stepped port.old step StepAnswer.Done port.new }
{
    match step {
        Step::RestoreWord(at, old) => port.restore_word(at, old),
        Step::OpenSection(section, word) => port.open_section(section, word),
        Step::MarkUndone(section, word) => port.mark_undone(section, word),
        Step::SetDepth(object, new) => port.set_depth(object, new),
        Step::Release(object) => port.release(object),
        Step::SetHeader(object, word) => port.set_header(object, word),
        Step::EndThread(thread) => port.end_thread(thread),
        Step::SetWait(thread, word) => port.set_wait(thread, word),
        Step::SettleClass(class, word) => port.settle_class(class, word),
        _ => unreachable!(),
    }
}

fn answer_to_exchange(exchange: Result<(), u64>) -> StepAnswer
    ensures { result ≡ exchanged exchange }
{
    match exchange {
        Ok(()) => StepAnswer::Done,
        Err(found) => StepAnswer::Lost(found),
    }
}
