//! What a thread makes of the monitors that it has loaded, and how it takes and leaves them.

ghost use Rattle.std.specs.Prelude.{◌≡◌, true};
ghost use Rattle.monitor_core.specs.Monitors.{is_own};
ghost use Rattle.thread_automaton.specs.Monitors.{monitor_wanted, entry, take_for, deepened, needs_level, entering_free, entering_own, entering, leaving, exiting, monitor_loaded, let_go, depth_set};
ghost use Rattle.thread_automaton.specs.Changes.{without};
ghost use Rattle.thread_moves.specs.Thread.{thread_of};
ghost use Rattle.thread_moves.specs.Change.{change_meant, IsPlain};

use crate::next_move::held_word;
use crate::{JThread, ThreadChange};
use monitor_core::{MonitorWord, is_own};
use op_core::{Limit, Next, Op, Reply, ThreadCode};
use step_port::Step;
use thread_automaton::{Attempt, Held};

// The monitor that is to be entered or left.
pub(crate) fn monitor_wanted(next: Next) -> u32
    ensures { result ≡ monitor_wanted next }
{
    match next {
        Next::Want(Op::Enter(object) | Op::Exit(object) | Op::Wait(object) | Op::Rewake(object)) =>
            { object }
        _ => 0,
    }
}

impl<C: ThreadCode> JThread<C> {
    // The wanted monitor, once it is taken with this open depth.
    pub(crate) fn entry(&self, next: Next, levels: u8) -> Held
        ensures { result ≡ entry (thread_of C.state C.saved self.now) next levels }
    {
        match next {
            Next::Want(Op::Rewake(object)) => Held {
                object,
                level: self.own.level,
                depth: self.own.depth,
            },
            _ => Held {
                object: monitor_wanted(next),
                level: levels,
                depth: 1,
            },
        }
    }

    // The section takes the wanted monitor.
    pub(crate) fn take_for(&self, next: Next, section: u32, levels: u8) -> Step
        ensures { result ≡ take_for (thread_of C.state C.saved self.now) next section levels }
    {
        Step::TakeMonitor(
            monitor_wanted(next),
            held_word(section, self.entry(next, levels)),
        )
    }

    // The own section then holds the monitor of this word so often.
    fn deepened(&self, object: u32, monitor: u64, depth: u16) -> Step
        ensures { result ≡ deepened (thread_of C.state C.saved self.now) object monitor depth }
    {
        let word = MonitorWord {
            section: self.own.section,
            depth,
            level: MonitorWord::unpack(monitor).level,
        };
        Step::SetDepth(object, word.pack())
    }

    // A monitor that is taken needs a level of its own.
    fn needs_level(&self, next: Next) -> bool
        ensures { result ≡ needs_level (thread_of C.state C.saved self.now) next }
    {
        match next {
            Next::Want(Op::Rewake(_)) => false,
            _ => self.own.held.has_level(self.own.levels),
        }
    }

    fn entering_free(&self, next: Next) -> ThreadChange
        ensures meant { change_meant (thread_of C.state C.saved self.now) result
            ≡ entering_free (thread_of C.state C.saved self.now) next }
        ensures plain { IsPlain result }
    {
        if self.own.section == 0 {
            return ThreadChange::Goes(Attempt::Fixed(Step::DrawSection));
        }
        if !self.needs_level(next) {
            let take = self.take_for(next, self.own.section, self.own.levels);
            return ThreadChange::Goes(Attempt::Fixed(take));
        }
        if self.own.levels == 255 {
            ThreadChange::Goes(Attempt::Full(Limit::Depth))
        } else {
            let open = Step::OpenLevel(self.own.section, self.own_word());
            ThreadChange::Goes(Attempt::Fixed(open))
        }
    }

    fn entering_own(&self, object: u32, monitor: u64) -> ThreadChange
        ensures meant { change_meant (thread_of C.state C.saved self.now) result
            ≡ entering_own (thread_of C.state C.saved self.now) object monitor }
        ensures plain { IsPlain result }
    {
        let depth = MonitorWord::unpack(monitor).depth;
        if depth == 65535 {
            ThreadChange::Goes(Attempt::Full(Limit::Depth))
        } else {
            ThreadChange::Goes(Attempt::Fixed(self.deepened(object, monitor, depth + 1)))
        }
    }

    fn entering(&self, next: Next, object: u32, monitor: u64) -> ThreadChange
        ensures meant { change_meant (thread_of C.state C.saved self.now) result
            ≡ entering (thread_of C.state C.saved self.now) next object monitor }
        ensures plain { IsPlain result }
    {
        if monitor == 0 {
            self.entering_free(next)
        } else if is_own(monitor, self.own.section) {
            self.entering_own(object, monitor)
        } else {
            let holder = MonitorWord::unpack(monitor);
            ThreadChange::Goes(Attempt::Meets(holder.section, holder.level))
        }
    }

    // The monitor, of this level, is to be left altogether.
    fn leaving(&self, object: u32, level: u8) -> ThreadChange
        ensures meant { change_meant (thread_of C.state C.saved self.now) result
            ≡ leaving (thread_of C.state C.saved self.now) object level (without object self.now.own.held.newest_first) }
        ensures plain { IsPlain result }
    {
        if !self.own.held.has_others(object) {
            let commit = Step::Commit(self.own.section, self.own_word());
            return ThreadChange::Goes(Attempt::Fixed(commit));
        }
        let highest = self.own.held.highest_of_others(object);
        if highest < level {
            let close = Step::CloseLevel(self.own.section, self.own_word(), highest);
            ThreadChange::Goes(Attempt::Fixed(close))
        } else {
            ThreadChange::Goes(self.to_pin(Next::Want(Op::Exit(object))))
        }
    }

    fn exiting(&self, object: u32, monitor: u64) -> ThreadChange
        ensures meant { change_meant (thread_of C.state C.saved self.now) result
            ≡ exiting (thread_of C.state C.saved self.now) object monitor }
        ensures plain { IsPlain result }
    {
        let word = MonitorWord::unpack(monitor);
        if word.depth > 1 {
            let step = self.deepened(object, monitor, word.depth - 1);
            ThreadChange::Goes(Attempt::Fixed(step))
        } else {
            self.leaving(object, word.level)
        }
    }

    // The monitor is to be left, given up by a wait, or notified by its owner.
    fn owned(&self, next: Next, object: u32, monitor: u64) -> ThreadChange
        requires { is_own monitor self.now.own.section ≡ true }
        ensures meant { change_meant (thread_of C.state C.saved self.now) result
            ≡ monitor_loaded (thread_of C.state C.saved self.now) next object monitor }
        ensures plain { IsPlain result }
    {
        match next {
            Next::Want(Op::Exit(_)) => self.exiting(object, monitor),
            Next::Want(Op::Wait(_) | Op::Notify(_)) => ThreadChange::Goes(self.to_pin(next)),
            _ => self.entering(next, object, monitor),
        }
    }

    pub(crate) fn monitor_loaded(&self, next: Next, object: u32, monitor: u64) -> ThreadChange
        ensures meant { change_meant (thread_of C.state C.saved self.now) result
            ≡ monitor_loaded (thread_of C.state C.saved self.now) next object monitor }
        ensures plain { IsPlain result }
    {
        if is_own(monitor, self.own.section) {
            return self.owned(next, object, monitor);
        }
        match next {
            Next::Want(Op::Exit(_) | Op::Wait(_) | Op::Notify(_)) => {
                ThreadChange::Replies(Reply::NotOwner)
            }
            _ => self.entering(next, object, monitor),
        }
    }

    pub(crate) fn let_go(&self, next: Next, object: u32) -> ThreadChange
        ensures meant { change_meant (thread_of C.state C.saved self.now) result
            ≡ let_go (thread_of C.state C.saved self.now) next self.now.own.attempt object }
        ensures plain { IsPlain result }
    {
        match (self.own.attempt, next) {
            (Attempt::Undoing(_), _) => ThreadChange::GivesBack(object),
            (_, Next::Want(Op::Wait(_))) => ThreadChange::Waits(object),
            _ => ThreadChange::Leaves(object),
        }
    }

    // The monitor, which was held already, has this depth now.
    pub(crate) fn depth_set(&self, object: u32, depth: u16) -> ThreadChange
        ensures meant { change_meant (thread_of C.state C.saved self.now) result ≡ depth_set self.now.own.attempt object depth }
        ensures plain { IsPlain result }
    {
        match self.own.attempt {
            Attempt::Undoing(_) => ThreadChange::SetsBack(object, depth),
            _ => ThreadChange::Deepens(object, depth),
        }
    }
}
