//! The port through which threads make their steps on the shared words.

ghost use Rattle.std.specs.Prelude.{◌≡◌, ℕ, IfOk, OnErr, nat_eq, not};
ghost use Rattle.step_port.specs.Words.{exchanged};
ghost use Rattle.step_port.specs.declared.answer.StepAnswer.{StepAnswer};
ghost use Rattle.step_port.specs.declared.step.Step.{Step};

use crate::ThreadWord;
use op_core::NoMemory;

/// What makes the steps of a thread on the words that threads share: one call for each kind of step.
///
/// Each call makes exactly one step, which the port must allow, and hands out its answer. None but `split` takes
/// memory.
pub trait StepPort: Sized {
    /// What is handed out with a started thread, so that it can make steps of its own.
    type Pass;

    /// The port may make this step now.
    ghost allows: { Self → Step → Type 0 };

    /// It made this step with this answer, and is then the second one.
    ghost stepped: { Self → Step → StepAnswer → Self → Type 0 };

    /// By this step it handed out this, and is then the second one.
    ghost handed: { Self → Step → Self → Self.Pass → Type 0 };

    /// Reads the word at a place of the objects.
    fn load_word(&mut self, at: u32) -> u64
        requires { allows self.old (Step.LoadWord at) }
        ensures { stepped self.old (Step.LoadWord at) (StepAnswer.Found result) self.new };

    /// Sets the word at a place of the objects to `new` where it is `old`, else answers it.
    fn swap_word(&mut self, at: u32, old: u64, new: u64) -> Result<(), u64>
        requires { allows self.old (Step.SwapWord at old new) }
        ensures { stepped self.old (Step.SwapWord at old new) (exchanged result) self.new };

    /// Sets the word at a place of the objects.
    fn restore_word(&mut self, at: u32, old: u64)
        requires { allows self.old (Step.RestoreWord at old) }
        ensures { stepped self.old (Step.RestoreWord at old) StepAnswer.Done self.new };

    /// Draws a number for a section, and answers how many were drawn before: the number is one more.
    fn draw_section(&mut self) -> u64
        requires { allows self.old Step.DrawSection }
        ensures { stepped self.old Step.DrawSection (StepAnswer.Found result) self.new };

    /// Sets the word of a section that opens.
    fn open_section(&mut self, section: u32, word: u64)
        requires { allows self.old (Step.OpenSection section word) }
        ensures { stepped self.old (Step.OpenSection section word) StepAnswer.Done self.new };

    /// Reads the word of a section.
    fn load_section(&mut self, section: u32) -> u64
        requires { allows self.old (Step.LoadSection section) }
        ensures { stepped self.old (Step.LoadSection section) (StepAnswer.Found result) self.new };

    /// Pins a section to a level where its word is `old`, else answers its word.
    fn pin(&mut self, section: u32, old: u64, level: u8) -> Result<(), u64>
        requires { allows self.old (Step.Pin section old level) }
        ensures { stepped self.old (Step.Pin section old level) (exchanged result) self.new };

    /// Revokes a section to a level where its word is `old`, else answers its word.
    fn revoke(&mut self, section: u32, old: u64, level: u8) -> Result<(), u64>
        requires { allows self.old (Step.Revoke section old level) }
        ensures { stepped self.old (Step.Revoke section old level) (exchanged result) self.new };

    /// Commits a section where its word is `old`, else answers its word.
    fn commit(&mut self, section: u32, old: u64) -> Result<(), u64>
        requires { allows self.old (Step.Commit section old) }
        ensures { stepped self.old (Step.Commit section old) (exchanged result) self.new };

    /// Sets the word of a section that is undone to the level to which it was revoked.
    fn mark_undone(&mut self, section: u32, word: u64)
        requires { allows self.old (Step.MarkUndone section word) }
        ensures { stepped self.old (Step.MarkUndone section word) StepAnswer.Done self.new };

    /// Reads the monitor of an object.
    fn load_monitor(&mut self, object: u32) -> u64
        requires { allows self.old (Step.LoadMonitor object) }
        ensures { stepped self.old (Step.LoadMonitor object) (StepAnswer.Found result) self.new };

    /// Sets the monitor of an object where it is free, else answers it.
    fn take_monitor(&mut self, object: u32, new: u64) -> Result<(), u64>
        requires { allows self.old (Step.TakeMonitor object new) }
        ensures { stepped self.old (Step.TakeMonitor object new) (exchanged result) self.new };

    /// Sets the monitor of an object.
    fn set_depth(&mut self, object: u32, new: u64)
        requires { allows self.old (Step.SetDepth object new) }
        ensures { stepped self.old (Step.SetDepth object new) StepAnswer.Done self.new };

    /// Frees the monitor of an object.
    fn release(&mut self, object: u32)
        requires { allows self.old (Step.Release object) }
        ensures { stepped self.old (Step.Release object) StepAnswer.Done self.new };

    /// Takes words for a new object, and answers how many were taken before: the object's reference is that many places
    /// after the first place of the heap.
    fn take_words(&mut self, count: u64) -> u64
        requires { allows self.old (Step.TakeWords count) }
        ensures { stepped self.old (Step.TakeWords count) (StepAnswer.Found result) self.new };

    /// Sets the header of an object.
    fn set_header(&mut self, object: u32, word: u64)
        requires { allows self.old (Step.SetHeader object word) }
        ensures { stepped self.old (Step.SetHeader object word) StepAnswer.Done self.new };

    /// Draws the ticket of a printed line, and answers it: how many were drawn before.
    fn ticket(&mut self) -> u64
        requires { allows self.old Step.Ticket }
        ensures { stepped self.old Step.Ticket (StepAnswer.Found result) self.new };

    /// Draws a number for a thread, and answers how many were drawn before, main's among them: the number is one more.
    fn draw_thread(&mut self) -> u64
        requires { allows self.old Step.DrawThread }
        ensures { stepped self.old Step.DrawThread (StepAnswer.Found result) self.new };

    /// Sets the start word of a thread object to a thread's number where it is 0, else answers it.
    fn start_thread(&mut self, object: u32, thread: u8) -> Result<(), u64>
        requires { allows self.old (Step.StartThread object thread) }
        ensures { stepped self.old (Step.StartThread object thread) (exchanged result) self.new };

    /// Records that a thread has ended.
    fn end_thread(&mut self, thread: u8)
        requires { allows self.old (Step.EndThread thread) }
        ensures { stepped self.old (Step.EndThread thread) StepAnswer.Done self.new };

    /// Reads the start word of a thread object, or the word of a thread.
    fn load_thread(&mut self, which: ThreadWord) -> u64
        requires { allows self.old (Step.LoadThread which) }
        ensures { stepped self.old (Step.LoadThread which) (StepAnswer.Found result) self.new };

    /// Sets the wait word of a thread.
    fn set_wait(&mut self, thread: u8, word: u64)
        requires { allows self.old (Step.SetWait thread word) }
        ensures { stepped self.old (Step.SetWait thread word) StepAnswer.Done self.new };

    /// Notifies a thread where its wait word is `old`, else answers its wait word.
    fn notify(&mut self, thread: u8, old: u64) -> Result<(), u64>
        requires { allows self.old (Step.Notify thread old) }
        ensures { stepped self.old (Step.Notify thread old) (exchanged result) self.new };

    /// Reads the wait word of a thread.
    fn load_wait(&mut self, thread: u8) -> u64
        requires { allows self.old (Step.LoadWait thread) }
        ensures { stepped self.old (Step.LoadWait thread) (StepAnswer.Found result) self.new };

    /// Reads the word of a class.
    fn load_class(&mut self, class: u32) -> u64
        requires { allows self.old (Step.LoadClass class) }
        ensures { stepped self.old (Step.LoadClass class) (StepAnswer.Found result) self.new };

    /// Claims a class for a thread where its word is 0, else answers its word.
    fn claim_class(&mut self, class: u32, thread: u8) -> Result<(), u64>
        requires { allows self.old (Step.ClaimClass class thread) }
        ensures { stepped self.old (Step.ClaimClass class thread) (exchanged result) self.new };

    /// Sets the word of a class.
    fn settle_class(&mut self, class: u32, word: u64)
        requires { allows self.old (Step.SettleClass class word) }
        ensures { stepped self.old (Step.SettleClass class word) StepAnswer.Done self.new };

    /// Whether the host threads are to stop: the word that is read isn't 0.
    fn load_stop(&mut self) -> bool
        requires { allows self.old Step.LoadStop }
        ensures { (word : ℕ) × (result ≡ not (nat_eq word 0)) × stepped self.old Step.LoadStop (StepAnswer.Found word) self.new };

    /// Has the host threads stop.
    fn set_stop(&mut self)
        requires { allows self.old Step.SetStop }
        ensures { stepped self.old Step.SetStop StepAnswer.Done self.new };

    /// Opens the next level of a section where its word is `old`, else answers its word.
    fn open_level(&mut self, section: u32, old: u64) -> Result<(), u64>
        requires { allows self.old (Step.OpenLevel section old) }
        ensures { stepped self.old (Step.OpenLevel section old) (exchanged result) self.new };

    /// Closes the levels of a section above a depth where its word is `old`, else answers its word.
    fn close_level(&mut self, section: u32, old: u64, depth: u8) -> Result<(), u64>
        requires { allows self.old (Step.CloseLevel section old depth) }
        ensures { stepped self.old (Step.CloseLevel section old depth) (exchanged result) self.new };

    /// Reads the monitor of an object, beside the turns of threads: none of them makes this step.
    fn look_monitor(&mut self, object: u32) -> u64
        requires { allows self.old (Step.LookMonitor object) }
        ensures { stepped self.old (Step.LookMonitor object) (StepAnswer.Found result) self.new };

    /// Reads the word of a section, beside the turns of threads.
    fn look_section(&mut self, section: u32) -> u64
        requires { allows self.old (Step.LookSection section) }
        ensures { stepped self.old (Step.LookSection section) (StepAnswer.Found result) self.new };

    /// Revokes a section to a level where its word is `old`, else answers its word, beside the turns of threads.
    fn break_level(&mut self, section: u32, old: u64, level: u8) -> Result<(), u64>
        requires { allows self.old (Step.BreakLevel section old level) }
        ensures { stepped self.old (Step.BreakLevel section old level) (exchanged result) self.new };

    /// Hands a started thread out, by its number, and the object and the priority with which it was started. Without
    /// memory for it the port is as before, and made no step.
    fn split(&mut self, thread: u8, object: u32, priority: u8) -> Result<Self::Pass, NoMemory>
        requires { allows self.old (Step.Split thread object priority) }
        ensures ok { IfOk result (λ pass. handed self.old (Step.Split thread object priority) self.new pass) }
        ensures made { IfOk result (λ _. (word : ℕ) × stepped self.old (Step.Split thread object priority) (StepAnswer.Found word) self.new) }
        ensures err { OnErr result (self.new ≡ self.old) };
}
