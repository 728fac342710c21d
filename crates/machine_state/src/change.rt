//! Single changes of the machine's tables, and the silent steps of a thread.

ghost use Rattle.std.specs.Prelude.{◌≡◌, ◌≤◌, ◌↔◌, Ok, Err, true, false, IsTrue, OnOk, OnErr, IsNone, IfOk, IfSome, IfNone, ◌+◌};
ghost use Rattle.op_core.specs.declared.CodeStop.{CodeStop};
ghost use Rattle.op_core.specs.OrdinaryStep.{IsFreeNumber};
ghost use Rattle.op_core.specs.OrdinaryState.{IsThere, HasWord, live};
ghost use Rattle.machine_tables.specs.Tables.{monitor_of, waiting_of, class_state_of, standing_of};
ghost use Rattle.machine_state.specs.Machine.{machine_in, with_new_object, with_word_at, with_monitor_at, with_started_at, with_waiting_at, with_class_at, with_line, with_thread_at, HasBegun, Awaits, RunsSilently};
ghost use Rattle.machine_state.specs.Machine.{IsSilentTo, IsOutOfFrames};

use crate::MachineState;
use machine_tables::{ClassProgress, HeapObject, MonitorState, Seat, Standing, WaitState, Words};
use op_core::{CodeStop, Line, NoMemory, Reply, ThreadCode};

impl<C: ThreadCode + Drop> MachineState<C> {
    /// Puts the monitor of an object into this state.
    pub fn put_monitor(&mut self, reference: u32, monitor: MonitorState)
        requires { IsThere (machine_in C.state self.old).now.objects reference }
        ensures { machine_in C.state self.new ≡ with_monitor_at (machine_in C.state self.old) reference (monitor_of monitor) }
    {
        self.objects.set_monitor(reference, monitor);
    }

    /// Notes which thread an object has started.
    pub fn put_started(&mut self, reference: u32, number: u8)
        requires { IsThere (machine_in C.state self.old).now.objects reference }
        ensures { machine_in C.state self.new ≡ with_started_at (machine_in C.state self.old) reference number }
    {
        self.objects.set_started(reference, number);
    }

    /// Writes a word that an object has.
    pub fn put_word(&mut self, reference: u32, place: u32, value: u32)
        requires { HasWord (machine_in C.state self.old).now.objects reference place }
        ensures { machine_in C.state self.new ≡ with_word_at (machine_in C.state self.old) reference place value }
    {
        self.objects.set_word(reference, place, value);
    }

    /// Writes a word, and says that it did: exactly where an object has it. Where none has, nothing changes.
    #[inline(always)]
    pub fn write_word(&mut self, reference: u32, place: u32, value: u32) -> bool
        ensures has { IsTrue result ↔ HasWord (machine_in C.state self.old).now.objects reference place }
        ensures written { result ≡ true → machine_in C.state self.new ≡ with_word_at (machine_in C.state self.old) reference place value }
        ensures kept { result ≡ false → machine_in C.state self.new ≡ machine_in C.state self.old }
    {
        self.objects.write_word(reference, place, value)
    }

    /// Puts what a thread that has begun waits for.
    pub fn put_waiting(&mut self, thread: u8, waiting: WaitState)
        requires { HasBegun ((machine_in C.state self.old).now.threads thread) }
        ensures { machine_in C.state self.new ≡ with_waiting_at (machine_in C.state self.old) thread (waiting_of waiting) }
    {
        self.threads.set_waiting(thread, waiting);
    }

    /// Moves a thread that has begun elsewhere, this many silent steps after its last event.
    pub fn put_thread(&mut self, thread: u8, standing: Standing<C>, silent: u64)
        requires { HasBegun ((machine_in C.state self.old).now.threads thread) }
        ensures { machine_in C.state self.new ≡ with_thread_at (machine_in C.state self.old) thread (standing_of C.state standing) silent }
    {
        self.threads.set_standing(thread, standing, silent);
    }

    /// Moves a thread elsewhere, with the silent steps that it has made, and returns where it was; `None` where it has not begun,
    /// and then nothing changes.
    pub fn swap_standing(&mut self, thread: u8, standing: Standing<C>) -> Option<Standing<C>>
        ensures some { IfSome result (λ before. standing_of C.state before ≡ (machine_in C.state self.old).now.threads thread) }
        ensures moved { IfSome result (λ _. machine_in C.state self.new ≡ with_thread_at (machine_in C.state self.old) thread (standing_of C.state standing) ((machine_in C.state self.old).silents thread)) }
        ensures none { IfNone result (machine_in C.state self.new ≡ machine_in C.state self.old) }
    {
        self.threads.replace_standing(thread, standing)
    }

    /// Goes on with the reply to the operation that a thread wants. It has then made no silent step since its last event. Takes
    /// no memory.
    #[inline(always)]
    pub fn reply_to(&mut self, thread: u8, reply: Reply)
        requires { Awaits C.code (machine_in C.state self.old) thread reply }
        ensures { (l : C.State) → (machine_in C.state self.old).now.threads thread ≡ live l
            → machine_in C.state self.new ≡ with_thread_at (machine_in C.state self.old) thread (live (C.code.reply l reply)) 0 }
    {
        self.threads.reply(thread, reply);
    }

    /// Makes silent steps of a thread, at most `most`, and returns how many: none where the thread hasn't begun or has
    /// ended. Takes no memory but what the thread's code takes.
    pub fn run_silent(&mut self, thread: u8, most: u64) -> u64
        ensures runs { RunsSilently C.code (machine_in C.state self.old) thread result (machine_in C.state self.new) }
        ensures most { result ≤ most }
    {
        self.threads.run_silent(thread, most)
    }

    /// Makes the silent step of a thread in place, and returns whether it did: not where the step ends a frame that was on top at
    /// a save. `Frames` comes where the step would make a 1,025th frame, and `NoMemory` also where the count of silent steps has no
    /// room. Where no step was made, nothing changes.
    pub fn make_silent(&mut self, thread: u8) -> Result<bool, CodeStop>
        ensures made { result ≡ Ok true → IsSilentTo C.code (machine_in C.state self.old) thread (machine_in C.state self.new) }
        ensures frames { result ≡ Err CodeStop.Frames → IsOutOfFrames C.code (machine_in C.state self.old) thread }
        ensures kept { (result ≡ Ok true → ⊥) → machine_in C.state self.new ≡ machine_in C.state self.old }
    {
        self.threads.silent(thread)
    }

    /// Puts how far the initialization of a class is. Without memory nothing changes.
    pub fn put_class(&mut self, class: u32, progress: ClassProgress) -> Result<(), NoMemory>
        ensures ok { OnOk result (machine_in C.state self.new ≡ with_class_at (machine_in C.state self.old) class (class_state_of progress)) }
        ensures err { OnErr result (machine_in C.state self.new ≡ machine_in C.state self.old) }
    {
        self.classes.set(class, progress)
    }

    /// Prints a line after the others. Without memory nothing changes.
    pub fn put_line(&mut self, line: Line) -> Result<(), NoMemory>
        ensures ok { OnOk result (machine_in C.state self.new ≡ with_line (machine_in C.state self.old) line) }
        ensures err { OnErr result (machine_in C.state self.new ≡ machine_in C.state self.old) }
    {
        self.lines.push(line)?;
        Ok(())
    }

    /// Begins a thread with a free number, at this code. Without memory nothing changes, and the code is dropped.
    pub fn put_new_thread(&mut self, number: u8, code: C) -> Result<(), NoMemory>
        requires { IsFreeNumber (machine_in C.state self.old).now.threads number }
        ensures ok { OnOk result (machine_in C.state self.new ≡ with_thread_at (machine_in C.state self.old) number (live (C.state code)) 0) }
        ensures err { OnErr result (machine_in C.state self.new ≡ machine_in C.state self.old) }
    {
        let seat = Seat {
            standing: Standing::Live(code),
            waiting: WaitState::Awake,
            silent: 0,
        };
        self.threads.insert(number, seat)?;
        Ok(())
    }

    // How many words of memory are taken once `count` words are taken for one more object.
    fn taken_with(&self, count: u64) -> Result<u64, NoMemory>
        ensures { IfOk result (λ taken. taken ≡ self.now.taken + (2 + count)) }
    {
        let words = count.checked_add(2).ok_or(NoMemory)?;
        self.taken.checked_add(words).ok_or(NoMemory)
    }

    /// Puts a new object of `count` words, all of them 0, where none is. Without memory nothing changes; so it is where the count
    /// of all words taken has no room.
    pub fn put_object(
        &mut self,
        reference: u32,
        class: u32,
        length: u32,
        count: u64,
    ) -> Result<(), NoMemory>
        requires { IsNone ((machine_in C.state self.old).now.objects reference) }
        ensures ok { OnOk result (machine_in C.state self.new ≡ with_new_object (machine_in C.state self.old) reference class length count) }
        ensures err { OnErr result (machine_in C.state self.new ≡ machine_in C.state self.old) }
    {
        let taken = self.taken_with(count)?;
        let object = HeapObject {
            class,
            length,
            words: Words::zeros(self.alloc, count)?,
            monitor: MonitorState::Free,
            started: 0,
        };
        self.objects.insert(reference, object)?;
        self.taken = taken;
        Ok(())
    }
}
