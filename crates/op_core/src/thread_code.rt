//! The code of a Java thread, as a machine sees it.

ghost use Rattle.std.specs.Prelude.{◌≡◌, ◌≢◌, false, [], ◌∷◌, ◌<◌, ◌≤◌, Some, drop, OnOk, OnErr, IfOk, IfSome};
ghost use Rattle.std.specs.Option.{option_map};
ghost use Rattle.op_core.specs.ThreadCode.{leaves_any, quiet_step, quiet_steps, LeavesNoSave};
ghost use Rattle.op_core.specs.Replies.{FitsNext, IsEntry};
ghost use Rattle.op_core.specs.Hosted.{IsLedTo, MayBeAsked};

use crate::{CodeStop, Next, NoMemory, OpHost, Reply};

/// The code of a Java thread, as a machine sees it: what it wants next, and how it goes on with
/// each reply. It knows nothing of the memory that threads share.
///
/// Its saves are a stack of earlier local states, for a section that may have to be undone.
pub trait ThreadCode: Sized {
    ghost use Rattle.std.specs.Prelude.{List};
    ghost use Rattle.op_core.specs.ThreadCode.{Code};

    /// The local states.
    ghost State: { Type 0 };

    /// How a thread goes on from each of them.
    ghost code: { Code State };

    /// The local state now.
    ghost state: { Self → State };

    /// The saved local states, the last one first.
    ghost saved: { Self → List State };

    /// What the thread does next. Takes no memory.
    fn next(&self) -> Next
        ensures { result ≡ code.next (state self.now) };

    /// Makes a silent step. The thread must be silent next, and the step must not end a frame that
    /// was on top at a save. `Frames` comes exactly where the step would make a 1,025th frame.
    /// After an error the thread is as before.
    fn silent(&mut self) -> Result<(), CodeStop>
        requires silent { code.next (state self.old) ≡ Next.Silent }
        requires stays { leaves_any code (saved self.old) (state self.old) ≡ false }
        ensures ok { OnOk result (quiet_step code (state self.old) ≡ Some (state self.new)) }
        ensures saved { OnOk result (saved self.new ≡ saved self.old) }
        ensures frames { result ≡ Err CodeStop.Frames → 1024 < code.frames (code.silent (state self.old)) }
        ensures err { OnErr result (self.new ≡ self.old) };

    /// Makes some of the silent steps that come next, at most `most`, and returns how many. None of
    /// them ends a frame that was on top at a save. Where it returns less than `most`, there may be
    /// more to make.
    fn run_silent(&mut self, most: u64) -> u64
        ensures steps { quiet_steps code result (state self.old) ≡ Some (state self.new) }
        ensures stays { LeavesNoSave code (saved self.old) result (state self.old) }
        ensures saved { saved self.new ≡ saved self.old }
        ensures most { result ≤ most }
    {
        for made in 0..most {
            match self.next() {
                Next::Silent if !self.leaves() => match self.silent() {
                    Ok(()) => {}
                    Err(_) => return made,
                },
                _ => return made,
            }
        }
        most
    }

    /// Goes on by silent steps and operations as long as the host answers these, and makes at most this many operations.
    /// None of the silent steps ends a frame that was on top at a save. It ends before a silent step that can't be made.
    fn run_with<H: OpHost>(&mut self, host: &mut H, most: u64)
        requires may { MayBeAsked code (saved self.old) H.passes H.answers H.may (state self.old) host.old }
        ensures led { IsLedTo code (saved self.old) H.passes H.answers H.declines (state self.old) host.old (state self.new) host.new }
        ensures saved { saved self.new ≡ saved self.old }
    {
        for _asked in 0..most {
            let made = self.run_silent(host.room());
            host.pass(made);
            let Next::Want(op) = self.next() else {
                return;
            };
            match host.ask(op) {
                Some(reply) => self.reply(reply),
                None => return,
            }
        }
    }

    /// Goes on with the reply to the operation that the thread wants, which it must fit. Takes no
    /// memory.
    fn reply(&mut self, reply: Reply)
        requires { FitsNext (code.next (state self.old)) reply }
        ensures state { state self.new ≡ code.reply (state self.old) reply }
        ensures saved { saved self.new ≡ saved self.old };

    /// Saves the local state, on top of the saves, as a thread does that is about to enter a monitor. After an error the
    /// thread is as before.
    fn save(&mut self) -> Result<(), NoMemory>
        requires { IsEntry (code.next (state self.old)) }
        ensures ok { OnOk result (saved self.new ≡ state self.old ∷ saved self.old) }
        ensures state { OnOk result (state self.new ≡ state self.old) }
        ensures err { OnErr result (self.new ≡ self.old) };

    /// Goes back to the state of the last save, and takes that save off. There must be a save.
    /// Takes no memory.
    fn restore(&mut self)
        requires { saved self.old ≢ [] }
        ensures { saved self.old ≡ state self.new ∷ saved self.new };

    /// Takes the last save off. There must be one. Takes no memory.
    fn drop_save(&mut self)
        requires { saved self.old ≢ [] }
        ensures saved { saved self.new ≡ drop 1 (saved self.old) }
        ensures state { state self.new ≡ state self.old };

    /// Whether the next silent step ends the frame that was on top at any of the saves. Takes no
    /// memory.
    fn leaves(&self) -> bool
        ensures { result ≡ leaves_any code (saved self.now) (state self.now) };

    /// The first state of the thread that an object starts, with nothing saved.
    fn child(&self, object: u32) -> Result<Self, NoMemory>
        ensures state { IfOk result (λ child. state child ≡ code.child (state self.now) object) }
        ensures saved { IfOk result (λ child. saved child ≡ []) };

    /// The same local state with nothing saved, to try silent steps on.
    fn copy(&self) -> Result<Self, NoMemory>
        ensures state { IfOk result (λ copy. state copy ≡ state self.now) }
        ensures saved { IfOk result (λ copy. saved copy ≡ []) };

    /// How many words a new object of a class has at a length, which is 0 where the class is no
    /// array, in the program that the local state holds. Takes no memory.
    fn words(&self, class: u32, length: u32) -> u64
        ensures { result ≡ code.words (state self.now) class length };
}

/// The thread code after exactly `count` silent steps, none of which makes a 1,025th frame, with
/// nothing saved; `None` where it can't make that many. The given code stays as it is.
pub fn after_silent_steps<C: ThreadCode + Drop>(code: &C, count: u64) -> Result<Option<C>, NoMemory>
    ensures state { IfOk result (λ after. option_map C.state after ≡ quiet_steps C.code count (C.state code.now)) }
    ensures saved { IfOk result (λ after. IfSome after (λ c. C.saved c ≡ [])) }
{
    let mut after = code.copy()?;
    for _made in 0..count {
        match after.next() {
            Next::Silent => match after.silent() {
                Ok(()) => {}
                Err(CodeStop::Frames) => return Ok(None),
                Err(CodeStop::NoMemory) => return Err(NoMemory),
            },
            _ => return Ok(None),
        }
    }
    Ok(Some(after))
}
