//! Threads that were worked on.

ghost use Rattle.std.specs.Prelude.{◌≡◌, ◌⊎◌, ◌+◌, [], ◌∷◌, ◌++◌, None, Some, IfOk, IfSome, OnOk};
ghost use Rattle.epoch_host.specs.Work.{IsMetBySlice};

use crate::met::{MetLimit, lower};
use crate::push::push;
use op_core::{NoMemory, ThreadCode};
use table_hosts::{SeatedThread, Slice};

/// Threads after they were given turns, with those that they handed out meanwhile.
#[derive(Drop)]
pub(crate) struct Worked<C: ThreadCode> {
    /// The threads.
    pub(crate) threads: Vec<SeatedThread<C>>,
    /// How many sections they opened meanwhile.
    pub(crate) opened: u64,
    /// How many times they marked levels undone meanwhile.
    pub(crate) undone: u64,
    /// Whether one of their turns counted.
    pub(crate) counted: bool,
    /// The limit that was met, if one was: where several threads met one, that of the thread with the lowest number.
    pub(crate) met: Option<MetLimit>,
}

// The sum, if there is room for it. A run that counts so far would have no memory for its steps' threads long before.
fn sum(one: u64, other: u64) -> Result<u64, NoMemory>
    ensures { IfOk result (λ sum. sum ≡ one + other) }
{
    one.checked_add(other).ok_or(NoMemory)
}

// The limit that the last turn of a slice met.
fn met_by<C: ThreadCode>(slice: &Slice<C>) -> Option<MetLimit>
    ensures { IfSome result (IsMetBySlice slice.now) }
{
    let thread = slice.seated.thread.thread().number();
    slice.tally.limit.map(|limit| MetLimit { thread, limit })
}

impl<C: ThreadCode + Drop> Worked<C> {
    /// These threads, which were given no turn.
    pub(crate) fn untouched(threads: Vec<SeatedThread<C>>) -> Worked<C>
        ensures threads { result.threads.items ≡ threads.items }
        ensures counts { (result.opened ≡ 0) × (result.undone ≡ 0) }
        ensures met { result.met ≡ None }
    {
        Worked {
            threads,
            opened: 0,
            undone: 0,
            counted: false,
            met: None,
        }
    }

    /// One thread more, which was given no turn.
    pub(crate) fn keep(&mut self, seated: SeatedThread<C>) -> Result<(), NoMemory>
        ensures threads { OnOk result (self.new.threads.items ≡ self.old.threads.items ++ seated ∷ []) }
        ensures counts { (self.new.opened ≡ self.old.opened) × (self.new.undone ≡ self.old.undone) }
        ensures met { self.new.met ≡ self.old.met }
    {
        push(&mut self.threads, seated)
    }

    /// One thread more, which was given a slice of turns.
    pub(crate) fn add(&mut self, slice: Slice<C>) -> Result<(), NoMemory>
        ensures threads { OnOk result (self.new.threads.items ≡ self.old.threads.items ++ slice.seated ∷ slice.born.items) }
        ensures opened { OnOk result (self.new.opened ≡ self.old.opened + slice.tally.opened) }
        ensures undone { OnOk result (self.new.undone ≡ self.old.undone + slice.tally.undone) }
        ensures met { OnOk result (IfSome self.new.met (λ met. (self.old.met ≡ Some met) ⊎ IsMetBySlice slice met)) }
    {
        self.met = lower(self.met, met_by(&slice));
        let Slice {
            seated,
            mut born,
            tally,
        } = slice;
        self.counted = self.counted || tally.counted > 0;
        self.opened = sum(self.opened, u64::from(tally.opened))?;
        self.undone = sum(self.undone, u64::from(tally.undone))?;
        push(&mut self.threads, seated)?;
        self.threads.append(&mut born)?;
        Ok(())
    }

    /// All threads of another worker more.
    pub(crate) fn absorb(&mut self, other: Worked<C>) -> Result<(), NoMemory>
        ensures threads { OnOk result (self.new.threads.items ≡ self.old.threads.items ++ other.threads.items) }
        ensures opened { OnOk result (self.new.opened ≡ self.old.opened + other.opened) }
        ensures undone { OnOk result (self.new.undone ≡ self.old.undone + other.undone) }
        ensures met { OnOk result (IfSome self.new.met (λ met. (self.old.met ≡ Some met) ⊎ (other.met ≡ Some met))) }
    {
        let Worked {
            mut threads,
            opened,
            undone,
            counted,
            met,
        } = other;
        self.met = lower(self.met, met);
        self.counted = self.counted || counted;
        self.opened = sum(self.opened, opened)?;
        self.undone = sum(self.undone, undone)?;
        self.threads.append(&mut threads)?;
        Ok(())
    }

    /// The same threads, which had opened `opened` sections before, and had marked levels undone `undone` times.
    pub(crate) fn after(self, opened: u64, undone: u64) -> Result<Worked<C>, NoMemory>
        ensures threads { IfOk result (λ all. all.threads.items ≡ self.threads.items) }
        ensures opened { IfOk result (λ all. all.opened ≡ opened + self.opened) }
        ensures undone { IfOk result (λ all. all.undone ≡ undone + self.undone) }
        ensures met { IfOk result (λ all. all.met ≡ self.met) }
    {
        let opened = sum(opened, self.opened)?;
        let undone = sum(undone, self.undone)?;
        Ok(Worked {
            opened,
            undone,
            ..self
        })
    }
}
