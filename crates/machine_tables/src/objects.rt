//! The objects of the heap by reference, with their monitors.

ghost use Rattle.std.specs.Prelude.{◌≡◌, ◌<◌, OnOk, OnErr, Some, None, IsSome, IsNone, length, slice_set};
ghost use Rattle.std.specs.Prelude.{◌↔◌, ◌+◌, ◌^◌, ◌≤◌, IsTrue, true, MatchOption};
ghost use Rattle.std.specs.Option.{option_copied};
ghost use Rattle.op_core.specs.OrdinaryState.{set_at, free, IsThere, HasWord, IsOfClass, IsOwner, IsOpenTo, entered, exited, count_of};
ghost use Rattle.machine_tables.specs.Tables.{object_at, monitor_of, objects_in, words_in, monitors_in, starts_in};

use crate::Words;
use op_core::NoMemory;
use std::alloc::Global;
use std::collections::HashMap;

/// The state of an object's monitor (JLS 17.1).
#[derive(Clone, Copy)]
pub enum MonitorState {
    /// No thread owns it.
    Free,
    /// The number of the thread that owns it, and how many times that thread has entered it.
    Held(u8, u64),
}

impl MonitorState {
    fn is_free(self) -> bool
        ensures { IsTrue result ↔ (monitor_of self ≡ free) }
    {
        match self {
            MonitorState::Free => true,
            MonitorState::Held(_, _) => false,
        }
    }

    fn is_owned_by(self, thread: u8) -> bool
        ensures { IsTrue result ↔ IsOwner thread (monitor_of self) }
    {
        match self {
            MonitorState::Free => false,
            MonitorState::Held(owner, _) => owner == thread,
        }
    }

    fn is_open_to(self, thread: u8) -> bool
        ensures { IsTrue result ↔ IsOpenTo thread (monitor_of self) }
    {
        match self {
            MonitorState::Free => true,
            MonitorState::Held(owner, _) => owner == thread,
        }
    }

    /// Entered once more, by a thread to which it is open (`monitorenter`, JVMS 6.5): a free monitor is then
    /// held by the thread, and one that is held keeps its owner. `None` exactly where the count is the largest
    /// `u64`.
    pub fn entered(self, thread: u8) -> Option<MonitorState>
        ensures { MatchOption result (2 ^ 64 ≤ count_of (monitor_of self) + 1) (λ monitor. monitor_of monitor ≡ entered thread (monitor_of self)) }
    {
        match self {
            MonitorState::Free => Some(MonitorState::Held(thread, 1)),
            MonitorState::Held(owner, count) => Some(MonitorState::Held(
                owner,
                count.checked_add(1)?,
            )),
        }
    }

    /// Exited once (`monitorexit`, JVMS 6.5): free at the last time. A free monitor stays free.
    pub fn exited(self) -> MonitorState
        ensures { monitor_of result ≡ exited (monitor_of self) }
    {
        match self {
            MonitorState::Held(owner, count) if count >= 2 => MonitorState::Held(owner, count - 1),
            _ => MonitorState::Free,
        }
    }

    /// How many times its owner has entered it, 0 where it is free.
    pub fn count(self) -> u64
        ensures { result ≡ count_of (monitor_of self) }
    {
        match self {
            MonitorState::Free => 0,
            MonitorState::Held(_, count) => count,
        }
    }
}

/// An object of the heap (JVMS 2.5.3), with what threads share of it.
#[derive(Drop)]
pub struct HeapObject {
    /// The number of its class.
    pub class: u32,
    /// An array's length, 0 for an object that is no array.
    pub length: u32,
    /// Its words. Class and length don't say how many there are.
    pub words: Words,
    /// Its monitor.
    pub monitor: MonitorState,
    /// The number of the thread that it started, or 0 where it has started none.
    pub started: u8,
}

/// The objects that are there, by reference. Contracts see the object of each reference, `None` where there is
/// none (`object_at`).
#[derive(Drop)]
pub struct Objects {
    table: HashMap<u32, HeapObject>,
}

impl Objects {
    /// No objects. Takes no memory.
    pub fn new(alloc: Global) -> Self
        ensures { object_at result ≡ (λ _. None) }
    {
        Objects {
            table: HashMap::new(alloc),
        }
    }

    /// The object of a reference, or `None` where there is none.
    pub fn get(&self, reference: u32) -> Option<&HeapObject>
        ensures { option_copied result ≡ object_at self.now reference }
    {
        self.table.get(&reference)
    }

    /// Whether a reference is that of an object.
    pub fn has(&self, reference: u32) -> bool
        ensures { IsTrue result ↔ IsThere (objects_in (object_at self.now)) reference }
    {
        self.get(reference).is_some()
    }

    /// Whether the object is there and has a word at the place.
    pub fn has_word(&self, reference: u32, place: u32) -> bool
        ensures { IsTrue result ↔ HasWord (objects_in (object_at self.now)) reference place }
    {
        match self.get(reference) {
            Some(object) => (place as usize) < object.words.len(),
            None => false,
        }
    }

    /// Whether the object is there, of this class and with this length.
    pub fn is_of_class(&self, reference: u32, class: u32, length: u32) -> bool
        ensures { IsTrue result ↔ IsOfClass (objects_in (object_at self.now)) reference class length }
    {
        match self.get(reference) {
            Some(object) => object.class == class && object.length == length,
            None => false,
        }
    }

    /// The word of an object at a place, or 0 where no object or no such word is there.
    pub fn word(&self, reference: u32, place: u32) -> u32
        ensures { result ≡ words_in (object_at self.now) reference place }
    {
        match self.get(reference) {
            Some(object) => object.words.get(place).unwrap_or(0),
            None => 0,
        }
    }

    /// The monitor of an object, which is free where there is no object.
    pub fn monitor(&self, reference: u32) -> MonitorState
        ensures { monitor_of result ≡ monitors_in (object_at self.now) reference }
    {
        match self.get(reference) {
            Some(object) => object.monitor,
            None => MonitorState::Free,
        }
    }

    /// The number of the thread that an object started, or 0 where it has started none or isn't there.
    pub fn started(&self, reference: u32) -> u8
        ensures { result ≡ starts_in (object_at self.now) reference }
    {
        match self.get(reference) {
            Some(object) => object.started,
            None => 0,
        }
    }

    /// Whether no thread owns the monitor of an object, as where no object is there.
    pub fn is_free(&self, reference: u32) -> bool
        ensures { IsTrue result ↔ (monitors_in (object_at self.now) reference ≡ free) }
    {
        self.monitor(reference).is_free()
    }

    /// Whether a thread owns the monitor of an object.
    pub fn is_owner(&self, thread: u8, reference: u32) -> bool
        ensures { IsTrue result ↔ IsOwner thread (monitors_in (object_at self.now) reference) }
    {
        self.monitor(reference).is_owned_by(thread)
    }

    /// Whether a thread can enter the monitor of an object: no other thread owns it (JLS 17.1).
    pub fn is_open_to(&self, thread: u8, reference: u32) -> bool
        ensures { IsTrue result ↔ IsOpenTo thread (monitors_in (object_at self.now) reference) }
    {
        self.monitor(reference).is_open_to(thread)
    }

    /// Puts an object at a reference, in place of the one that was there. Without memory for it the table is
    /// as before, and the object is dropped.
    pub fn insert(&mut self, reference: u32, object: HeapObject) -> Result<(), NoMemory>
        ensures ok { OnOk result (object_at self.new ≡ set_at (object_at self.old) reference (Some object)) }
        ensures err { OnErr result (object_at self.new ≡ object_at self.old) }
    {
        match self.table.insert(reference, object) {
            Ok(_) => Ok(()),
            Err(_) => Err(NoMemory),
        }
    }

    /// Gives the object of a reference another monitor. Where none is there, nothing changes.
    pub fn set_monitor(&mut self, reference: u32, monitor: MonitorState)
        ensures there { (x : _) → object_at self.old reference ≡ Some x → object_at self.new ≡ set_at (object_at self.old) reference (Some (record x { monitor = monitor })) }
        ensures absent { object_at self.old reference ≡ None → object_at self.new ≡ object_at self.old }
    {
        if let Some(object) = self.table.get_mut(&reference) {
            object.monitor = monitor;
        }
    }

    /// Records the number of the thread that the object of a reference started. Where there is no object, nothing
    /// changes.
    pub fn set_started(&mut self, reference: u32, started: u8)
        ensures there { (x : _) → object_at self.old reference ≡ Some x → object_at self.new ≡ set_at (object_at self.old) reference (Some (record x { started = started })) }
        ensures absent { object_at self.old reference ≡ None → object_at self.new ≡ object_at self.old }
    {
        if let Some(object) = self.table.get_mut(&reference) {
            object.started = started;
        }
    }

    /// Writes the word at a place of the object of a reference. Where no object or no such word is there,
    /// nothing changes.
    pub fn set_word(&mut self, reference: u32, place: u32, value: u32)
        ensures there { (x : _) → object_at self.old reference ≡ Some x → object_at self.new ≡ set_at (object_at self.old) reference (Some (record x { words = slice_set x.words place value })) }
        ensures absent { object_at self.old reference ≡ None → object_at self.new ≡ object_at self.old }
    {
        if let Some(object) = self.table.get_mut(&reference) {
            object.words.set(place, value);
        }
    }

    /// Writes the word at a place of the object of a reference, and says that it did: exactly where the object is there
    /// and has the word. Where it hasn't, nothing changes.
    pub fn write_word(&mut self, reference: u32, place: u32, value: u32) -> bool
        ensures has { IsTrue result ↔ HasWord (objects_in (object_at self.old)) reference place }
        ensures there { (x : _) → object_at self.old reference ≡ Some x → object_at self.new ≡ set_at (object_at self.old) reference (Some (record x { words = slice_set x.words place value })) }
        ensures absent { object_at self.old reference ≡ None → object_at self.new ≡ object_at self.old }
    {
        match self.table.get_mut(&reference) {
            Some(object) => {
                let has = (place as usize) < object.words.len();
                object.words.set(place, value);
                has
            }
            None => false,
        }
    }
}
