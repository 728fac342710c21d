//! How far the initialization of each class is, by the class's number.

ghost use Rattle.std.specs.Prelude.{◌≡◌, ◌↔◌, OnOk, OnErr, IsTrue};
ghost use Rattle.op_core.specs.OrdinaryState.{set_at, unready};
ghost use Rattle.machine_tables.specs.Tables.{class_state_of, classes_in};

use op_core::NoMemory;
use std::alloc::Global;
use std::collections::HashMap;

/// How far a class's initialization is (JLS 12.4.2).
#[derive(Clone, Copy)]
pub enum ClassProgress {
    /// It has not begun.
    Unready,
    /// The thread of this number is at it.
    Claimed(u8),
    /// The class is initialized.
    Ready,
    /// It failed, and isn't tried again.
    Bad,
}

/// How far the initialization of each class is, by the class's number. Contracts see it as a function
/// (`classes_in`). A class that was never set is unready.
#[derive(Drop)]
pub struct Classes {
    table: HashMap<u32, ClassProgress>,
}

impl Classes {
    /// No class has begun its initialization. Takes no memory.
    pub fn new(alloc: Global) -> Self
        ensures { classes_in result ≡ (λ _. unready) }
    {
        Classes {
            table: HashMap::new(alloc),
        }
    }

    /// How far the initialization of a class is.
    pub fn get(&self, class: u32) -> ClassProgress
        ensures { class_state_of result ≡ classes_in self.now class }
    {
        match self.table.get(&class) {
            Some(progress) => *progress,
            None => ClassProgress::Unready,
        }
    }

    /// Whether the initialization of a class has not begun.
    pub fn is_unready(&self, class: u32) -> bool
        ensures { IsTrue result ↔ (classes_in self.now class ≡ unready) }
    {
        match self.get(class) {
            ClassProgress::Unready => true,
            _ => false,
        }
    }

    /// Records how far the initialization of a class is. When memory runs out, the table is as before.
    pub fn set(&mut self, class: u32, progress: ClassProgress) -> Result<(), NoMemory>
        ensures ok { OnOk result (classes_in self.new ≡ set_at (classes_in self.old) class (class_state_of progress)) }
        ensures err { OnErr result (classes_in self.new ≡ classes_in self.old) }
    {
        match self.table.insert(class, progress) {
            Ok(_) => Ok(()),
            Err(_) => Err(NoMemory),
        }
    }
}
