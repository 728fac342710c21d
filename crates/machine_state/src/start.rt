//! The machine at the start of a program: its fixed objects, its ready classes and its first thread.

ghost use Rattle.std.specs.Prelude.{◌≡◌, IfOk, Some, None};
ghost use Rattle.std.specs.Option.{option_map};
ghost use Rattle.op_core.specs.OrdinaryState.{set_at};
ghost use Rattle.machine_tables.specs.declared.threads.WaitState.TheVariants.{Awake};
ghost use Rattle.machine_tables.specs.declared.threads.Standing.TheVariants.{Live};
ghost use Rattle.machine_tables.specs.Tables.{object_at, classes_in, seat_at};
ghost use Rattle.machine_state.specs.Machine.{machine_in};
ghost use Rattle.fixed_objects.specs.Fixed.{fixed_at};
ghost use Rattle.fixed_objects.specs.Opening.{LiesBelowFirst, class_at_start};
ghost use Rattle.machine_state.specs.Start.{heap_object, start_of};

use crate::MachineState;
use fixed_objects::{FixedObject, Opening};
use machine_tables::{
    ClassProgress, Classes, HeapObject, MonitorState, Objects, Seat, Standing, Threads, WaitState,
    Words,
};
use op_core::{NoMemory, Rows, ThreadCode};
use std::alloc::Global;

fn fixed_table(alloc: Global, objects: &[FixedObject]) -> Result<Objects, NoMemory>
    ensures { IfOk result (λ table. object_at table ≡ (λ r. option_map heap_object (fixed_at objects.now r))) }
{
    let mut table = Objects::new(alloc);
    for object in objects {
        let fixed = HeapObject {
            class: object.class,
            length: object.length,
            words: Words::copy_of(alloc, object.words.as_slice())?,
            monitor: MonitorState::Free,
            started: object.started,
        };
        table.insert(object.reference, fixed)?;
    }
    Ok(table)
}

fn ready_classes(alloc: Global, ready: &[u32]) -> Result<Classes, NoMemory>
    ensures { IfOk result (λ classes. classes_in classes ≡ class_at_start ready.now) }
{
    let mut classes = Classes::new(alloc);
    for class in ready {
        classes.set(*class, ClassProgress::Ready)?;
    }
    Ok(classes)
}

fn main_thread<C: Drop>(alloc: Global, code: C) -> Result<Threads<C>, NoMemory>
    ensures { IfOk result (λ threads. seat_at threads
        ≡ set_at (λ _. None) 1 (Some (record { standing = Live code; waiting = Awake; silent = 0 }))) }
{
    let mut threads = Threads::new(alloc);
    let seat = Seat {
        standing: Standing::Live(code),
        waiting: WaitState::Awake,
        silent: 0,
    };
    threads.insert(1, seat)?;
    Ok(threads)
}

impl<C: ThreadCode + Drop> MachineState<C> {
    /// The state at the start of a program, with the first thread's code, at which thread 1 begins. The opening's first free
    /// reference must be above 0, and above the references of the fixed objects, which `Opening::lies_below_first` decides. It
    /// fails where memory runs out alone.
    pub fn start(alloc: Global, opening: &Opening, code: C) -> Result<Self, NoMemory>
        requires { LiesBelowFirst opening.now }
        ensures { IfOk result (λ machine. machine_in C.state machine ≡ start_of opening.now (C.state code)) }
    {
        Ok(MachineState {
            alloc,
            objects: fixed_table(alloc, opening.objects.as_slice())?,
            classes: ready_classes(alloc, opening.ready.as_slice())?,
            threads: main_thread(alloc, code)?,
            lines: Rows::new(alloc),
            first: opening.first,
            taken: 0,
        })
    }
}
