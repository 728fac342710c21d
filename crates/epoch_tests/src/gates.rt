//! Tests of the gate that workers pass.

use crate::running::{Plan, run_with};
use jr_ports::Gate;
use std::alloc::Global;
use std::sync::atomic::{AtomicU64, Ordering};
use std::test::Fail;
use std::thread::Threads;
use table_cases::STEPS;

/// A gate that counts who passes it.
#[derive(Drop)]
struct CountingGate {
    first: AtomicU64,
    others: AtomicU64,
    epochs: AtomicU64,
}

impl Gate for CountingGate {
    fn pass(&self, worker: u32, epoch: u64) {
        if worker == 1 {
            self.first.fetch_add(1, Ordering::SeqCst);
            self.epochs.store(epoch, Ordering::SeqCst);
        } else {
            self.others.fetch_add(1, Ordering::SeqCst);
        }
    }
}

// Whether the first worker passed the gate once in each epoch, and the others in fewer, in none where there are none.
fn passes_are_right<R: Threads + Sync>(rt: &R, alloc: Global, plan: Plan) -> Result<bool, Fail> {
    let gate = CountingGate {
        first: AtomicU64::new(0),
        others: AtomicU64::new(0),
        epochs: AtomicU64::new(0),
    };
    let _run = run_with(rt, alloc, &STEPS, 1000, plan, &gate)?;
    let first = gate.first.load(Ordering::SeqCst);
    let others = gate.others.load(Ordering::SeqCst);
    let epochs = gate.epochs.load(Ordering::SeqCst);
    Ok(first == epochs && others < epochs && (others > 0) == (plan.workers > 1))
}

#[test]
fn each_worker_passes_the_gate_once_an_epoch(rt: HostRuntime) -> Result<(), Fail> {
    for workers in 1..5 {
        assert!(rt; passes_are_right(&rt, rt.alloc(), Plan { workers, slice: 4 })?);
    }
    Ok(())
}
