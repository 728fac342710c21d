//! Tests of `run`: host threads give the threads of a program turns at once.

use crate::ending::{MORE, MOST};
use crate::programs::{Program, run_of};
use jr_ports::{Gate, NoGate};
use jrev_cases::{Class, File, NO_FAULTS, owned_files, run_gated};
use std::sync::atomic::{AtomicU64, Ordering};
use std::test::Fail;
use std::thread;

/// Adds 1 to a static int 100,000 times, each time under a lock that the class makes as it is initialized.
const ADDER: &str = "class Adder
super java/lang/Thread
field 8 lock Ljava/lang/Object;
field 8 sum I
method 8 <clinit> ()V stack 2 locals 0
new java/lang/Object
dup
invokespecial java/lang/Object <init> ()V
putstatic Adder lock Ljava/lang/Object;
return
end
method 1 <init> ()V stack 1 locals 1
aload_0
invokespecial java/lang/Thread <init> ()V
return
end
method 1 run ()V stack 2 locals 2
ldc int 100000
istore_1
again:
frame Adder int /
iload_1
ifle done
getstatic Adder lock Ljava/lang/Object;
monitorenter
getstatic Adder sum I
iconst_1
iadd
putstatic Adder sum I
getstatic Adder lock Ljava/lang/Object;
monitorexit
iinc 1 -1
goto again
done:
frame Adder int /
return
end
";

/// Two threads add up, and main joins them and prints the sum.
const ADDS: &str = "class Main
method 9 main ([Ljava/lang/String;)V stack 2 locals 3
new Adder
dup
invokespecial Adder <init> ()V
astore_1
new Adder
dup
invokespecial Adder <init> ()V
astore_2
aload_1
invokevirtual Adder start ()V
aload_2
invokevirtual Adder start ()V
aload_1
invokevirtual Adder join ()V
aload_2
invokevirtual Adder join ()V
getstatic java/lang/System out Ljava/io/PrintStream;
getstatic Adder sum I
invokevirtual java/io/PrintStream println (I)V
return
end
";

const ADDING: &[File] = &[
    File::Text("Main.class", ADDS),
    File::Text("Adder.class", ADDER),
];

/// Sets one static int of Main and goes round until the other one is set.
const FIRST: &str = "class First
super java/lang/Thread
method 1 <init> ()V stack 1 locals 1
aload_0
invokespecial java/lang/Thread <init> ()V
return
end
method 1 run ()V stack 1 locals 1
iconst_1
putstatic Main a I
again:
frame First /
getstatic Main b I
ifeq again
return
end
";

const SECOND: &str = "class Second
super java/lang/Thread
method 1 <init> ()V stack 1 locals 1
aload_0
invokespecial java/lang/Thread <init> ()V
return
end
method 1 run ()V stack 1 locals 1
iconst_1
putstatic Main b I
again:
frame Second /
getstatic Main a I
ifeq again
return
end
";

/// Starts both, joins them and prints the sum of both ints.
const MEETS: &str = "class Main
field 8 a I
field 8 b I
method 9 main ([Ljava/lang/String;)V stack 3 locals 3
new First
dup
invokespecial First <init> ()V
astore_1
new Second
dup
invokespecial Second <init> ()V
astore_2
aload_1
invokevirtual First start ()V
aload_2
invokevirtual Second start ()V
aload_1
invokevirtual First join ()V
aload_2
invokevirtual Second join ()V
getstatic java/lang/System out Ljava/io/PrintStream;
getstatic Main a I
getstatic Main b I
iadd
invokevirtual java/io/PrintStream println (I)V
return
end
";

const MEETING: &[File] = &[
    File::Text("Main.class", MEETS),
    File::Text("First.class", FIRST),
    File::Text("Second.class", SECOND),
];

/// How often a gate looks before it gives up.
const LOOKS: u64 = 200_000_000;

/// Waits until a number is reached, and says whether it was.
fn reaches(count: &AtomicU64, wanted: u64) -> bool {
    for look in 0..LOOKS {
        if count.load(Ordering::SeqCst) >= wanted {
            return true;
        }
        if look % 1000 == 999 {
            thread::yield_now();
        }
    }
    false
}

/// Lets worker 1 through in epoch 2 only once worker 2 has passed in it. Says how often it gave up.
#[derive(Drop)]
struct SecondFirst {
    passed: AtomicU64,
    given_up: AtomicU64,
}

impl Gate for SecondFirst {
    fn pass(&self, worker: u32, epoch: u64) {
        if epoch == 2 && worker == 2 {
            self.passed.fetch_add(1, Ordering::SeqCst);
        }
        if epoch == 2 && worker == 1 && !reaches(&self.passed, 1) {
            self.given_up.fetch_add(1, Ordering::SeqCst);
        }
    }
}

/// Lets the workers through in epoch 2 only once three have come to it. Says how often it gave up.
#[derive(Drop)]
struct Together {
    come: AtomicU64,
    given_up: AtomicU64,
}

impl Gate for Together {
    fn pass(&self, _worker: u32, epoch: u64) {
        if epoch == 2 {
            self.come.fetch_add(1, Ordering::SeqCst);
            if !reaches(&self.come, 3) {
                self.given_up.fetch_add(1, Ordering::SeqCst);
            }
        }
    }
}

#[test]
fn threads_of_a_program_add_up_on_host_threads(rt: HostRuntime) -> Result<(), Fail> {
    let alloc = rt.alloc();
    let files = owned_files(&rt, alloc, ADDING)?;
    let seen = run_gated(
        &rt,
        alloc,
        &["run", "D", "Main"],
        files,
        "",
        NO_FAULTS,
        &NoGate,
    )?;
    assert!(rt; seen.status == 0 && seen.out.as_slice() == b"200000\n".as_slice());
    Ok(())
}

#[test]
fn a_crosswise_program_ends_or_is_stuck(rt: HostRuntime) -> Result<(), Fail> {
    let alloc = rt.alloc();
    let files = owned_files(
        &rt,
        alloc,
        &[File::Made(Class::Crosswise), File::Made(Class::Locker)],
    )?;
    let seen = run_gated(
        &rt,
        alloc,
        &["run", "D", "Main"],
        files,
        "",
        NO_FAULTS,
        &NoGate,
    )?;
    assert!(rt; seen.out.as_slice() == b"1\n".as_slice());
    assert!(rt; seen.status == 0 || seen.status == 5);
    Ok(())
}

/// As many threads as there can be, and one more.
const STARTED: [(Program, u8, &str, &str); 2] = [
    (MOST, 0, "254\n", ""),
    (MORE, 6, "", "limit: threads thread 1\n"),
];

#[test]
fn host_threads_run_as_many_threads_as_there_can_be(rt: HostRuntime) -> Result<(), Fail> {
    for (program, status, out, err) in STARTED {
        let seen = run_of(&rt, rt.alloc(), &program, "run", &[], "", NO_FAULTS)?;
        assert!(rt; seen.status == status && seen.out.as_slice() == out.as_bytes());
        assert!(rt; seen.err.as_slice() == err.as_bytes());
    }
    Ok(())
}

#[test]
fn a_worker_waits_for_the_next_one(rt: HostRuntime) -> Result<(), Fail> {
    let alloc = rt.alloc();
    let gate = SecondFirst {
        passed: AtomicU64::new(0),
        given_up: AtomicU64::new(0),
    };
    let words = ["run", "D", "Main", "--workers=4", "--slice=10000"];
    let files = owned_files(&rt, alloc, ADDING)?;
    let seen = run_gated(&rt, alloc, &words, files, "", NO_FAULTS, &gate)?;
    assert!(rt; gate.given_up.load(Ordering::SeqCst) == 0);
    assert!(rt; seen.status == 0 && seen.out.as_slice() == b"200000\n".as_slice());
    Ok(())
}

#[test]
fn threads_that_wait_for_each_other_run_at_once(rt: HostRuntime) -> Result<(), Fail> {
    let alloc = rt.alloc();
    let gate = Together {
        come: AtomicU64::new(0),
        given_up: AtomicU64::new(0),
    };
    let words = [
        "run",
        "D",
        "Main",
        "--workers=3",
        "--slice=1000000",
        "--turns=900000",
    ];
    let files = owned_files(&rt, alloc, MEETING)?;
    let seen = run_gated(&rt, alloc, &words, files, "", NO_FAULTS, &gate)?;
    assert!(rt; gate.given_up.load(Ordering::SeqCst) == 0);
    assert!(rt; seen.status == 0 && seen.out.as_slice() == b"2\n".as_slice());
    Ok(())
}
