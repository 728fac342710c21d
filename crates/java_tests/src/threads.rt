//! What a thread wants, saves and goes back to.

ghost use Rattle.std.specs.Prelude.{◌≡◌, ◌≢◌, [], IfOk, IsTrue};

use crate::setting::program_of;
use interp_calls::JavaCode;
use java_world::JavaWorld;
use op_core::{Next, NoMemory, Op, Reply, ThreadCode};
use std::test::Fail;

/// A class whose main method makes four silent steps between the entry of a monitor and its exit, and then returns.
const COUNTS: &str = "class Counts
method 9 main ([Ljava/lang/String;)V stack 1 locals 2
aload_0
monitorenter
iconst_2
istore_1
iinc 1 3
aload_0
monitorexit
return
end
";

// The class is ready, and `main` is called and comes to its monitor.
fn begins<C: ThreadCode>(code: &mut C) -> bool {
    let Next::Want(Op::Init(_)) = code.next() else {
        return false;
    };
    code.reply(Reply::Ready);
    match code.next() {
        Next::Silent if !code.leaves() => code.silent().is_ok() && code.run_silent(10) == 1,
        _ => false,
    }
}

// Saves at the entry of a monitor, if the thread is there.
fn save<C: ThreadCode>(code: &mut C) -> Result<bool, NoMemory>
    ensures { IfOk result (λ is_saved. IsTrue is_saved → C.saved code.new ≢ []) }
{
    match code.next() {
        Next::Want(Op::Enter(_)) => {
            code.save()?;
            Ok(true)
        }
        _ => Ok(false),
    }
}

// The monitor is entered and exited, with this many silent steps in between.
fn goes_on<C: ThreadCode>(code: &mut C) -> Option<u64>
    ensures { C.saved code.new ≡ C.saved code.old }
{
    let Next::Want(Op::Enter(_)) = code.next() else {
        return None;
    };
    code.reply(Reply::Done);
    let made = code.run_silent(10);
    let Next::Want(Op::Exit(_)) = code.next() else {
        return None;
    };
    code.reply(Reply::Done);
    Some(made)
}

// What was done since the save is done again after it; the return ends the frame that was on top.
fn goes_back<C: ThreadCode>(code: &mut C) -> Result<bool, NoMemory> {
    let saved = save(code)?;
    let first = goes_on(code);
    let left = code.leaves();
    if !saved {
        return Ok(false);
    }
    code.restore();
    let stays = !code.leaves();
    Ok(first == Some(4) && left && stays)
}

// A save that is dropped holds nothing back: the frame ends, and then the thread.
fn ends<C: ThreadCode>(code: &mut C) -> Result<bool, NoMemory> {
    let saved = save(code)?;
    let made = goes_on(code);
    let left = made == Some(4) && code.leaves();
    if !saved {
        return Ok(false);
    }
    code.drop_save();
    match code.next() {
        Next::Silent if !code.leaves() => {}
        _ => return Ok(false),
    }
    let made = code.silent().is_ok();
    Ok(left && made && matches!(code.next(), Next::Want(Op::End(None))))
}

// A copy wants the same, and a new thread the class of its object.
fn branches<C: ThreadCode + Drop>(code: &C) -> Result<bool, NoMemory> {
    let copy = code.copy()?;
    let child = code.child(7)?;
    let same = matches!(copy.next(), Next::Want(Op::Enter(_)));
    Ok(same && matches!(child.next(), Next::Want(Op::ClassOf(7))))
}

fn goes_through<C: ThreadCode + Drop>(code: &mut C) -> Result<bool, NoMemory> {
    Ok(begins(code) && branches(code)? && goes_back(code)? && ends(code)?)
}

#[test]
fn a_thread_goes_back_to_what_it_saved(rt: HostRuntime) -> Result<(), Fail> {
    let alloc = rt.alloc();
    let Some(program) = program_of(alloc, b"Counts", COUNTS) else {
        return Err(Fail::from("the program is not accepted"));
    };
    let world = JavaWorld::new(alloc, &program)?;
    let Ok(mut code) = JavaCode::main(alloc, &world, program.main()) else {
        return Err(Fail::from("no memory"));
    };
    assert!(rt; matches!(goes_through(&mut code), Ok(true)));
    Ok(())
}
