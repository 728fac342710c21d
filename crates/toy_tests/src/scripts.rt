//! Tests of thread codes that follow scripts: operations in order, saves, frames and copies.

ghost use Rattle.std.specs.Prelude.{◌≡◌, ◌∷◌, true, IfOk};

use op_core::{
    CodeStop, Line, Next, NoMemory, Op, Reply, Script, ScriptStep, ThreadCode, after_silent_steps,
};
use std::test::Fail;
use toy_code::{Toy, ToyScript, ToyStep};

/// Makes the silent step that comes next, unless it ends a frame that is kept.
fn quiet<C: ThreadCode>(code: &mut C) -> Result<bool, CodeStop>
    ensures { C.saved code.new ≡ C.saved code.old }
{
    if code.leaves() {
        return Ok(false);
    }
    match code.next() {
        Next::Silent => {
            code.silent()?;
            Ok(true)
        }
        _ => Ok(false),
    }
}

/// Answers each print until the code is silent or wants another operation, and counts them.
fn prints<C: ThreadCode>(code: &mut C, most: u32) -> u32 {
    let mut count = 0;
    for _ in 0..most {
        match code.next() {
            Next::Want(Op::Print(_)) => {
                code.reply(Reply::Done);
                if count < most {
                    count += 1;
                }
            }
            _ => {}
        }
    }
    count
}

/// Saves and enters, if a monitor is wanted, and says whether it is.
fn enters<C: ThreadCode>(code: &mut C) -> Result<bool, CodeStop>
    ensures saved { IfOk result (λ entered. entered ≡ true → C.saved code.new ≡ C.state code.old ∷ C.saved code.old) }
{
    match code.next() {
        Next::Want(Op::Enter(_)) => {
            code.save()?;
            code.reply(Reply::Done);
            Ok(true)
        }
        _ => Ok(false),
    }
}

/// Whether the code leaves a kept frame: with saves in two frames, then without the inner save, then
/// after a return to the outer frame, and then without a save.
fn leaves_by_turns<C: ThreadCode>(code: &mut C) -> Result<[bool; 4], CodeStop> {
    if !enters(code)? {
        return Ok([false; 4]);
    }
    quiet(code)?;
    if !enters(code)? {
        return Ok([false; 4]);
    }
    let inner = code.leaves();
    code.drop_save();
    let dropped = code.leaves();
    quiet(code)?;
    let outer = code.leaves();
    code.drop_save();
    Ok([inner, dropped, outer, code.leaves()])
}

/// Whether the code enters a monitor, is silent then, and wants to enter object 1 once it has gone back.
fn goes_the_same_way<C: ThreadCode>(code: &mut C) -> Result<bool, CodeStop> {
    if !enters(code)? {
        return Ok(false);
    }
    let is_silent = quiet(code)?;
    code.restore();
    Ok(is_silent && matches!(code.next(), Next::Want(Op::Enter(1))))
}

fn next_of_child<C: ThreadCode + Drop>(code: &C, object: u32) -> Result<Next, NoMemory> {
    let child = code.child(object)?;
    Ok(child.next())
}

/// Whether the code and a copy of it are both silent.
fn copies_are_silent<C: ThreadCode + Drop>(code: &C) -> Result<bool, NoMemory> {
    let copy = code.copy()?;
    Ok(matches!(code.next(), Next::Silent) && matches!(copy.next(), Next::Silent))
}

const PRINTS_TWICE: [ScriptStep; 4] = [
    ScriptStep::Pass,
    ScriptStep::Operation(Op::Print(Line::Int(7))),
    ScriptStep::Operation(Op::Print(Line::Int(7))),
    ScriptStep::Operation(Op::End(None)),
];

#[test]
fn a_script_wants_its_operations_in_order(rt: HostRuntime) -> Result<(), Fail> {
    let mut code = Script::new(rt.alloc(), &PRINTS_TWICE);
    assert!(rt; matches!(code.next(), Next::Silent));
    assert!(rt; matches!(quiet(&mut code), Ok(true)));
    assert!(rt; prints(&mut code, 9) == 2);
    assert!(rt; matches!(code.next(), Next::Want(Op::End(None))));
    Ok(())
}

const CALLS_AND_RETURNS: [ScriptStep; 5] = [
    ScriptStep::Operation(Op::Enter(1)),
    ScriptStep::Call,
    ScriptStep::Operation(Op::Enter(1)),
    ScriptStep::Return,
    ScriptStep::Return,
];

#[test]
fn a_kept_frame_is_left_at_its_own_return_alone(rt: HostRuntime) -> Result<(), Fail> {
    let mut code = Script::new(rt.alloc(), &CALLS_AND_RETURNS);
    let leaves = leaves_by_turns(&mut code);
    assert!(rt; leaves.ok() == Some([true, false, true, false]));
    Ok(())
}

const ENTERS_AND_PASSES: [ScriptStep; 2] = [ScriptStep::Operation(Op::Enter(1)), ScriptStep::Pass];

#[test]
fn a_restored_script_goes_the_same_way_again(rt: HostRuntime) -> Result<(), Fail> {
    let mut code = Script::new(rt.alloc(), &ENTERS_AND_PASSES);
    assert!(rt; matches!(goes_the_same_way(&mut code), Ok(true)));
    Ok(())
}

const CALLS_TWICE: [ScriptStep; 2] = [ScriptStep::Call, ScriptStep::Call];

#[test]
fn no_silent_step_makes_a_1025th_frame(rt: HostRuntime) -> Result<(), Fail> {
    let mut code = Script::new(rt.alloc(), &CALLS_TWICE);
    code.place.frames = 1023;
    assert!(rt; matches!(quiet(&mut code), Ok(true)));
    assert!(rt; matches!(quiet(&mut code), Err(CodeStop::Frames)));
    assert!(rt; code.place.frames == 1024);
    Ok(())
}

const PASSES_AND_EXITS: [ScriptStep; 3] = [
    ScriptStep::Pass,
    ScriptStep::Pass,
    ScriptStep::Operation(Op::Exit(4)),
];

#[test]
fn a_started_thread_begins_at_its_object(rt: HostRuntime) -> Result<(), Fail> {
    let code = Script::new(rt.alloc(), &PASSES_AND_EXITS);
    let child = next_of_child(&code, 2);
    assert!(rt; matches!(child, Ok(Next::Want(Op::Exit(4)))));
    assert!(rt; matches!(copies_are_silent(&code), Ok(true)));
    assert!(rt; code.words(3, 8) == 8);
    Ok(())
}

const CALLS_PASSES_AND_JOINS: [ScriptStep; 3] = [
    ScriptStep::Call,
    ScriptStep::Pass,
    ScriptStep::Operation(Op::Join(3)),
];

#[test]
fn silent_steps_are_tried_on_a_copy(rt: HostRuntime) -> Result<(), Fail> {
    let code = Script::new(rt.alloc(), &CALLS_PASSES_AND_JOINS);
    let after = after_silent_steps(&code, 2).ok().flatten();
    let next = after.map(|after| after.next());
    assert!(rt; matches!(next, Some(Next::Want(Op::Join(3)))));
    assert!(rt; matches!(after_silent_steps(&code, 3), Ok(None)));
    assert!(rt; matches!(code.next(), Next::Silent));
    Ok(())
}

const TOYS: [ToyScript<'static>; 2] = [
    ToyScript {
        object: 1,
        steps: &[ToyStep::Do(Op::Enter(1)), ToyStep::Pass],
    },
    ToyScript {
        object: 2,
        steps: &[
            ToyStep::Do(Op::Enter(1)),
            ToyStep::Call,
            ToyStep::Do(Op::Enter(1)),
            ToyStep::Return,
            ToyStep::Return,
        ],
    },
];

#[test]
fn a_toy_goes_back_to_its_saves(rt: HostRuntime) -> Result<(), Fail> {
    let mut toy = Toy::new(rt.alloc(), &TOYS, 1);
    assert!(rt; matches!(goes_the_same_way(&mut toy), Ok(true)));
    assert!(rt;
        matches!(enters(&mut toy), Ok(true)) && matches!(copies_are_silent(&toy), Ok(true))
    );
    let mut other = Toy::new(rt.alloc(), &TOYS, 2);
    assert!(rt; leaves_by_turns(&mut other).ok() == Some([true, false, true, false]));
    assert!(rt; matches!(next_of_child(&other, 3), Ok(Next::Want(Op::End(None)))));
    assert!(rt; other.words(3, 8) == 8);
    Ok(())
}
