//! Tests of instructions that need no operation: what they leave, and what stops a run.

use crate::setting::{NoConstants, frames_with, stack_is};
use instructions::{
    Arithmetic, Conversion, Instr, LocalAccess, Plain, Shift, StackOperation, Target, Test,
    ValueKind, What,
};
use interp_local::{LocalStep, local_step, look_ahead, make_quicks, run_local, surely_moves};
use std::test::Fail;

/// The words of -1 and of the least int; the high half of the least long is the same.
const MINUS_ONE: u32 = 0xffff_ffff;

const LEAST: u32 = 0x8000_0000;

/// An instruction, its operands and what it leaves, the top last. A long has its low half first.
const ROWS: [(Plain, &[u32], &[u32]); 30] = [
    (
        Plain::IntArithmetic(Arithmetic::Add),
        &[0x7fff_ffff, 1],
        &[LEAST],
    ),
    (
        Plain::IntArithmetic(Arithmetic::Subtract),
        &[2, 3],
        &[MINUS_ONE],
    ),
    (
        Plain::IntArithmetic(Arithmetic::Multiply),
        &[LEAST, 2],
        &[0],
    ),
    (
        Plain::IntArithmetic(Arithmetic::Divide),
        &[LEAST, MINUS_ONE],
        &[LEAST],
    ),
    (
        Plain::IntArithmetic(Arithmetic::Divide),
        &[0xffff_fff9, 2],
        &[0xffff_fffd],
    ),
    (
        Plain::IntArithmetic(Arithmetic::Remainder),
        &[LEAST, MINUS_ONE],
        &[0],
    ),
    (
        Plain::IntArithmetic(Arithmetic::Remainder),
        &[0xffff_fff9, 2],
        &[MINUS_ONE],
    ),
    (
        Plain::IntArithmetic(Arithmetic::Xor),
        &[0b1100, 0b1010],
        &[0b0110],
    ),
    (
        Plain::LongArithmetic(Arithmetic::Add),
        &[MINUS_ONE, 0, 1, 0],
        &[0, 1],
    ),
    (
        Plain::LongArithmetic(Arithmetic::Subtract),
        &[0, 0, 1, 0],
        &[MINUS_ONE, MINUS_ONE],
    ),
    (
        Plain::LongArithmetic(Arithmetic::Divide),
        &[0, LEAST, MINUS_ONE, MINUS_ONE],
        &[0, LEAST],
    ),
    (
        Plain::LongArithmetic(Arithmetic::Remainder),
        &[7, 0, 0xffff_fffe, MINUS_ONE],
        &[1, 0],
    ),
    (Plain::IntNegate, &[LEAST], &[LEAST]),
    (Plain::LongNegate, &[1, 0], &[MINUS_ONE, MINUS_ONE]),
    (Plain::IntShift(Shift::Left), &[1, 33], &[2]),
    (Plain::IntShift(Shift::Right), &[LEAST, 31], &[MINUS_ONE]),
    (Plain::IntShift(Shift::UnsignedRight), &[LEAST, 31], &[1]),
    (Plain::LongShift(Shift::Left), &[1, 0, 96], &[0, 1]),
    (
        Plain::LongShift(Shift::Right),
        &[0, LEAST, 63],
        &[MINUS_ONE, MINUS_ONE],
    ),
    (
        Plain::LongShift(Shift::UnsignedRight),
        &[0, LEAST, 63],
        &[1, 0],
    ),
    (Plain::LongCompare, &[0, LEAST, 1, 0], &[MINUS_ONE]),
    (
        Plain::Convert(Conversion::IntToLong),
        &[MINUS_ONE],
        &[MINUS_ONE, MINUS_ONE],
    ),
    (Plain::Convert(Conversion::LongToInt), &[7, 9], &[7]),
    (
        Plain::Convert(Conversion::IntToByte),
        &[0x1ff],
        &[MINUS_ONE],
    ),
    (
        Plain::Convert(Conversion::IntToChar),
        &[MINUS_ONE],
        &[0xffff],
    ),
    (
        Plain::Convert(Conversion::IntToShort),
        &[0x8000],
        &[0xffff_8000],
    ),
    (
        Plain::Stack(StackOperation::DupX2),
        &[1, 2, 3],
        &[3, 1, 2, 3],
    ),
    (
        Plain::Stack(StackOperation::Dup2X1),
        &[1, 2, 3],
        &[2, 3, 1, 2, 3],
    ),
    (
        Plain::Stack(StackOperation::Dup2X2),
        &[1, 2, 3, 4],
        &[3, 4, 1, 2, 3, 4],
    ),
    (Plain::Stack(StackOperation::Swap), &[1, 2], &[2, 1]),
];

fn plain(op: Plain) -> Instr<Target> {
    Instr {
        at: 0,
        next: 1,
        what: What::Plain(op),
    }
}

#[test]
fn instructions_leave_the_words_of_the_standard(rt: HostRuntime) -> Result<(), Fail> {
    for (op, before, after) in ROWS {
        let mut frames = frames_with(rt.alloc(), before)?;
        let ahead = look_ahead(&NoConstants, &[plain(op)], &frames);
        assert!(rt; matches!(ahead, LocalStep::Moved));
        let step = local_step(&NoConstants, &[plain(op)], &mut frames);
        assert!(rt; matches!(step, LocalStep::Moved));
        assert!(rt; stack_is(&frames, after) && frames.step() == 1);
    }
    Ok(())
}

/// Instructions that aren't executed, with their operands: a zero divisor, an operand too few, no room, an operation.
const NOT_MOVED: [(Plain, &[u32], Option<u32>); 5] = [
    (Plain::IntArithmetic(Arithmetic::Divide), &[1, 0], Some(13)),
    (
        Plain::LongArithmetic(Arithmetic::Remainder),
        &[1, 0, 0, 0],
        Some(13),
    ),
    (Plain::IntArithmetic(Arithmetic::Add), &[1], None),
    (
        Plain::Stack(StackOperation::Dup),
        &[1, 2, 3, 4, 5, 6, 7, 8],
        None,
    ),
    (Plain::ArrayLength, &[1], None),
];

fn thrown(step: LocalStep) -> Option<u32> {
    match step {
        LocalStep::Throw(class) => Some(class),
        _ => None,
    }
}

#[test]
fn what_is_not_executed_changes_nothing(rt: HostRuntime) -> Result<(), Fail> {
    for (op, words, class) in NOT_MOVED {
        let mut frames = frames_with(rt.alloc(), words)?;
        let step = local_step(&NoConstants, &[plain(op)], &mut frames);
        assert!(rt; !matches!(step, LocalStep::Moved) && thrown(step) == class);
        assert!(rt; stack_is(&frames, words) && frames.step() == 0);
    }
    Ok(())
}

/// An instruction, its operands, and whether one look says that it moves: not where it is none that one look identifies, and not
/// where an operand or room is missing or the divisor is zero.
const IN_ONE_LOOK: [(Plain, &[u32], bool); 6] = [
    (Plain::IntArithmetic(Arithmetic::Add), &[1, 2], true),
    (Plain::IntArithmetic(Arithmetic::Add), &[1], false),
    (Plain::IntArithmetic(Arithmetic::Divide), &[1, 0], false),
    (Plain::LongCompare, &[1, 0, 2, 0], true),
    (Plain::Null, &[1, 2, 3, 4, 5, 6, 7, 8], false),
    (Plain::IntNegate, &[1], false),
];

#[test]
fn one_look_says_what_moves(rt: HostRuntime) -> Result<(), Fail> {
    for (op, words, moves) in IN_ONE_LOOK {
        let steps = [plain(op)];
        let quicks = make_quicks(rt.alloc(), &steps)?;
        let frames = frames_with(rt.alloc(), words)?;
        assert!(rt; surely_moves(&NoConstants, &steps, &quicks, &frames) == moves);
    }
    Ok(())
}

fn at_zero(what: What<Target>) -> Instr<Target> {
    Instr {
        at: 0,
        next: 1,
        what,
    }
}

/// It adds numbers until the divisor is 0: quick instructions, and two that aren't.
fn counting_down() -> [Instr<Target>; 6] {
    let again = Target { at: 0, step: 0 };
    [
        at_zero(What::Int(-1)),
        plain(Plain::IntArithmetic(Arithmetic::Add)),
        plain(Plain::Stack(StackOperation::Dup)),
        at_zero(What::Branch(Test::NonNull, again)),
        plain(Plain::IntArithmetic(Arithmetic::Divide)),
        at_zero(What::Local(LocalAccess::Load(ValueKind::Int), 0)),
    ]
}

#[test]
fn a_run_stops_where_no_step_comes_next(rt: HostRuntime) -> Result<(), Fail> {
    let steps = counting_down();
    let quicks = make_quicks(rt.alloc(), &steps)?;
    let mut frames = frames_with(rt.alloc(), &[9, 3])?;
    let run = run_local(&NoConstants, &steps, &quicks, &mut frames, 7);
    assert!(rt; run.steps == 7 && matches!(run.stop, LocalStep::Moved));
    assert!(rt; stack_is(&frames, &[9, 1, 1]) && frames.step() == 3);
    let run = run_local(&NoConstants, &steps, &quicks, &mut frames, 100);
    assert!(rt; run.steps == 5 && thrown(run.stop) == Some(13));
    assert!(rt; stack_is(&frames, &[9, 0]) && frames.step() == 4);
    let run = run_local(&NoConstants, &steps, &quicks, &mut frames, 0);
    assert!(rt; run.steps == 0 && matches!(run.stop, LocalStep::Moved));
    Ok(())
}
