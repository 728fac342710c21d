//! Elements of arrays, whose class and length were asked for (JVMS 6.5 iaload, aastore).

ghost use Rattle.std.specs.Prelude.{◌≡◌};
ghost use Rattle.java_rows.specs.Numbers as numbers;
ghost use Rattle.java_rows.specs.Objects as objects;
ghost use Rattle.interp_plans.specs.Replies.{loads_then, stores_then, stores_word_then, stores_long_then, stores_reference_then, checked_then};
ghost use Rattle.interp_plans.specs.Todos.{plan_reached};
ghost use Rattle.interp_plans.specs.Uses.{frame_of};

use crate::values::STUCK;
use builtin_world::number::{ARRAY_INDEX_OUT_OF_BOUNDS_EXCEPTION, ARRAY_STORE_EXCEPTION};
use frame_snapshot::{Then, Todo};
use instructions::ElementKind;
use interp_local::{four, three, to_byte, to_char, to_short, two};
use interp_plans::{Here, JavaProgram, Reached, with_operands};
use op_core::{Op, Reply};

#[inline(always)]
fn is_index(index: u32, length: u32) -> bool
    ensures { result ≡ numbers.is_index index length }
{
    index < 1 << 31 && index < length
}

// The word that an array of a class keeps of an int.
#[inline(always)]
fn kept_element<P: JavaProgram>(here: &Here<'_, P>, kind: ElementKind, class: u32, word: u32) -> u32
    ensures { result ≡ objects.kept_element (P.units here.now.program.now) kind class word }
{
    match kind {
        ElementKind::ByteOrBoolean => {
            if here.program.is_boolean_array(class) {
                word % 2
            } else {
                to_byte(word)
            }
        }
        ElementKind::Char => to_char(word),
        ElementKind::Short => to_short(word),
        _ => word,
    }
}

/// An element is read.
#[inline(always)]
pub fn loads<P: JavaProgram>(here: &Here<'_, P>, kind: ElementKind, reply: Reply) -> Reached
    ensures { loads_then (frame_of here.now.frames.now.here) kind here.now.frames.now.here.stack reply
        ≡ plan_reached (P.units here.now.program.now) here.now.thread (frame_of here.now.frames.now.here) result }
{
    let Some((index, array)) = two(here.frames) else {
        return STUCK;
    };
    let Reply::Class(_, length) = reply else {
        return STUCK;
    };
    if !is_index(index, length) {
        return Reached::Goes(here.fail(ARRAY_INDEX_OUT_OF_BOUNDS_EXCEPTION));
    }
    match kind {
        ElementKind::Long => Reached::Goes(here.read_long(2, array, 2 * index)),
        _ => Reached::Goes(Todo::Wants(Op::Read(array, index), Then::Read(with_operands(2)))),
    }
}

#[inline(always)]
fn stores_word<P: JavaProgram>(here: &Here<'_, P>, kind: ElementKind, reply: Reply) -> Reached
    ensures { stores_word_then (P.units here.now.program.now) (frame_of here.now.frames.now.here) kind here.now.frames.now.here.stack reply
        ≡ plan_reached (P.units here.now.program.now) here.now.thread (frame_of here.now.frames.now.here) result }
{
    let Some((word, index, array)) = three(here.frames) else {
        return STUCK;
    };
    let Reply::Class(class, length) = reply else {
        return STUCK;
    };
    if !is_index(index, length) {
        return Reached::Goes(here.fail(ARRAY_INDEX_OUT_OF_BOUNDS_EXCEPTION));
    }
    let write = Op::Write(array, index, kept_element(here, kind, class, word));
    Reached::Goes(Todo::Wants(write, Then::Done(with_operands(3))))
}

#[inline(always)]
fn stores_long<P: JavaProgram>(here: &Here<'_, P>, reply: Reply) -> Reached
    ensures { stores_long_then (frame_of here.now.frames.now.here) here.now.frames.now.here.stack reply
        ≡ plan_reached (P.units here.now.program.now) here.now.thread (frame_of here.now.frames.now.here) result }
{
    let Some((high, low, index, array)) = four(here.frames) else {
        return STUCK;
    };
    let Reply::Class(_, length) = reply else {
        return STUCK;
    };
    if !is_index(index, length) {
        return Reached::Goes(here.fail(ARRAY_INDEX_OUT_OF_BOUNDS_EXCEPTION));
    }
    Reached::Goes(here.write_long(4, array, 2 * index, low, high))
}

#[inline(always)]
fn stores_reference<P: JavaProgram>(here: &Here<'_, P>, reply: Reply) -> Reached
    ensures { stores_reference_then (P.units here.now.program.now) (frame_of here.now.frames.now.here) here.now.frames.now.here.stack reply
        ≡ plan_reached (P.units here.now.program.now) here.now.thread (frame_of here.now.frames.now.here) result }
{
    let Some((value, index, array)) = three(here.frames) else {
        return STUCK;
    };
    let Reply::Class(class, length) = reply else {
        return STUCK;
    };
    if !is_index(index, length) {
        return Reached::Goes(here.fail(ARRAY_INDEX_OUT_OF_BOUNDS_EXCEPTION));
    }
    if value == 0 {
        let write = Op::Write(array, index, 0);
        return Reached::Goes(Todo::Wants(write, Then::Done(with_operands(3))));
    }
    Reached::Goes(Todo::Wants(Op::ClassOf(value), Then::Checked(class)))
}

/// An element is written.
#[inline(always)]
pub fn stores<P: JavaProgram>(here: &Here<'_, P>, kind: ElementKind, reply: Reply) -> Reached
    ensures { stores_then (P.units here.now.program.now) (frame_of here.now.frames.now.here) kind here.now.frames.now.here.stack reply
        ≡ plan_reached (P.units here.now.program.now) here.now.thread (frame_of here.now.frames.now.here) result }
{
    match kind {
        ElementKind::Long => stores_long(here, reply),
        ElementKind::Reference => stores_reference(here, reply),
        kind => stores_word(here, kind, reply),
    }
}

/// The class of a reference that is written was asked for.
pub fn checked<P: JavaProgram>(here: &Here<'_, P>, class: u32, reply: Reply) -> Reached
    ensures { checked_then (P.units here.now.program.now) (frame_of here.now.frames.now.here) class here.now.frames.now.here.stack reply
        ≡ plan_reached (P.units here.now.program.now) here.now.thread (frame_of here.now.frames.now.here) result }
{
    let Some((value, index, array)) = three(here.frames) else {
        return STUCK;
    };
    let Reply::Class(low, _) = reply else {
        return STUCK;
    };
    if !here.program.takes_element(class, low) {
        return Reached::Goes(here.fail(ARRAY_STORE_EXCEPTION));
    }
    let write = Op::Write(array, index, value);
    Reached::Goes(Todo::Wants(write, Then::Done(with_operands(3))))
}
