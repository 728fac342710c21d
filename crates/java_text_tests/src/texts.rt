//! What a thread asks for that appends to a builder.

use crate::setting::program_of;
use builtin_world::number::{STRING, STRING_BUILDER};
use instructions::PrimitiveType;
use interp_calls::{JavaCode, JavaProgram};
use java_world::JavaWorld;
use op_core::{Next, NoMemory, Op, Reply, ThreadCode};
use std::test::Fail;

/// A class whose main method appends "ab" and -7 to a new builder.
const APPENDS: &str = "class Appends
method 9 main ([Ljava/lang/String;)V stack 2 locals 1
new java/lang/StringBuilder
dup
invokespecial java/lang/StringBuilder <init> ()V
ldc str \"ab\"
invokevirtual java/lang/StringBuilder append (Ljava/lang/String;)Ljava/lang/StringBuilder;
bipush -7
invokevirtual java/lang/StringBuilder append (I)Ljava/lang/StringBuilder;
pop
return
end
";

/// The new objects: the builder, then each text with its String.
const BUILDER: u32 = 1001;

const FIRST_UNITS: u32 = 1002;

const FIRST: u32 = 1003;

const SECOND_UNITS: u32 = 1004;

const SECOND: u32 = 1005;

// The operations in order, each with the numbers of its reply, for a literal "ab" and a class of char arrays.
fn operations(literal: u32, chars: u32) -> [(Op, u32, u32); 25] {
    [
        (Op::New(STRING_BUILDER, 0), BUILDER, 0),
        // The literal is appended.
        (Op::ClassOf(BUILDER), STRING_BUILDER, 0),
        (Op::Read(BUILDER, 0), 0, 0),
        (Op::Read(literal, 0), 0, 0),
        (Op::ClassOf(literal), STRING, 0),
        (Op::New(chars, 2), FIRST_UNITS, 0),
        (Op::Write(FIRST_UNITS, 0, 97), 0, 0),
        (Op::Write(FIRST_UNITS, 1, 98), 0, 0),
        (Op::New(STRING, 0), FIRST, 0),
        (Op::Write(FIRST, 0, FIRST_UNITS), 0, 0),
        (Op::Write(BUILDER, 0, FIRST), 0, 0),
        // And the number.
        (Op::ClassOf(BUILDER), STRING_BUILDER, 0),
        (Op::Read(BUILDER, 0), FIRST, 0),
        (Op::Read(FIRST, 0), FIRST_UNITS, 0),
        (Op::ClassOf(FIRST_UNITS), chars, 2),
        (Op::Read(FIRST_UNITS, 0), 97, 0),
        (Op::Read(FIRST_UNITS, 1), 98, 0),
        (Op::New(chars, 4), SECOND_UNITS, 0),
        (Op::Write(SECOND_UNITS, 0, 97), 0, 0),
        (Op::Write(SECOND_UNITS, 1, 98), 0, 0),
        (Op::Write(SECOND_UNITS, 2, 45), 0, 0),
        (Op::Write(SECOND_UNITS, 3, 55), 0, 0),
        (Op::New(STRING, 0), SECOND, 0),
        (Op::Write(SECOND, 0, SECOND_UNITS), 0, 0),
        (Op::Write(BUILDER, 0, SECOND), 0, 0),
    ]
}

// Makes the silent steps that come next.
fn goes_on<C: ThreadCode>(code: &mut C) -> Result<(), NoMemory> {
    for _step in 0..20 {
        match code.next() {
            Next::Silent if !code.leaves() => match code.silent() {
                Ok(()) => {}
                Err(_) => return Err(NoMemory),
            },
            _ => return Ok(()),
        }
    }
    Ok(())
}

// The operation that is wanted gets a reply with these numbers.
fn answers<C: ThreadCode>(code: &mut C, a: u32, b: u32) -> Option<Op> {
    let Next::Want(op) = code.next() else {
        return None;
    };
    match op {
        Op::ClassOf(_) => code.reply(Reply::Class(a, b)),
        Op::Read(..) => code.reply(Reply::Value(a)),
        Op::New(..) => code.reply(Reply::Made(a)),
        Op::Write(..) => code.reply(Reply::Done),
        _ => return None,
    }
    Some(op)
}

// Whether the thread asks for these operations in order, and then ends.
fn asks_in_order<C: ThreadCode>(
    code: &mut C,
    operations: &[(Op, u32, u32)],
) -> Result<bool, NoMemory> {
    let Next::Want(Op::Init(_)) = code.next() else {
        return Ok(false);
    };
    code.reply(Reply::Ready);
    for (op, a, b) in operations {
        goes_on(code)?;
        if answers(code, *a, *b) != Some(*op) {
            return Ok(false);
        }
    }
    goes_on(code)?;
    Ok(matches!(code.next(), Next::Want(Op::End(None))))
}

#[test]
fn an_append_asks_for_its_operations_in_order(rt: HostRuntime) -> Result<(), Fail> {
    let alloc = rt.alloc();
    let Some(program) = program_of(alloc, b"Appends", APPENDS) else {
        return Err(Fail::from("the program is not accepted"));
    };
    let world = JavaWorld::new(alloc, &program)?;
    let Some(chars) = world.primitive_array(PrimitiveType::Char) else {
        return Err(Fail::from("no class of char arrays"));
    };
    let literal = world.world().string_reference(0);
    let Ok(mut code) = JavaCode::main(alloc, &world, program.main()) else {
        return Err(Fail::from("no memory"));
    };
    let operations = operations(literal, chars);
    assert!(rt; matches!(asks_in_order(&mut code, &operations), Ok(true)));
    Ok(())
}
