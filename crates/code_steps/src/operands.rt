//! An instruction with its operands (JVMS 6.5).

ghost use Rattle.std.specs.Prelude.{◌≡◌, ◌≢◌, ◌<◌, Err, length};
ghost use Rattle.std.specs.Option.{option_map};
ghost use Rattle.instructions.specs.Table.{shown_row};
ghost use Rattle.code_steps.specs.Reading.{Gives, GivesExactly, one_at, two_at, wide_at, widened_at, constant_of, ReadsOperands, ReadsRow, ReadsInstruction, interface_call_at, ChecksInterfaceCall};

use crate::constants::{call, class, constant, field, is_interface_call, long_constant, new_array};
use crate::cursor::{Cursor, far_target, near_target};
use crate::fault::{StepFault, StepRefusal};
use crate::switches::{lookup_switch, table_switch};
use class_pool::Pool;
use instructions::{Form, Row, What, row};
use std::alloc::Global;

/// The operands of a form in twice as many bytes.
fn widened(at: u32, row: Option<Row>, cursor: &mut Cursor<'_>) -> Result<What<i64>, StepRefusal>
    ensures { GivesExactly result cursor.new (widened_at at (option_map shown_row row) cursor.old) }
{
    match row {
        Some(
            Row {
                form: Form::Local(access),
                ..
            },
        ) => Ok(What::Local(access, cursor.u16(at)?)),
        Some(
            Row {
                form: Form::Increment,
                ..
            },
        ) => {
            let local = cursor.u16(at)?;
            let by = cursor.u16(at)?.cast_signed();
            Ok(What::Increment { local, by })
        }
        _ => Err(StepRefusal::Fault(StepFault::Operand(at))),
    }
}

#[tactic(auto, unfolding(crate::specs::Reading::wide_at))]
fn wide(at: u32, cursor: &mut Cursor<'_>) -> Result<What<i64>, StepRefusal>
    ensures { GivesExactly result cursor.new (wide_at at cursor.old) }
{
    let number = cursor.u8(at)?;
    widened(at, row(number), cursor)
}

fn interface_call(
    pool: &Pool<'_>,
    at: u32,
    cursor: &mut Cursor<'_>,
) -> Result<What<i64>, StepRefusal>
    ensures read { Gives result cursor.new (ChecksInterfaceCall pool.now at (interface_call_at at cursor.old)) }
    // It takes no memory.
    ensures memory { result ≢ Err StepRefusal.NoMemory }
{
    let index = cursor.u16(at)?;
    let count = cursor.u8(at)?;
    let last = cursor.u8(at)?;
    if !is_interface_call(pool, index, count, last) {
        return Err(StepRefusal::Fault(StepFault::Operand(at)));
    }
    Ok(What::InterfaceCall(index))
}

/// The instruction of a form whose operands begin at the cursor.
#[tactic(auto, unfolding(crate::specs::Reading::ReadsOperands))]
fn operands(
    alloc: Global,
    pool: &Pool<'_>,
    at: u32,
    form: Form,
    cursor: &mut Cursor<'_>,
) -> Result<What<i64>, StepRefusal>
    ensures { Gives result cursor.new (ReadsOperands pool.now at form cursor.old) }
{
    match form {
        Form::Plain(plain) => Ok(What::Plain(plain)),
        Form::FixedInt(int) => Ok(What::Int(int)),
        Form::FixedLong(long) => Ok(What::Long(long)),
        Form::FixedLocal(access, local) => Ok(What::Local(access, local)),
        Form::ByteInt => Ok(What::Int(i32::from(cursor.u8(at)?.cast_signed()))),
        Form::ShortInt => Ok(What::Int(i32::from(cursor.u16(at)?.cast_signed()))),
        Form::ByteConstant => Ok(constant(pool.constants(), at, u16::from(cursor.u8(at)?))?),
        Form::Constant => Ok(constant(pool.constants(), at, cursor.u16(at)?)?),
        Form::LongConstant => Ok(long_constant(pool.constants(), at, cursor.u16(at)?)?),
        Form::Local(access) => Ok(What::Local(access, u16::from(cursor.u8(at)?))),
        Form::Increment => {
            let local = u16::from(cursor.u8(at)?);
            let by = i16::from(cursor.u8(at)?.cast_signed());
            Ok(What::Increment { local, by })
        }
        Form::Branch(test) => Ok(What::Branch(test, near_target(at, cursor.u16(at)?))),
        Form::FarBranch(test) => Ok(What::Branch(test, far_target(at, cursor.u32(at)?))),
        Form::TableSwitch => table_switch(alloc, at, cursor),
        Form::LookupSwitch => lookup_switch(alloc, at, cursor),
        Form::Field(access) => Ok(field(pool.constants(), access, at, cursor.u16(at)?)?),
        Form::Call(kind) => Ok(call(pool.constants(), kind, at, cursor.u16(at)?)?),
        Form::InterfaceCall => interface_call(pool, at, cursor),
        Form::Class(purpose) => Ok(class(pool.constants(), purpose, at, cursor.u16(at)?)?),
        Form::NewArray => Ok(new_array(at, cursor.u8(at)?)?),
        Form::Wide => wide(at, cursor),
    }
}

/// The instruction whose first byte is the next, at this offset.
#[tactic(auto, unfolding(crate::specs::Reading::ReadsInstruction))]
pub fn instruction(
    alloc: Global,
    pool: &Pool<'_>,
    at: u32,
    cursor: &mut Cursor<'_>,
) -> Result<What<i64>, StepRefusal>
    requires { 0 < length cursor.old }
    ensures { Gives result cursor.new (ReadsInstruction pool.now at cursor.old) }
{
    let number = cursor.u8(at)?;
    if number > 201 {
        return Err(StepRefusal::Fault(StepFault::Opcode(at)));
    }
    match row(number) {
        None => Err(StepRefusal::Fault(StepFault::Unsupported(at))),
        Some(row) => operands(alloc, pool, at, row.form, cursor),
    }
}
