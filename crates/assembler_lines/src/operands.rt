//! Reading the operands of instructions (JVMS 6.5).

ghost use Rattle.std.specs.Prelude.{◌≡◌, ◌≤◌, ◌+◌, MatchOption, option_map};
ghost use Rattle.assembler_lines.specs.declared.operation.Operands.TheVariants as operands;
ghost use Rattle.instructions.specs.Table.{shown_row, row_named};
ghost use Rattle.decimal_numbers.specs.Numbers.{number_up_to, integer_up_to};
ghost use Rattle.assembler_lines.specs.Operands.{IsCount, SaysInterfaceMethod, IsOperation, SaysOperation};
ghost use Rattle.assembler_lines.specs.Front.{Gives, Answers};
ghost use Rattle.assembler_lines.specs.ReadingOperands.{Reads, none_at, one_at, name_of, increment_at, loaded_of, constant_at, member_words, member_at, element_type, ReadsOperands, wide_operands_at, wide_at};

use crate::front::{first_plain, integer, is_text, number, only_plain, only_word};
use crate::operation::{Loaded, Operands, Operation};
use crate::switches::{lookup_switch, table_switch};
use crate::word::{LineRefusal, Word};
use class_names::parameter_size;
use instructions::{Form, PrimitiveType, Row, row_named};
use rows::{Bytes, Rows};
use std::alloc::Global;

fn no_operands(words: &[Word]) -> Result<Operands, LineRefusal>
    ensures { Reads result (none_at words.now) }
{
    if words.is_empty() {
        Ok(Operands::None)
    } else {
        Err(LineRefusal::Malformed)
    }
}

/// The int that bipush or sipush pushes.
fn pushed(limit: u64, words: &[Word]) -> Result<Operands, LineRefusal>
    requires { limit ≤ 32767 }
    ensures { Reads result (one_at (integer_up_to limit) (λ n. operands.Number n) words.now) }
{
    let written = only_plain(words)?;
    let int = integer(limit, written)?;
    Ok(Operands::Number(int as i32))
}

fn long(words: &[Word]) -> Result<Operands, LineRefusal>
    ensures { Reads result (one_at (integer_up_to 9223372036854775807) (λ n. operands.Long n) words.now) }
{
    let written = only_plain(words)?;
    let long = integer(9_223_372_036_854_775_807, written)?;
    Ok(Operands::Long(long))
}

fn local(limit: u64, words: &[Word]) -> Result<Operands, LineRefusal>
    requires { limit ≤ 65535 }
    ensures { Reads result (one_at (number_up_to limit) (λ n. operands.Local n) words.now) }
{
    let written = only_plain(words)?;
    let local = number(limit, written)?;
    Ok(Operands::Local(local as u16))
}

/// A local, and the number that is added to it.
#[tactic(auto, unfolding(crate::specs::ReadingOperands::increment_at))]
fn increment(local_limit: u64, limit: u64, words: &[Word]) -> Result<Operands, LineRefusal>
    requires local { local_limit ≤ 65535 }
    requires number { limit ≤ 32767 }
    ensures { Reads result (increment_at local_limit limit words.now) }
{
    let (local, rest) = first_plain(words)?;
    let by = only_plain(rest)?;
    let local = number(local_limit, local)? as u16;
    let by = integer(limit, by)? as i16;
    Ok(Operands::Increment { local, by })
}

/// The constant of a kind that is written so.
fn loaded(alloc: Global, kind: &[u8], said: &Word) -> Result<Loaded, LineRefusal>
    ensures { Reads result (loaded_of kind.now said.now) }
{
    match said {
        Word::Plain(written) => {
            let written = written.as_slice();
            if is_text(kind, b"int") {
                let int = integer(2_147_483_647, written)?;
                Ok(Loaded::Int(int as i32))
            } else if is_text(kind, b"class") {
                let name = Bytes::from_slice(alloc, written)?;
                Ok(Loaded::Class(name))
            } else {
                Err(LineRefusal::Malformed)
            }
        }
        Word::Quoted(units) => {
            if !is_text(kind, b"str") {
                return Err(LineRefusal::Malformed);
            }
            let units = Vec::from_slice(alloc, units.as_slice())?;
            Ok(Loaded::Text(Rows::from_vec(units)))
        }
    }
}

#[tactic(auto, unfolding(crate::specs::ReadingOperands::constant_at))]
fn constant(alloc: Global, words: &[Word]) -> Result<Operands, LineRefusal>
    ensures { Reads result (constant_at words.now) }
{
    let (kind, rest) = first_plain(words)?;
    let said = only_word(rest)?;
    let constant = loaded(alloc, kind, said)?;
    Ok(Operands::Constant(constant))
}

fn label(alloc: Global, words: &[Word]) -> Result<Operands, LineRefusal>
    ensures { Reads result (one_at name_of (λ label. operands.Label label) words.now) }
{
    let label = Bytes::from_slice(alloc, only_plain(words)?)?;
    Ok(Operands::Label(label))
}

fn class(alloc: Global, words: &[Word]) -> Result<Operands, LineRefusal>
    ensures { Reads result (one_at name_of (λ name. operands.Class name) words.now) }
{
    let name = Bytes::from_slice(alloc, only_plain(words)?)?;
    Ok(Operands::Class(name))
}

/// The element type of a name (JVMS 6.5, table 6.5.newarray-A).
fn element_type(written: &[u8]) -> Result<PrimitiveType, LineRefusal>
    ensures { Reads result (element_type written.now) }
{
    if is_text(written, b"boolean") {
        Ok(PrimitiveType::Boolean)
    } else if is_text(written, b"char") {
        Ok(PrimitiveType::Char)
    } else if is_text(written, b"byte") {
        Ok(PrimitiveType::Byte)
    } else if is_text(written, b"short") {
        Ok(PrimitiveType::Short)
    } else if is_text(written, b"int") {
        Ok(PrimitiveType::Int)
    } else if is_text(written, b"long") {
        Ok(PrimitiveType::Long)
    } else {
        Err(LineRefusal::Malformed)
    }
}

fn new_array(words: &[Word]) -> Result<Operands, LineRefusal>
    ensures { Reads result (one_at element_type (λ element. operands.NewArray element) words.now) }
{
    let written = only_plain(words)?;
    let element = element_type(written)?;
    Ok(Operands::NewArray(element))
}

/// The class, the name and the descriptor of a member.
#[tactic(auto, unfolding(crate::specs::ReadingOperands::member_words))]
fn member_words(words: &[Word]) -> Result<(&[u8], &[u8], &[u8]), LineRefusal>
    ensures { Gives (λ x. (x.0.now, x.1.now, x.2.now)) result (member_words words.now) }
{
    let (class, rest) = first_plain(words)?;
    let (name, rest) = first_plain(rest)?;
    let descriptor = only_plain(rest)?;
    Ok((class, name, descriptor))
}

fn member(alloc: Global, words: &[Word]) -> Result<Operands, LineRefusal>
    ensures { Reads result (member_at words.now) }
{
    let (class, name, descriptor) = member_words(words)?;
    let class = Bytes::from_slice(alloc, class)?;
    let name = Bytes::from_slice(alloc, name)?;
    let descriptor = Bytes::from_slice(alloc, descriptor)?;
    Ok(Operands::Member {
        class,
        name,
        descriptor,
    })
}

/// The words of the receiver and of the parameters of a method (JVMS 6.5, invokeinterface).
fn interface_count(descriptor: &[u8]) -> Result<u8, LineRefusal>
    ensures { Answers (IsCount descriptor.now) result }
{
    match parameter_size(descriptor) {
        Some(size) if size.words < 255 => Ok(size.words + 1),
        _ => Err(LineRefusal::Malformed),
    }
}

fn interface_method(alloc: Global, words: &[Word]) -> Result<Operands, LineRefusal>
    ensures { Answers (SaysInterfaceMethod words.now) result }
{
    let (class, name, descriptor) = member_words(words)?;
    let count = interface_count(descriptor)?;
    let class = Bytes::from_slice(alloc, class)?;
    let name = Bytes::from_slice(alloc, name)?;
    let descriptor = Bytes::from_slice(alloc, descriptor)?;
    Ok(Operands::InterfaceMethod {
        class,
        name,
        descriptor,
        count,
    })
}

/// The operands of a form.
#[tactic(auto, unfolding(crate::specs::ReadingOperands::ReadsOperands))]
fn operands(alloc: Global, form: Form, words: &[Word]) -> Result<Operands, LineRefusal>
    ensures { ReadsOperands form words.now result }
{
    match form {
        Form::Plain(_) | Form::FixedInt(_) | Form::FixedLong(_) | Form::FixedLocal(_, _) => {
            no_operands(words)
        }
        Form::ByteInt => pushed(127, words),
        Form::ShortInt => pushed(32767, words),
        Form::ByteConstant | Form::Constant => constant(alloc, words),
        Form::LongConstant => long(words),
        Form::Local(_) => local(255, words),
        Form::Increment => increment(255, 127, words),
        Form::Branch(_) | Form::FarBranch(_) => label(alloc, words),
        Form::TableSwitch => table_switch(alloc, words),
        Form::LookupSwitch => lookup_switch(alloc, words),
        Form::Field(_) | Form::Call(_) => member(alloc, words),
        Form::InterfaceCall => interface_method(alloc, words),
        Form::Class(_) => class(alloc, words),
        Form::NewArray => new_array(words),
        Form::Wide => Err(LineRefusal::Malformed),
    }
}

/// The operands of a form in twice as many bytes (JVMS 6.5, wide).
#[tactic(auto, unfolding(crate::specs::ReadingOperands::wide_operands_at))]
fn wide_operands(form: Form, words: &[Word]) -> Result<Operands, LineRefusal>
    ensures { Reads result (wide_operands_at form words.now) }
{
    match form {
        Form::Local(_) => local(65535, words),
        Form::Increment => increment(65535, 32767, words),
        _ => Err(LineRefusal::Malformed),
    }
}

/// The row of a mnemonic.
pub(crate) fn row_of(mnemonic: &[u8]) -> Option<Row>
    ensures { option_map shown_row result ≡ row_named mnemonic.now }
{
    match std::str::from_utf8(mnemonic) {
        Ok(mnemonic) => row_named(mnemonic),
        Err(_) => None,
    }
}

/// The instruction after wide.
#[tactic(auto, unfolding(crate::specs::ReadingOperands::wide_at))]
fn wide_operation(words: &[Word]) -> Result<Operation, LineRefusal>
    ensures { Reads result (wide_at words.now) }
{
    let (mnemonic, rest) = first_plain(words)?;
    match row_of(mnemonic) {
        Some(row) => {
            let operands = wide_operands(row.form, rest)?;
            Ok(Operation {
                number: row.number,
                is_wide: true,
                operands,
            })
        }
        None => Err(LineRefusal::Malformed),
    }
}

fn narrow_operation(alloc: Global, row: Row, words: &[Word]) -> Result<Operation, LineRefusal>
    ensures { Answers (IsOperation (shown_row row) words.now) result }
{
    let operands = operands(alloc, row.form, words)?;
    Ok(Operation {
        number: row.number,
        is_wide: false,
        operands,
    })
}

/// The instruction of a row, given the words after its mnemonic.
pub(crate) fn operation(alloc: Global, row: Row, words: &[Word]) -> Result<Operation, LineRefusal>
    ensures { Answers (SaysOperation (shown_row row) words.now) result }
{
    match row.form {
        Form::Wide => wide_operation(words),
        _ => narrow_operation(alloc, row, words),
    }
}
