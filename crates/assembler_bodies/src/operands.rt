//! The operands of instructions as numbers, with the entries of the pool that they name.

ghost use Rattle.std.specs.Prelude.{◌≡◌};
ghost use Rattle.assembler_pool.specs.Items.{interface_method};
ghost use Rattle.assembler_pool.specs.Uses.{Extends};
ghost use Rattle.assembler_bodies.specs.Making.{Gives};
ghost use Rattle.assembler_bodies.specs.Marks.{marks_of};
ghost use Rattle.assembler_bodies.specs.Operands.{item_of, is_call, loaded_item, member_item, operands_of};

use crate::labels::Labels;
use crate::offsets::{
    branch_operand, constant_operand, increment_operand, int_operand, local_operand,
    lookup_operand, table_operand,
};
use crate::pool::{Entry, index_of};
use crate::refusal::BodyRefusal;
use assembler_lines::{Loaded, Operands as Said};
use assembler_pool::PoolMaker;
use code_write::Operands;
use instructions::Form;
use rows::Bytes;
use std::alloc::Global;

fn is_call(form: Form) -> bool
    ensures { result ≡ is_call form }
{
    matches!(form, Form::Call(_))
}

/// What ldc or ldc_w loads.
fn loaded_entry(constant: &Loaded) -> Entry<'_>
    ensures { item_of result ≡ loaded_item constant.now }
{
    match constant {
        Loaded::Int(int) => Entry::Integer(*int),
        Loaded::Text(units) => Entry::Str(units.as_slice()),
        Loaded::Class(name) => Entry::Class(name.as_slice()),
    }
}

/// A field, or a method of a class where the form calls one.
fn member_entry<'a>(
    form: Form,
    class: &'a Bytes,
    name: &'a Bytes,
    descriptor: &'a Bytes,
) -> Entry<'a>
    ensures { item_of result ≡ member_item form class.now name.now descriptor.now }
{
    if is_call(form) {
        Entry::Method {
            class: class.as_slice(),
            name: name.as_slice(),
            descriptor: descriptor.as_slice(),
        }
    } else {
        Entry::Field {
            class: class.as_slice(),
            name: name.as_slice(),
            descriptor: descriptor.as_slice(),
        }
    }
}

fn interface_entry<'a>(class: &'a Bytes, name: &'a Bytes, descriptor: &'a Bytes) -> Entry<'a>
    ensures { item_of result ≡ interface_method class.now name.now descriptor.now }
{
    Entry::InterfaceMethod {
        class: class.as_slice(),
        name: name.as_slice(),
        descriptor: descriptor.as_slice(),
    }
}

/// The operands of an instruction of a form, with wide before it or without. An error may leave more entries in
/// the pool.
#[tactic(auto, using(assembler_pool::proofs::UseLaws::extends_itself), unfolding(crate::specs::Operands::operands_of))]
pub(crate) fn operands_of(
    alloc: Global,
    pool: &mut PoolMaker,
    labels: &Labels,
    form: Form,
    is_wide: bool,
    said: &Said,
) -> Result<Operands<u32>, BodyRefusal>
    ensures gives { Gives (λ operands. operands) result pool.old pool.new (operands_of (marks_of labels.now) form is_wide said.now) }
    ensures kept { Extends pool.old pool.new }
{
    match said {
        Said::None => Ok(Operands::Absent),
        Said::Number(int) => int_operand(form, *int),
        Said::Local(number) => local_operand(is_wide, *number),
        Said::Increment { local, by } => increment_operand(is_wide, *local, *by),
        Said::Constant(constant) => {
            let index = index_of(pool, loaded_entry(constant))?;
            constant_operand(form, index)
        }
        Said::Long(long) => {
            let index = index_of(pool, Entry::Long(*long))?;
            Ok(Operands::Index(index))
        }
        Said::Label(label) => branch_operand(labels, form, label.as_slice()),
        Said::TableSwitch {
            low,
            default,
            labels: names,
        } => table_operand(alloc, labels, *low, default.as_slice(), names.as_slice()),
        Said::LookupSwitch { default, cases } => {
            lookup_operand(alloc, labels, default.as_slice(), cases.as_slice())
        }
        Said::Member {
            class,
            name,
            descriptor,
        } => {
            let member = member_entry(form, class, name, descriptor);
            let index = index_of(pool, member)?;
            Ok(Operands::Index(index))
        }
        Said::InterfaceMethod {
            class,
            name,
            descriptor,
            count,
        } => {
            let index = index_of(pool, interface_entry(class, name, descriptor))?;
            Ok(Operands::InterfaceCall {
                index,
                count: *count,
            })
        }
        Said::Class(name) => {
            let index = index_of(pool, Entry::Class(name.as_slice()))?;
            Ok(Operands::Index(index))
        }
        Said::NewArray(element) => Ok(Operands::NewArray(*element)),
    }
}
