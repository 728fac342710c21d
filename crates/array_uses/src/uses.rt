//! The arrays that instructions use.

ghost use Rattle.std.specs.Prelude.{◌≡◌, ◌≤◌, ◌++◌, List, Some, IfOk, length, slice_get, flat_map};
ghost use Rattle.code_decode.specs.declared.code.ClassUnit.{ClassUnit};
ghost use Rattle.code_laws.specs.Uses.{UsesRightly};
ghost use Rattle.instructions.specs.declared.what.Instr.{Instr};
ghost use Rattle.instructions.specs.declared.what.Target.{Target};
ghost use Rattle.link_rules.specs.Classes.{classes_of};
ghost use Rattle.link_rules.specs.Units.{AreUnits};
ghost use Rattle.link_rules.specs.LinkRules.{link_rules, what_rules};
ghost use Rattle.link_rules.specs.Arrays.{arrays_of_what, arrays_of_unit, arrays_always, steps_of_code};
ghost use Rattle.base_order.specs.Order.{IsOrderOf};
ghost use Rattle.pool_types.specs.Types.{ArePoolTypes};
ghost use Rattle.array_uses.specs.Most.{AreUsed, IsMost, MostGrows, program_arrays};
ghost use Rattle.array_uses.specs.Uses.{IsFileOf, AreRight, IsCodeRight, AreCodesRight, arrays_of_steps, class_use};

use crate::most::{add_array, add_used, none_used};
use array_kinds::{ArrayKind, array_itself, array_of, primitive_array};
use base_order::BaseOrder;
use builtin_world::number::STRING;
use class_supers::Supers;
use class_walk::Constant;
use code_decode::{ClassUnit, Code};
use instructions::{ClassUse, Instr, PrimitiveType, Target, What};
use link_types::{ElementType, ObjectType};
use pool_types::PoolTypes;
use std::alloc::{AllocError, Global};

/// The array type that an instruction on a class makes or tests.
fn class_use(purpose: ClassUse, kind: ObjectType) -> Option<ArrayKind>
    ensures { result ≡ class_use purpose kind }
{
    match purpose {
        ClassUse::New => None,
        ClassUse::NewArray => array_of(kind),
        ClassUse::CheckCast => array_itself(kind),
        ClassUse::InstanceOf => array_itself(kind),
    }
}

/// The array type that an instruction of the file at a place makes, tests or names as the owner of a member.
fn array_used(
    types: &PoolTypes,
    file: u32,
    pool: &[Constant],
    what: &What<Target>,
) -> Option<ArrayKind>
    ensures { (us : List ClassUnit) (u : ClassUnit) → ArePoolTypes us types.now → slice_get us file ≡ Some u → pool.now ≡ u.file.pool →
        UsesRightly u.file.pool what.now → (what_rules (classes_of us) file u.file.pool what.now).Hold → AreUsed (classes_of us) result (arrays_of_what u.file.pool what.now) }
{
    match what {
        What::NewArray(kind) => Some(primitive_array(*kind)),
        What::Class(purpose, index) => class_use(*purpose, types.class_type(file, *index)?),
        What::Field(_, index) => array_itself(types.owner_type(file, pool, *index)?),
        What::Call(_, index) => array_itself(types.owner_type(file, pool, *index)?),
        What::InterfaceCall(index) => array_itself(types.owner_type(file, pool, *index)?),
        _ => None,
    }
}

/// Adds the arrays that instructions of the file at a place use.
fn add_steps(
    most: &mut Vec<u8>,
    types: &PoolTypes,
    order: &BaseOrder,
    file: u32,
    unit: &ClassUnit,
    steps: &[Instr<Target>],
)
    ensures { (us : List ClassUnit) → IsFileOf us file unit.now types.now order.now → AreRight us file unit.now steps.now →
        MostGrows us order.now most.old.items most.new.items (arrays_of_steps unit.now.file.pool steps.now) }
{
    for step in steps {
        let used = array_used(types, file, unit.file.pool.as_slice(), &step.what);
        add_used(most, order, used);
    }
}

fn add_code(
    most: &mut Vec<u8>,
    types: &PoolTypes,
    order: &BaseOrder,
    file: u32,
    unit: &ClassUnit,
    code: &Option<Code>,
)
    ensures { (us : List ClassUnit) → IsFileOf us file unit.now types.now order.now → IsCodeRight us file unit.now code.now →
        MostGrows us order.now most.old.items most.new.items (arrays_of_steps unit.now.file.pool (steps_of_code code.now)) }
{
    if let Some(code) = code {
        add_steps(most, types, order, file, unit, code.steps.as_slice());
    }
}

/// Adds the arrays that the code of the file at a place uses.
fn add_unit(most: &mut Vec<u8>, types: &PoolTypes, order: &BaseOrder, file: u32, unit: &ClassUnit)
    ensures { (us : List ClassUnit) → IsFileOf us file unit.now types.now order.now → AreCodesRight us file unit.now unit.now.codes →
        MostGrows us order.now most.old.items most.new.items (arrays_of_unit unit.now) }
{
    let codes = unit.codes.as_slice();
    for code in codes {
        add_code(most, types, order, file, unit, code);
    }
}

/// For each base in its order, the most dimensions of those arrays of it that each program has, or that instructions of
/// this one make, test or name as the owner of a member; 0 where there are none. Each instruction is looked at once. It
/// fails only when memory runs out.
pub fn most_dimensions(
    alloc: Global,
    supers: &Supers<'_>,
    types: &PoolTypes,
    order: &BaseOrder,
) -> Result<Vec<u8>, AllocError>
    requires few { length supers.now ≤ 1024 }
    requires decoded { AreUnits supers.now }
    requires linked { (link_rules supers.now).Hold }
    requires types { ArePoolTypes supers.now types.now }
    requires order { IsOrderOf supers.now order.now }
    ensures { IfOk result (λ most. IsMost supers.now order.now (program_arrays supers.now) most.items) }
{
    let mut most = none_used(alloc, order.bases().len())?;
    let arguments = ArrayKind {
        dimensions: 1,
        base: ElementType::Class(STRING),
    };
    add_array(&mut most, order, primitive_array(PrimitiveType::Char));
    add_array(&mut most, order, arguments);
    let units = supers.units();
    for (file, unit) in units.iter().enumerate() {
        add_unit(&mut most, types, order, file as u32, unit);
    }
    Ok(most)
}
