//! The operands of entries of a pool.

ghost use Rattle.std.specs.Prelude.{◌≡◌, ◌≤◌, ℕ, List, Some, slice_get};
ghost use Rattle.class_walk.specs.declared.class.Constant.TheVariants.{Str as str_entry, Class as class_entry};
ghost use Rattle.class_pool.specs.Pool.{Reference};
ghost use Rattle.class_pool.specs.Lookup.{reference_in};
ghost use Rattle.code_decode.specs.declared.code.ClassUnit.{ClassUnit};
ghost use Rattle.code_laws.specs.File.{IsClassOrArray};
ghost use Rattle.link_rules.specs.Classes.{classes_of, class_name_at, utf8_at, number_of_file};
ghost use Rattle.link_rules.specs.Members.{found_field, found_method};
ghost use Rattle.link_rules.specs.Names.{program_names, number_named, type_named, string_number};
ghost use Rattle.link_rules.specs.Strings.{literal_text};
ghost use Rattle.link_rules.specs.Operands.{class_operand, field_named, method_found, operand_of};
ghost use Rattle.link_types.specs.declared.operands.Operand.TheVariants.{Text, Class};
ghost use Rattle.array_classes.specs.ArrayClasses.{AreArraysOf};
ghost use Rattle.operand_table.specs.Sources.{AreSourcesOf};

use crate::fields::field_operand;
use crate::methods::method_operand;
use crate::sources::Sources;
use array_classes::ArrayClasses;
use class_walk::Constant;
use code_decode::ClassUnit;
use link_types::{ClassOperand, ObjectType, Operand};

/// The number of the class or array class whose objects are of a type.
fn number_of_type(arrays: &ArrayClasses, kind: ObjectType) -> Option<u32>
    ensures { (us : List ClassUnit) (name : List ℕ) → AreArraysOf us arrays.now → IsClassOrArray name → type_named (program_names us) name ≡ kind →
        result ≡ number_named (program_names us) name }
{
    match kind {
        ObjectType::Class(class) => Some(class),
        ObjectType::Other(_) => None,
        ObjectType::Array(dimensions, base) => arrays.number(dimensions, base),
    }
}

/// What a class of a type stands for.
fn operand_of_type(arrays: &ArrayClasses, kind: ObjectType) -> ClassOperand
    ensures { (us : List ClassUnit) (name : List ℕ) → AreArraysOf us arrays.now → IsClassOrArray name → type_named (program_names us) name ≡ kind →
        result ≡ class_operand (program_names us) name }
{
    ClassOperand {
        kind,
        number: number_of_type(arrays, kind),
        array: arrays.array_of(kind),
    }
}

/// What the Class entry at an index of the pool of the file at a place stands for.
fn class_at(sources: Sources<'_, '_>, file: u32, index: u16) -> Operand
    ensures { (us : List ClassUnit) (u : ClassUnit) (name : ℕ) → AreSourcesOf us sources.entry → slice_get us file ≡ Some u → slice_get u.file.pool index ≡ Some (class_entry name) →
        result ≡ Class (class_operand (program_names us) (class_name_at u.file.pool index)) }
{
    match sources.types.class_type(file, index) {
        Some(kind) => Operand::Class(operand_of_type(sources.arrays, kind)),
        None => Operand::Nothing,
    }
}

/// What the String entry at an index of the pool of the file at a place stands for.
fn literal_at(sources: Sources<'_, '_>, file: u32, index: u16) -> Operand
    ensures { (us : List ClassUnit) (u : ClassUnit) (text : ℕ) → AreSourcesOf us sources.entry → slice_get us file ≡ Some u → slice_get u.file.pool index ≡ Some (str_entry text) →
        result ≡ Text (string_number (program_names us) (literal_text (utf8_at u.file.pool text))) }
{
    match sources.literals.number(file, index) {
        Some(number) => Operand::Text(number),
        None => Operand::Nothing,
    }
}

/// What the Field entry at an index of the pool of the file at a place stands for.
fn field_at(sources: Sources<'_, '_>, file: u32, unit: &ClassUnit, index: u16) -> Operand
    requires there { slice_get sources.lookup.now.units file ≡ Some unit.now }
    ensures { (us : List ClassUnit) (r : Reference) → AreSourcesOf us sources.entry → reference_in unit.now.file.pool (slice_get unit.now.file.pool index) ≡ Some r →
        result ≡ field_named (program_names us) r (found_field (classes_of us) r) }
{
    let pool = unit.file.pool.as_slice();
    match sources.lookup.reference(file, index) {
        Some(reference) => match sources.types.owner_type(file, pool, index) {
            Some(named) => field_operand(sources, reference, named),
            None => Operand::Nothing,
        },
        None => Operand::Nothing,
    }
}

/// What the Method or InterfaceMethod entry at an index of the pool of the file at a place stands for.
fn method_at(sources: Sources<'_, '_>, file: u32, unit: &ClassUnit, index: u16) -> Operand
    requires place { file ≤ 1024 }
    requires there { slice_get sources.lookup.now.units file ≡ Some unit.now }
    ensures { (us : List ClassUnit) (r : Reference) → AreSourcesOf us sources.entry → reference_in unit.now.file.pool (slice_get unit.now.file.pool index) ≡ Some r →
        result ≡ method_found (program_names us) (number_of_file file) r (found_method (classes_of us) r) }
{
    let pool = unit.file.pool.as_slice();
    match sources.lookup.reference(file, index) {
        Some(reference) => match sources.types.owner_type(file, pool, index) {
            Some(named) => method_operand(sources, file, reference, named),
            None => Operand::Nothing,
        },
        None => Operand::Nothing,
    }
}

/// What an entry of the pool of the file at a place stands for.
pub fn entry_operand(
    sources: Sources<'_, '_>,
    file: u32,
    unit: &ClassUnit,
    index: u16,
    entry: &Constant,
) -> Operand
    requires place { file ≤ 1024 }
    requires there { slice_get sources.lookup.now.units file ≡ Some unit.now }
    ensures { (us : List ClassUnit) → AreSourcesOf us sources.entry → slice_get unit.now.file.pool index ≡ Some entry.now →
        result ≡ operand_of (program_names us) (number_of_file file) unit.now.file.pool index (Some entry.now) }
{
    match entry {
        Constant::Integer(number) => Operand::Int(*number),
        Constant::Long(number) => Operand::Long(*number),
        Constant::Str(_) => literal_at(sources, file, index),
        Constant::Class(_) => class_at(sources, file, index),
        Constant::Field(_, _) => field_at(sources, file, unit, index),
        Constant::Method(_, _) => method_at(sources, file, unit, index),
        Constant::IfaceMethod(_, _) => method_at(sources, file, unit, index),
        _ => Operand::Nothing,
    }
}
