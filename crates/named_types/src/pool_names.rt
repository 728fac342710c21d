//! The class names that occur in the pools of class files.

ghost use Rattle.std.specs.Prelude.{◌++◌, ◌∷◌, [], false, OnOk, IfOk, filter_map, flat_map, option_map, option_to_list, if◌then◌else◌};
ghost use Rattle.class_names.specs.Shape.{kind_of};
ghost use Rattle.class_names.specs.Reading.{spells_class_name};
ghost use Rattle.link_rules.specs.Descriptors.{descriptor_kinds, class_of_kind};
ghost use Rattle.link_rules.specs.Names.{class_names_in, class_names_of};
ghost use Rattle.named_types.specs.Others.{AreNames, HasMore, names_in};

use crate::others::ClassNames;
use class_names::{
    BaseShape, KindShape, MethodShape, Parameters, field_shape, is_class_name, method_shape,
};
use class_walk::Constant;
use code_decode::ClassUnit;
use std::alloc::{AllocError, Global};

fn add_kind<'a>(names: &mut ClassNames<'a>, shape: KindShape<'a>) -> Result<(), AllocError>
    ensures { OnOk result (HasMore names.old names.new (option_to_list (class_of_kind (kind_of shape.entry)))) }
{
    match shape.base {
        BaseShape::Class(name) => names.add(name),
        _ => Ok(()),
    }
}

fn add_kinds<'a>(names: &mut ClassNames<'a>, kinds: Parameters<'a>) -> Result<(), AllocError>
    ensures { OnOk result (HasMore names.old names.new (filter_map class_of_kind kinds.entry)) }
{
    for kind in kinds {
        add_kind(names, kind)?;
    }
    Ok(())
}

fn add_returned<'a>(
    names: &mut ClassNames<'a>,
    returned: Option<KindShape<'a>>,
) -> Result<(), AllocError>
    ensures { OnOk result (HasMore names.old names.new (filter_map class_of_kind (option_to_list (option_map kind_of returned.entry)))) }
{
    if let Some(kind) = returned {
        add_kind(names, kind)?;
    }
    Ok(())
}

fn add_method<'a>(names: &mut ClassNames<'a>, shape: MethodShape<'a>) -> Result<(), AllocError>
    ensures { OnOk result (HasMore names.old names.new (filter_map class_of_kind (shape.entry.parameters ++ option_to_list (option_map kind_of shape.entry.returned)))) }
{
    add_kinds(names, shape.parameters)?;
    add_returned(names, shape.returned)?;
    Ok(())
}

/// The class names in a text as a descriptor.
fn add_descriptor<'a>(names: &mut ClassNames<'a>, text: &'a [u8]) -> Result<(), AllocError>
    ensures { OnOk result (HasMore names.old names.new (filter_map class_of_kind (descriptor_kinds text.now))) }
{
    match method_shape(text) {
        Some(method) => add_method(names, method),
        None => add_returned(names, field_shape(text)),
    }
}

/// A text that is a class name.
fn add_name<'a>(names: &mut ClassNames<'a>, text: &'a [u8]) -> Result<(), AllocError>
    ensures { OnOk result (HasMore names.old names.new (if spells_class_name false text.now then text.now ∷ [] else [])) }
{
    if is_class_name(text) {
        names.add(text)?;
    }
    Ok(())
}

fn add_text<'a>(names: &mut ClassNames<'a>, text: &'a [u8]) -> Result<(), AllocError>
    ensures { OnOk result (HasMore names.old names.new (class_names_in text.now)) }
{
    add_name(names, text)?;
    add_descriptor(names, text)?;
    Ok(())
}

/// The class names in an entry of a pool.
fn add_constant<'a>(names: &mut ClassNames<'a>, constant: &'a Constant) -> Result<(), AllocError>
    ensures { OnOk result (HasMore names.old names.new (class_names_of constant.now)) }
{
    if let Constant::Utf8(text) = constant {
        add_text(names, text.as_slice())?;
    }
    Ok(())
}

fn add_pool<'a>(names: &mut ClassNames<'a>, pool: &'a [Constant]) -> Result<(), AllocError>
    ensures { OnOk result (HasMore names.old names.new (flat_map class_names_of pool.now)) }
{
    for constant in pool {
        add_constant(names, constant)?;
    }
    Ok(())
}

/// The class names in the pools of files. One look at each text.
pub fn names_of(alloc: Global, units: &[ClassUnit]) -> Result<ClassNames<'_>, AllocError>
    ensures { IfOk result (λ names. AreNames names (names_in units.now)) }
{
    let mut names = ClassNames::new(alloc);
    for unit in units {
        add_pool(&mut names, unit.file.pool.as_slice())?;
    }
    Ok(names)
}
