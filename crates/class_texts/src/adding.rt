//! Numbers for the texts of pools.

ghost use Rattle.std.specs.Prelude.{◌≢◌, OnOk, IfOk, Some, map};
ghost use Rattle.builtin_world.specs.BuiltinClass.{shown_class, shown_method, rows};
ghost use Rattle.text_numbers.specs.Numbers.{number_of};
ghost use Rattle.class_texts.specs.Texts.{Extends, KnowsEntry, KnowsPool, KnowsUnits, KnowsMethod, KnowsMethods, KnowsClasses};

use builtin_world::{BuiltinClass, BuiltinMethod, builtins};
use class_walk::Constant;
use code_decode::ClassUnit;
use std::alloc::{AllocError, Global};
use text_numbers::TextNumbers;

fn add_text<'a>(numbers: &mut TextNumbers<'a>, text: &'a [u8]) -> Result<(), AllocError>
    ensures kept { Extends numbers.old numbers.new }
    ensures known { OnOk result (number_of numbers.new text.now ≢ 0) }
{
    numbers.add(text)?;
    Ok(())
}

/// Gives the text of an entry a number, if it has a text.
fn add_entry<'a>(numbers: &mut TextNumbers<'a>, constant: &'a Constant) -> Result<(), AllocError>
    ensures kept { Extends numbers.old numbers.new }
    ensures known { OnOk result (KnowsEntry numbers.new (Some constant.now)) }
{
    match constant {
        Constant::Utf8(text) => add_text(numbers, text.as_slice()),
        _ => Ok(()),
    }
}

fn add_pool<'a>(numbers: &mut TextNumbers<'a>, pool: &'a [Constant]) -> Result<(), AllocError>
    ensures kept { Extends numbers.old numbers.new }
    ensures known { OnOk result (KnowsPool numbers.new pool.now) }
{
    for constant in pool {
        add_entry(numbers, constant)?;
    }
    Ok(())
}

fn add_units<'a>(numbers: &mut TextNumbers<'a>, units: &'a [ClassUnit]) -> Result<(), AllocError>
    ensures kept { Extends numbers.old numbers.new }
    ensures known { OnOk result (KnowsUnits numbers.new units.now) }
{
    for unit in units {
        add_pool(numbers, unit.file.pool.as_slice())?;
    }
    Ok(())
}

/// Gives the name and the descriptor of a built-in method numbers.
fn add_method(
    numbers: &mut TextNumbers<'_>,
    method: &'static BuiltinMethod,
) -> Result<(), AllocError>
    ensures kept { Extends numbers.old numbers.new }
    ensures known { OnOk result (KnowsMethod numbers.new (shown_method method.now)) }
{
    add_text(numbers, method.name.as_bytes())?;
    add_text(numbers, method.descriptor.as_bytes())
}

fn add_methods(
    numbers: &mut TextNumbers<'_>,
    methods: &'static [BuiltinMethod],
) -> Result<(), AllocError>
    ensures kept { Extends numbers.old numbers.new }
    ensures known { OnOk result (KnowsMethods numbers.new (map shown_method methods.now)) }
{
    for method in methods {
        add_method(numbers, method)?;
    }
    Ok(())
}

fn add_classes(
    numbers: &mut TextNumbers<'_>,
    classes: &'static [BuiltinClass],
) -> Result<(), AllocError>
    ensures kept { Extends numbers.old numbers.new }
    ensures known { OnOk result (KnowsClasses numbers.new (map shown_class classes.now)) }
{
    for class in classes {
        add_methods(numbers, class.methods)?;
    }
    Ok(())
}

/// Numbers for the texts of all files and of the built-in methods.
pub fn unit_numbers(alloc: Global, units: &[ClassUnit]) -> Result<TextNumbers<'_>, AllocError>
    ensures units { IfOk result (λ numbers. KnowsUnits numbers units.now) }
    ensures library { IfOk result (λ numbers. KnowsClasses numbers rows) }
{
    let mut numbers = TextNumbers::new(alloc);
    add_classes(&mut numbers, builtins())?;
    add_units(&mut numbers, units)?;
    Ok(numbers)
}
