//! The classes of a program by their names: the built-in ones first, then those of the files.

ghost use Rattle.std.specs.Prelude.{◌≡◌, ◌≤◌, ◌<◌, ◌+◌, ◌++◌, ◌∷◌, [], List, IfOk, length};
ghost use Rattle.builtin_world.specs.declared.number.TheConstants.{COUNT};
ghost use Rattle.rules.specs.Rules.{must};
ghost use Rattle.link_types.specs.declared.refusal.LinkRefusal.TheVariants.{At};
ghost use Rattle.link_types.specs.declared.refusal.LinkKind.TheVariants as kinds;
ghost use Rattle.link_rules.specs.Classes.{NamedClass, class_of_unit, classes_of, class_number, number_of_file};
ghost use Rattle.link_rules.specs.LinkRules.{all_twice_rules};
ghost use Rattle.class_supers.specs.Answers.{Gives};
ghost use Rattle.class_supers.specs.Numbers.{number_named, AreNumbersOf};

use crate::numbers::ClassNumbers;
use builtin_world::builtins;
use builtin_world::number::COUNT;
use class_pool::class_name_at;
use code_decode::ClassUnit;
use link_types::{LinkKind, LinkRefusal};
use std::alloc::{AllocError, Global};

/// The number of the class of the file at a place.
pub fn number_of_file(place: u32) -> u32
    requires { place ≤ 1024 }
    ensures { result ≡ number_of_file place }
{
    COUNT + 1 + place
}

/// The name of the class of a file.
fn name_of(unit: &ClassUnit) -> &[u8]
    ensures { result.now ≡ (class_of_unit unit.now).name }
{
    class_name_at(unit.file.pool.as_slice(), unit.file.this_class).unwrap_or(b"")
}

fn builtin_numbers<'a>(alloc: Global) -> Result<ClassNumbers<'a>, AllocError>
    ensures { IfOk result (λ numbers. AreNumbersOf (number_named numbers) (classes_of [])) }
{
    let mut numbers = ClassNumbers::new(alloc);
    for (i, class) in builtins().iter().enumerate() {
        numbers.add(class.name.as_bytes(), i as u32 + 1)?;
    }
    Ok(numbers)
}

/// Gives the class of the file at a place its number, if its name has none yet.
fn add_file<'a>(
    numbers: &mut ClassNumbers<'a>,
    place: u32,
    unit: &'a ClassUnit,
) -> Result<(), LinkRefusal>
    requires { place < 1024 }
    ensures { (cs : List NamedClass) → AreNumbersOf (number_named numbers.old) cs → length cs ≡ COUNT + place →
        Gives result (must (class_number cs (class_of_unit unit.now).name ≡ 0) (At kinds.Twice place 0))
        (λ _. AreNumbersOf (number_named numbers.new) (cs ++ class_of_unit unit.now ∷ [])) }
{
    let name = name_of(unit);
    if numbers.number(name) != 0 {
        return Err(LinkRefusal::At {
            kind: LinkKind::Twice,
            class: place,
            place: 0,
        });
    }
    numbers.add(name, number_of_file(place))?;
    Ok(())
}

/// The numbers of all classes by their names, where no two of them have one name.
pub fn class_numbers(alloc: Global, units: &[ClassUnit]) -> Result<ClassNumbers<'_>, LinkRefusal>
    requires { length units.now ≤ 1024 }
    ensures { Gives result (all_twice_rules (classes_of units.now) units.now) (λ numbers. AreNumbersOf (number_named numbers) (classes_of units.now)) }
{
    let mut numbers = builtin_numbers(alloc)?;
    for (place, unit) in units.iter().enumerate() {
        add_file(&mut numbers, place as u32, unit)?;
    }
    Ok(numbers)
}
