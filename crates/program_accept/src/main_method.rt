//! The method with which a program begins.

ghost use Rattle.std.specs.Prelude.{◌≡◌, ◌≤◌, ◌<◌, ◌^◌, length, position};
ghost use Rattle.class_read.specs.declared.class_file.Member.{Member};
ghost use Rattle.link_rules.specs.Classes.{member_of_file};
ghost use Rattle.link_rules.specs.Units.{AreUnits};
ghost use Rattle.program_accept.specs.Main as spec;

use access_flags::{STATIC, has};
use builtin_world::number::COUNT;
use class_pool::{class_name_at, is_utf8_at};
use class_read::{ClassFile, Member};
use class_walk::Constant;
use code_decode::ClassUnit;
use link_types::MethodId;

// Whether a method is static, is named `main`, takes a `String[]` and returns nothing.
fn is_main(pool: &[Constant], method: &Member) -> bool
    ensures { result ≡ spec.is_main (member_of_file pool.now method.now) }
{
    has(method.flags, STATIC)
        && is_utf8_at(pool, method.name, b"main")
        && is_utf8_at(pool, method.descriptor, b"([Ljava/lang/String;)V")
}

fn main_place(file: &ClassFile) -> Option<usize>
    ensures { result ≡ position (λ (m : Member). spec.is_main (member_of_file file.now.pool m)) file.now.methods }
{
    let pool = file.pool.as_slice();
    file.methods
        .as_slice()
        .iter()
        .position(|method| is_main(pool, method))
}

fn is_named(unit: &ClassUnit, name: &[u8]) -> bool
    ensures { result ≡ spec.is_named name.now unit.now }
{
    let file = &unit.file;
    class_name_at(file.pool.as_slice(), file.this_class).unwrap_or(&[]) == name
}

fn place_named(units: &[ClassUnit], name: &[u8]) -> Option<usize>
    ensures { result ≡ position (spec.is_named name.now) units.now }
{
    units.iter().position(|unit| is_named(unit, name))
}

// The method of the file at a place that is called first.
fn main_of_file(place: u32, unit: &ClassUnit) -> Option<MethodId>
    requires place { place < 1024 }
    requires few { length unit.now.file.methods < 2 ^ 16 }
    ensures { result ≡ spec.main_of_file place unit.now }
{
    let method = main_place(&unit.file)?;
    Some(MethodId {
        class: COUNT + 1 + place,
        method: method as u16,
    })
}

fn main_at(units: &[ClassUnit], place: usize) -> Option<MethodId>
    requires few { length units.now ≤ 1024 }
    requires decoded { AreUnits units.now }
    ensures { result ≡ spec.main_at units.now place }
{
    let unit = units.get(place)?;
    main_of_file(place as u32, unit)
}

/// The static method `main` with a parameter of type `String[]` and no result that the class of a name declares itself
/// (JLS 12.1.4); `None` where no file has the class, or the class no such method. Takes no memory.
pub(crate) fn main_method(units: &[ClassUnit], name: &[u8]) -> Option<MethodId>
    requires few { length units.now ≤ 1024 }
    requires decoded { AreUnits units.now }
    ensures { result ≡ spec.main_method units.now name.now }
{
    let place = place_named(units, name)?;
    main_at(units, place)
}
