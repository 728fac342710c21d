//! Where a class is declared.

ghost use Rattle.std.specs.Prelude.{◌≡◌, option_map, slice_get};
ghost use Rattle.member_lookup.specs.Source.{IsSource};

use builtin_world::number::COUNT;
use builtin_world::{BuiltinClass, builtins};
use code_decode::ClassUnit;

/// Where a class is declared.
#[derive(Clone, Copy)]
pub enum ClassSource<'a> {
    /// It is built in.
    Builtin(&'a BuiltinClass),
    /// By the file at a place.
    File(u32, &'a ClassUnit),
    /// There is no such class.
    Nothing,
}

/// The built-in class at a place, from 0.
fn class_at(classes: &[BuiltinClass], place: u32) -> Option<&BuiltinClass>
    ensures { option_map (λ b. b.now) result ≡ slice_get classes.now place }
{
    classes.get(place as usize)
}

/// The file at a place, from 0.
pub fn unit_at(units: &[ClassUnit], file: u32) -> Option<&ClassUnit>
    ensures { option_map (λ u. u.now) result ≡ slice_get units.now file }
{
    units.get(file as usize)
}

/// Where the class of a number is declared.
pub fn class_source(units: &[ClassUnit], class: u32) -> ClassSource<'_>
    ensures { IsSource units.now class result }
{
    let Some(place) = class.checked_sub(1) else {
        return ClassSource::Nothing;
    };
    if let Some(builtin) = class_at(builtins(), place) {
        return ClassSource::Builtin(builtin);
    }
    let Some(file) = place.checked_sub(COUNT) else {
        return ClassSource::Nothing;
    };
    match unit_at(units, file) {
        Some(unit) => ClassSource::File(file, unit),
        None => ClassSource::Nothing,
    }
}
