//! The natives of built-in methods.

ghost use Rattle.std.specs.Prelude.{◌≡◌, option_map, slice_get};
ghost use Rattle.link_rules.specs.Methods.{native_of};

use builtin_world::{BuiltinClass, BuiltinMethod, Native, builtins};

fn native_at(methods: &[BuiltinMethod], place: u16) -> Option<Native>
    ensures { result ≡ option_map (λ m. m.native) (slice_get methods.now place) }
{
    match methods.get(usize::from(place)) {
        Some(method) => Some(method.native),
        None => None,
    }
}

fn class_at(classes: &[BuiltinClass], place: u32) -> Option<&BuiltinClass>
    ensures { option_map (λ b. b.now) result ≡ slice_get classes.now place }
{
    classes.get(place as usize)
}

/// The native of the method at a place of a class, if the class is built in.
pub fn native_of(class: u32, place: u16) -> Option<Native>
    ensures { result ≡ native_of (record { class = class; method = place }) }
{
    let index = class.checked_sub(1)?;
    match class_at(builtins(), index) {
        Some(builtin) => native_at(builtin.methods, place),
        None => None,
    }
}
