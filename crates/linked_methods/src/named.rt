//! The names of methods.

ghost use Rattle.std.specs.Prelude.{◌≡◌};
ghost use Rattle.linked_methods.specs.Members.{is_named_init};

use builtin_world::number::COUNT;
use class_pool::is_utf8_at;
use code_decode::ClassUnit;
use link_types::MethodId;

/// Whether the file of a class names one of its methods `<init>` (JVMS 2.9).
pub fn is_named_init(units: &[ClassUnit], id: MethodId) -> bool
    ensures { result ≡ is_named_init units.now id }
{
    let Some(file) = id.class.checked_sub(COUNT + 1) else {
        return false;
    };
    let Some(unit) = units.get(file as usize) else {
        return false;
    };
    match unit.file.methods.as_slice().get(usize::from(id.method)) {
        Some(method) => is_utf8_at(unit.file.pool.as_slice(), method.name, b"<init>"),
        None => false,
    }
}
