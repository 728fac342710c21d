//! The rules of the header of a class file (JVMS 4.1).

ghost use Rattle.std.specs.Prelude.{◌≡◌, ◌↔◌, IsTrue};
ghost use Rattle.class_names.specs.Names.{IsClassName};
ghost use Rattle.class_read.specs.ClassRules.{IsNamedClass, IsSuperclass, interface_rules, header_rules};
ghost use Rattle.class_read.specs.MemberRules.{IsTextAt};
ghost use Rattle.rules.specs.Rules.{each};
ghost use Rattle.class_pool.specs.Answers.{KeepsExactly};

use crate::flags::are_class_flags;
use class_pool::{Pool, ReadRefusal, is_class_at};
use class_walk::{Constant, RawClass};
use rows::Rows;

/// Whether the name of a class that is not an array class is there.
fn is_class_name_at(pool: &Pool<'_>, index: u16) -> bool
    ensures { IsTrue result ↔ IsTextAt IsClassName pool.now index }
{
    match pool.text_use(index) {
        Some(found) => found.is_class_name,
        None => false,
    }
}

/// Whether the Class entry of a class that is not an array class is there.
fn is_named_class(pool: &Pool<'_>, index: u16) -> bool
    ensures { IsTrue result ↔ IsNamedClass pool.now index }
{
    match pool.constants().get(usize::from(index)) {
        Some(Constant::Class(name)) => is_class_name_at(pool, *name),
        _ => false,
    }
}

fn has_superclass(pool: &Pool<'_>, class: &RawClass) -> bool
    ensures { IsTrue result ↔ IsSuperclass pool.now class.now }
{
    is_named_class(pool, class.super_class)
        || (class.super_class == 0
            && is_class_at(pool.constants(), class.this_class, b"java/lang/Object"))
}

fn check_interfaces(pool: &Pool<'_>, interfaces: &Rows<u16>) -> Result<(), ReadRefusal>
    ensures { KeepsExactly result (each (interface_rules pool.now) interfaces.now) }
{
    for index in interfaces.as_slice() {
        if !is_named_class(pool, *index) {
            return Err(ReadRefusal::PoolIndex(*index));
        }
    }
    Ok(())
}

/// Checks what is between the constant pool and the fields.
pub fn check_header(pool: &Pool<'_>, class: &RawClass) -> Result<(), ReadRefusal>
    ensures { KeepsExactly result (header_rules pool.now class.now) }
{
    if !is_named_class(pool, class.this_class) {
        return Err(ReadRefusal::PoolIndex(class.this_class));
    }
    if !has_superclass(pool, class) {
        return Err(ReadRefusal::PoolIndex(class.super_class));
    }
    check_interfaces(pool, &class.interfaces)?;
    if !are_class_flags(class.flags) {
        return Err(ReadRefusal::Flags);
    }
    Ok(())
}
