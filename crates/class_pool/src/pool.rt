//! The rules of the constant pool (JVMS 4.4).

ghost use Rattle.std.specs.Prelude.{◌≡◌, ◌↔◌, ℕ, ◌<◌, ◌^◌, false, true, IsTrue, IfOk, length, slice_index_or, slice_set};
ghost use Rattle.class_names.specs.ModifiedUtf8.{IsModifiedUtf8};
ghost use Rattle.class_pool.specs.PoolMarks.{marked, AreMarks, AreUses, FitsWhere, FitsMarks};
ghost use Rattle.class_pool.specs.PoolRules.{IsPairEntry, IsMemberEntry, RefersRightly, used_as, IsUsed, IsFitFor, text_entry_rules, entry_rules, pool_rules};
ghost use Rattle.class_pool.specs.Answers.{Keeps, KeepsExactly};

use crate::lookup::{is_class_entry_at, is_text_at};
use crate::refusal::ReadRefusal;
use class_names::{
    is_array_descriptor, is_class_name, is_field_descriptor, is_member_name, is_method_descriptor,
    is_modified_utf8,
};
use class_walk::Constant;
use std::alloc::{AllocError, Global};

/// What an entry of the pool uses a text as.
#[derive(Clone, Copy)]
pub enum Role {
    /// The name of a class or the descriptor of an array class (JVMS 4.4.1).
    ClassName,
    /// The name of a field or a method (JVMS 4.4.6).
    MemberName,
    /// The descriptor of a field or a method (JVMS 4.4.6).
    Descriptor,
}

/// For each use and index whether an entry of the pool uses the text there so.
#[derive(Drop)]
pub struct Uses {
    class_names: Vec<bool>,
    member_names: Vec<bool>,
    descriptors: Vec<bool>,
}

fn is_pair_at(pool: &[Constant], index: u16) -> bool
    ensures { IsTrue result ↔ IsPairEntry pool.now index }
{
    matches!(pool.get(usize::from(index)), Some(Constant::Pair(_, _)))
}

fn is_member_entry(pool: &[Constant], class: u16, pair: u16) -> bool
    ensures { IsTrue result ↔ IsMemberEntry pool.now class pair }
{
    is_class_entry_at(pool, class) && is_pair_at(pool, pair)
}

/// Whether the indices in an entry are those of entries of the kinds that it wants.
fn refers_rightly(pool: &[Constant], constant: &Constant) -> bool
    ensures { IsTrue result ↔ RefersRightly pool.now constant.now }
{
    match constant {
        Constant::Class(name) => is_text_at(pool, *name),
        Constant::Str(text) => is_text_at(pool, *text),
        Constant::Field(class, pair)
        | Constant::Method(class, pair)
        | Constant::IfaceMethod(class, pair) => is_member_entry(pool, *class, *pair),
        Constant::Pair(name, descriptor) => {
            is_text_at(pool, *name) && is_text_at(pool, *descriptor)
        }
        _ => true,
    }
}

/// The index at which an entry uses a text so.
fn used_as(role: Role, constant: &Constant) -> Option<u16>
    ensures { result ≡ used_as role constant.now }
{
    match (role, constant) {
        (Role::ClassName, Constant::Class(name)) => Some(*name),
        (Role::MemberName, Constant::Pair(name, _)) => Some(*name),
        (Role::Descriptor, Constant::Pair(_, descriptor)) => Some(*descriptor),
        _ => None,
    }
}

fn mark_index(marks: &mut Vec<bool>, index: u16)
    ensures { marks.new.items ≡ slice_set marks.old.items index true }
{
    let index = usize::from(index);
    if index < marks.len() {
        marks[index] = true;
    }
}

/// Marks an index, where it is inside.
fn mark(marks: &mut Vec<bool>, index: Option<u16>)
    ensures { marks.new.items ≡ marked marks.old.items index }
{
    if let Some(index) = index {
        mark_index(marks, index);
    }
}

/// For each index whether an entry uses the text there so.
fn all_marks(alloc: Global, pool: &[Constant], role: Role) -> Result<Vec<bool>, AllocError>
    ensures { IfOk result (λ marks. AreMarks pool.now role marks.items) }
{
    let mut marks = vec![in alloc; false; pool.len()]?;
    for constant in pool {
        mark(&mut marks, used_as(role, constant));
    }
    Ok(marks)
}

fn text_uses(alloc: Global, pool: &[Constant]) -> Result<Uses, AllocError>
    ensures { IfOk result (λ uses. AreUses pool.now uses) }
{
    Ok(Uses {
        class_names: all_marks(alloc, pool, Role::ClassName)?,
        member_names: all_marks(alloc, pool, Role::MemberName)?,
        descriptors: all_marks(alloc, pool, Role::Descriptor)?,
    })
}

/// Whether a text may be used so.
fn is_fit_for(role: Role, text: &[u8]) -> bool
    ensures { IsTrue result ↔ IsFitFor role text.now }
{
    match role {
        Role::ClassName => is_class_name(text) || is_array_descriptor(text),
        Role::MemberName => is_member_name(text),
        Role::Descriptor => is_field_descriptor(text) || is_method_descriptor(text),
    }
}

fn is_marked(marks: &[bool], index: usize) -> bool
    ensures { result ≡ slice_index_or marks.now index false }
{
    marks.get(index).copied().unwrap_or(false)
}

fn fits_where(marks: &[bool], index: usize, role: Role, text: &[u8]) -> bool
    ensures { IsTrue result ↔ FitsWhere marks.now index role text.now }
{
    !is_marked(marks, index) || is_fit_for(role, text)
}

/// Whether the text at an index may be used as it is used.
fn fits_uses(uses: &Uses, index: usize, text: &[u8]) -> bool
    ensures { IsTrue result ↔ FitsMarks uses.now index text.now }
{
    fits_where(&uses.class_names, index, Role::ClassName, text)
        && fits_where(&uses.member_names, index, Role::MemberName, text)
        && fits_where(&uses.descriptors, index, Role::Descriptor, text)
}

fn check_text(pool: &[Constant], uses: &Uses, index: u16, text: &[u8]) -> Result<(), ReadRefusal>
    requires inside { index < length pool.now }
    requires uses { AreUses pool.now uses.now }
    ensures { KeepsExactly result (text_entry_rules pool.now index text.now) }
{
    if !is_modified_utf8(text) {
        return Err(ReadRefusal::BadUtf(index));
    }
    if !fits_uses(uses, usize::from(index), text) {
        return Err(ReadRefusal::BadDescriptor(index));
    }
    Ok(())
}

fn check_entry(
    pool: &[Constant],
    uses: &Uses,
    index: u16,
    constant: &Constant,
) -> Result<(), ReadRefusal>
    requires inside { index < length pool.now }
    requires uses { AreUses pool.now uses.now }
    ensures { KeepsExactly result (entry_rules pool.now index constant.now) }
{
    if let Constant::Utf8(text) = constant {
        return check_text(pool, uses, index, text.as_slice());
    }
    if !refers_rightly(pool, constant) {
        return Err(ReadRefusal::PoolIndex(index));
    }
    Ok(())
}

fn check_entries(pool: &[Constant], uses: &Uses) -> Result<(), ReadRefusal>
    requires count { length pool.now < 2 ^ 16 }
    requires uses { AreUses pool.now uses.now }
    ensures { KeepsExactly result (pool_rules pool.now) }
{
    for (index, constant) in pool.iter().enumerate() {
        check_entry(pool, uses, index as u16, constant)?;
    }
    Ok(())
}

/// Checks the constant pool entry by entry.
pub fn check_pool(alloc: Global, pool: &[Constant]) -> Result<(), ReadRefusal>
    requires { length pool.now < 2 ^ 16 }
    ensures { Keeps result (pool_rules pool.now) }
{
    let uses = text_uses(alloc, pool)?;
    check_entries(pool, &uses)
}
