//! The members of classes as rows of numbers.

ghost use Rattle.std.specs.Prelude.{◌≡◌, [], IfOk, map, slice_get, Some};
ghost use Rattle.builtin_world.specs.BuiltinClass.{shown_field, shown_method};
ghost use Rattle.code_decode.specs.declared.code.ClassUnit.{ClassUnit};
ghost use Rattle.link_rules.specs.Classes.{classes_of, library_field, library_method, member_of_file, fields_of, methods_of};
ghost use Rattle.member_lookup.specs.Rows.{row_of, rows_from, class_rows};
ghost use Rattle.text_numbers.specs.Numbers.{number_of};

use crate::source::{ClassSource, class_source};
use builtin_world::{BuiltinField, BuiltinMethod};
use class_read::Member;
use class_texts::ClassTexts;
use member_table::MemberRow;
use std::alloc::{AllocError, Global};

/// The row of a built-in member.
fn builtin_row(
    texts: &ClassTexts<'_>,
    class: u32,
    place: usize,
    name: &str,
    descriptor: &str,
    flags: u16,
) -> Result<MemberRow, AllocError>
    ensures { IfOk result (λ row. row ≡ record { class = class; place = place; name = number_of texts.now.texts name.now; descriptor = number_of texts.now.texts descriptor.now; flags = flags }) }
{
    if place > u16::MAX as usize {
        return Err(AllocError);
    }
    Ok(MemberRow {
        class,
        place: place as u16,
        name: texts.number(name.as_bytes()),
        descriptor: texts.number(descriptor.as_bytes()),
        flags,
    })
}

fn builtin_field_rows(
    alloc: Global,
    texts: &ClassTexts<'_>,
    class: u32,
    fields: &[BuiltinField],
) -> Result<Vec<MemberRow>, AllocError>
    ensures { IfOk result (λ rows. rows.items ≡ rows_from texts.now.texts class 0 (map (λ f. library_field (shown_field f)) fields.now)) }
{
    let mut rows = Vec::new(alloc);
    for (place, field) in fields.iter().enumerate() {
        let row = builtin_row(
            texts,
            class,
            place,
            field.name,
            field.descriptor,
            field.flags,
        )?;
        rows.push(row)?;
    }
    Ok(rows)
}

fn builtin_method_rows(
    alloc: Global,
    texts: &ClassTexts<'_>,
    class: u32,
    methods: &[BuiltinMethod],
) -> Result<Vec<MemberRow>, AllocError>
    ensures { IfOk result (λ rows. rows.items ≡ rows_from texts.now.texts class 0 (map (λ m. library_method (shown_method m)) methods.now)) }
{
    let mut rows = Vec::new(alloc);
    for (place, method) in methods.iter().enumerate() {
        let row = builtin_row(
            texts,
            class,
            place,
            method.name,
            method.descriptor,
            method.flags,
        )?;
        rows.push(row)?;
    }
    Ok(rows)
}

/// The row of a member of a file.
fn file_row(
    texts: &ClassTexts<'_>,
    file: u32,
    class: u32,
    place: usize,
    member: &Member,
) -> Result<MemberRow, AllocError>
    ensures { IfOk result (λ row. (u : ClassUnit) → slice_get texts.now.units file ≡ Some u → row ≡ row_of texts.now.texts class place (member_of_file u.file.pool member.now)) }
{
    if place > u16::MAX as usize {
        return Err(AllocError);
    }
    Ok(MemberRow {
        class,
        place: place as u16,
        name: texts.name_at(file, member.name),
        descriptor: texts.name_at(file, member.descriptor),
        flags: member.flags,
    })
}

fn file_rows(
    alloc: Global,
    texts: &ClassTexts<'_>,
    file: u32,
    class: u32,
    members: &[Member],
) -> Result<Vec<MemberRow>, AllocError>
    ensures { IfOk result (λ rows. (u : ClassUnit) → slice_get texts.now.units file ≡ Some u → rows.items ≡ rows_from texts.now.texts class 0 (map (member_of_file u.file.pool) members.now)) }
{
    let mut rows = Vec::new(alloc);
    for (place, member) in members.iter().enumerate() {
        rows.push(file_row(texts, file, class, place, member)?)?;
    }
    Ok(rows)
}

/// The fields of a class.
pub fn field_rows(
    alloc: Global,
    texts: &ClassTexts<'_>,
    class: u32,
) -> Result<Vec<MemberRow>, AllocError>
    ensures { IfOk result (λ rows. rows.items ≡ class_rows texts.now.texts (fields_of (classes_of texts.now.units)) class) }
{
    match class_source(texts.units(), class) {
        ClassSource::Builtin(builtin) => builtin_field_rows(alloc, texts, class, builtin.fields),
        ClassSource::File(file, unit) => {
            file_rows(alloc, texts, file, class, unit.file.fields.as_slice())
        }
        ClassSource::Nothing => Ok(Vec::new(alloc)),
    }
}

/// The methods of a class.
pub fn method_rows(
    alloc: Global,
    texts: &ClassTexts<'_>,
    class: u32,
) -> Result<Vec<MemberRow>, AllocError>
    ensures { IfOk result (λ rows. rows.items ≡ class_rows texts.now.texts (methods_of (classes_of texts.now.units)) class) }
{
    match class_source(texts.units(), class) {
        ClassSource::Builtin(builtin) => builtin_method_rows(alloc, texts, class, builtin.methods),
        ClassSource::File(file, unit) => {
            file_rows(alloc, texts, file, class, unit.file.methods.as_slice())
        }
        ClassSource::Nothing => Ok(Vec::new(alloc)),
    }
}
