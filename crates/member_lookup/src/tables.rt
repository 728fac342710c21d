//! The members of all classes.

ghost use Rattle.std.specs.Prelude.{◌≡◌, ◌++◌, ◌≤◌, filter, length, IfOk, OnOk};
ghost use Rattle.link_rules.specs.Classes.{classes_of, fields_of, methods_of};
ghost use Rattle.member_lookup.specs.Rows.{class_rows, is_virtual_row, AreTables};

use crate::rows_of::{field_rows, method_rows};
use access_flags::{PRIVATE, STATIC, has};
use builtin_world::number::COUNT;
use class_texts::ClassTexts;
use member_table::{MemberRow, MemberTable};
use std::alloc::{AllocError, Global};

/// The members of classes by signature.
#[derive(Drop)]
pub struct Tables {
    pub fields: MemberTable,
    pub methods: MemberTable,
    /// The methods that are neither static nor private.
    pub virtuals: MemberTable,
}

fn is_virtual(row: &MemberRow) -> bool
    ensures { result ≡ is_virtual_row row.now }
{
    !(has(row.flags, STATIC) || has(row.flags, PRIVATE))
}

fn add_all(table: &mut MemberTable, rows: &[MemberRow]) -> Result<(), AllocError>
    ensures { OnOk result (table.new ≡ table.old ++ rows.now) }
{
    for row in rows {
        table.add(*row)?;
    }
    Ok(())
}

/// Adds the methods that are neither static nor private.
fn add_virtuals(table: &mut MemberTable, rows: &[MemberRow]) -> Result<(), AllocError>
    ensures { OnOk result (table.new ≡ table.old ++ filter is_virtual_row rows.now) }
{
    for row in rows {
        if is_virtual(row) {
            table.add(*row)?;
        }
    }
    Ok(())
}

/// Adds the members of a class.
fn add_class(
    alloc: Global,
    texts: &ClassTexts<'_>,
    tables: &mut Tables,
    class: u32,
) -> Result<(), AllocError>
    ensures fields { OnOk result (tables.new.fields ≡ tables.old.fields ++ class_rows texts.now.texts (fields_of (classes_of texts.now.units)) class) }
    ensures methods { OnOk result (tables.new.methods ≡ tables.old.methods ++ class_rows texts.now.texts (methods_of (classes_of texts.now.units)) class) }
    ensures virtuals { OnOk result (tables.new.virtuals ≡ tables.old.virtuals ++ filter is_virtual_row (class_rows texts.now.texts (methods_of (classes_of texts.now.units)) class)) }
{
    let fields = field_rows(alloc, texts, class)?;
    add_all(&mut tables.fields, &fields)?;
    let methods = method_rows(alloc, texts, class)?;
    add_all(&mut tables.methods, &methods)?;
    add_virtuals(&mut tables.virtuals, &methods)
}

/// The members of all classes of a program.
pub fn member_tables(alloc: Global, texts: &ClassTexts<'_>) -> Result<Tables, AllocError>
    requires { length texts.now.units ≤ 1024 }
    ensures { IfOk result (λ tables. AreTables texts.now.units texts.now.texts (length (classes_of texts.now.units)) tables) }
{
    let mut tables = Tables {
        fields: MemberTable::new(alloc),
        methods: MemberTable::new(alloc),
        virtuals: MemberTable::new(alloc),
    };
    for class in 1..COUNT + texts.units().len() as u32 + 1 {
        add_class(alloc, texts, &mut tables, class)?;
    }
    Ok(tables)
}
