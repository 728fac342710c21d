//! The rows of the classes by their numbers.

ghost use Rattle.std.specs.Prelude.{◌≡◌, ◌≢◌, ◌<◌, ◌≤◌, ◌+◌, ◌^◌, ℕ, List, [], Some, IfOk, length, option_map, replicate};
ghost use Rattle.code_decode.specs.declared.code.ClassUnit.{ClassUnit};
ghost use Rattle.link_rules.specs.Classes.{classes_of, superclass_of, unit_numbered};
ghost use Rattle.link_rules.specs.Layout.{instance_words};
ghost use Rattle.link_rules.specs.Supers.{PutsSupersFirst};
ghost use Rattle.link_rules.specs.Units.{AreUnits};
ghost use Rattle.class_layout.specs.declared.row.ClassRow.{ClassRow as row_type};
ghost use Rattle.class_layout.specs.Rows.{row_numbered, instance_in, empty_row, IsRowOf, AreRowsOf};

use crate::row::{ClassRow, place_fields};
use builtin_world::builtin_at;
use builtin_world::number::COUNT;
use class_supers::Supers;
use code_decode::ClassUnit;
use std::alloc::{AllocError, Global};

/// The row of the class of a number.
pub fn row_at(rows: &[ClassRow], class: u32) -> Option<&ClassRow>
    ensures { option_map (λ r. r.now) result ≡ row_numbered rows.now class }
{
    let index = class.checked_sub(1)?;
    rows.get(index as usize)
}

/// The words of an object of a class, 0 where there is none.
pub fn instance_words_in(rows: &[ClassRow], class: u32) -> u32
    ensures { result ≡ instance_in rows.now class }
{
    match row_at(rows, class) {
        Some(row) => row.instance_words,
        None => 0,
    }
}

/// The file of the class of a number.
fn unit_at(units: &[ClassUnit], class: u32) -> Option<&ClassUnit>
    ensures { option_map (λ u. u.now) result ≡ unit_numbered units.now class }
{
    let index = class.checked_sub(COUNT + 1)?;
    units.get(index as usize)
}

/// Puts the row of a class into the table, if that has one for it.
fn put_row(rows: &mut Vec<ClassRow>, class: u32, row: ClassRow)
    ensures count { length rows.new.items ≡ length rows.old.items }
    ensures here { (there : row_type) → row_numbered rows.new.items class ≡ Some there → there ≡ row }
    ensures elsewhere { (c : ℕ) → c ≢ class → row_numbered rows.new.items c ≡ row_numbered rows.old.items c }
{
    if class >= 1 && class as usize <= rows.len() {
        rows[class as usize - 1] = row;
    }
}

fn empty_rows(alloc: Global, count: usize) -> Result<Vec<ClassRow>, AllocError>
    ensures { IfOk result (λ rows. rows.items ≡ replicate count empty_row) }
{
    let mut rows = Vec::new(alloc);
    for _ in 0..count {
        rows.push(ClassRow::new(alloc, 0))?;
    }
    Ok(rows)
}

/// The row of a class of the program, where its superclass has its row.
fn class_row(
    alloc: Global,
    supers: &Supers<'_>,
    rows: &[ClassRow],
    class: u32,
) -> Result<ClassRow, AllocError>
    requires decoded { AreUnits supers.now }
    requires ordered { (order : List ℕ) × PutsSupersFirst (classes_of supers.now) order }
    requires above { instance_in rows.now (superclass_of (classes_of supers.now) class) ≡ instance_words (classes_of supers.now) (superclass_of (classes_of supers.now) class) }
    requires room { instance_words (classes_of supers.now) (superclass_of (classes_of supers.now) class) < 2 ^ 30 }
    ensures { IfOk result (λ row. IsRowOf (classes_of supers.now) class row) }
{
    if let Some(builtin) = builtin_at(class) {
        return Ok(ClassRow::new(alloc, builtin.words));
    }
    let Some(unit) = unit_at(supers.units(), class) else {
        return Ok(ClassRow::new(alloc, 0));
    };
    let inherited = instance_words_in(rows, supers.superclass(class));
    let row = place_fields(
        alloc,
        unit.file.pool.as_slice(),
        unit.file.fields.as_slice(),
        inherited,
    )?;
    Ok(row)
}

/// The rows of the classes of a program, in an order in which superclasses come first.
pub fn class_rows(
    alloc: Global,
    supers: &Supers<'_>,
    order: &[u32],
) -> Result<Vec<ClassRow>, AllocError>
    requires decoded { AreUnits supers.now }
    requires few { length supers.now ≤ 1024 }
    requires order { PutsSupersFirst (classes_of supers.now) order.now }
    ensures { IfOk result (λ rows. AreRowsOf (classes_of supers.now) rows.items) }
{
    let mut rows = empty_rows(alloc, COUNT as usize + supers.units().len())?;
    for class in order {
        let row = class_row(alloc, supers, &rows, *class)?;
        put_row(&mut rows, *class, row);
    }
    Ok(rows)
}
