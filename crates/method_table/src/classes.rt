//! The methods of all classes.

ghost use Rattle.std.specs.Prelude.{◌≡◌, ◌≤◌, suc, IfOk, length, map, option_map};
ghost use Rattle.std.specs.List.{range_with_len};
ghost use Rattle.link_rules.specs.Classes.{classes_of};
ghost use Rattle.link_rules.specs.Units.{AreUnits};
ghost use Rattle.method_table.specs.Called.{row_in, initializer_in};
ghost use Rattle.method_table.specs.Rows.{class_methods};

use crate::initializers::initializer_among;
use crate::rows_of::{MethodRow, method_rows};
use builtin_world::number::COUNT;
use link_members::methods_have_numbers;
use link_types::MethodId;
use member_lookup::MemberLookup;
use rows::Rows;
use std::alloc::{AllocError, Global};

/// The methods of a class.
#[derive(Drop)]
pub struct ClassMethods {
    /// By their places, from 0.
    pub rows: Rows<MethodRow>,
    /// The method that initializes the class.
    pub initializer: Option<MethodId>,
}

fn methods_of_class(
    alloc: Global,
    lookup: &MemberLookup<'_>,
    class: u32,
) -> Result<ClassMethods, AllocError>
    requires decoded { AreUnits lookup.now.units }
    ensures { IfOk result (λ methods. methods ≡ class_methods lookup.now class) }
{
    methods_have_numbers(lookup);
    let members = lookup.methods(alloc, class)?;
    let rows = method_rows(alloc, &members)?;
    Ok(ClassMethods {
        rows: Rows::from_vec(rows),
        initializer: initializer_among(lookup.texts(), class, &members),
    })
}

/// The methods of each class by its number; 0, which is no class, has none.
pub fn methods_of_classes(
    alloc: Global,
    lookup: &MemberLookup<'_>,
) -> Result<Vec<ClassMethods>, AllocError>
    requires few { length lookup.now.units ≤ 1024 }
    requires decoded { AreUnits lookup.now.units }
    ensures { IfOk result (λ classes. classes.items ≡ map (class_methods lookup.now) (range_with_len 0 (suc (length (classes_of lookup.now.units))))) }
{
    let mut classes = Vec::new(alloc);
    for class in 0..COUNT + lookup.texts().units().len() as u32 + 1 {
        classes.push(methods_of_class(alloc, lookup, class)?)?;
    }
    Ok(classes)
}

/// The row of a method.
pub fn row_at(classes: &[ClassMethods], id: MethodId) -> Option<MethodRow>
    ensures { result ≡ row_in classes.now id }
{
    match classes.get(id.class as usize) {
        Some(class) => class.rows.as_slice().get(usize::from(id.method)).copied(),
        None => None,
    }
}

/// The method that initializes a class.
pub fn initializer_at(classes: &[ClassMethods], class: u32) -> Option<MethodId>
    ensures { result ≡ initializer_in classes.now class }
{
    match classes.get(class as usize) {
        Some(class) => class.initializer,
        None => None,
    }
}
