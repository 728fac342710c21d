//! The types of the Class entries of one file.

ghost use Rattle.std.specs.Prelude.{◌≡◌, Some, IfOk, map, slice_get, option_map};
ghost use Rattle.std.specs.Option.{option_flatten};
ghost use Rattle.class_pool.specs.Lookup.{utf8_of, class_name_of};
ghost use Rattle.link_rules.specs.Names.{program_names, type_named};
ghost use Rattle.pool_types.specs.Types.{text_types, entry_type, entry_types};

use class_walk::Constant;
use link_types::ObjectType;
use named_types::NamedTypes;
use rows::Rows;
use std::alloc::{AllocError, Global};

/// The type that a Class entry which names this entry stands for, where this entry has a text.
fn text_type(types: &NamedTypes<'_, '_>, constant: &Constant) -> Option<ObjectType>
    ensures { result ≡ option_map (type_named (program_names types.now)) (utf8_of (Some constant.now)) }
{
    match constant {
        Constant::Utf8(text) => Some(types.named_type(text.as_slice())),
        _ => None,
    }
}

/// For each entry of a pool, the type that a Class entry which names it stands for.
fn text_types(
    alloc: Global,
    types: &NamedTypes<'_, '_>,
    pool: &[Constant],
) -> Result<Vec<Option<ObjectType>>, AllocError>
    ensures { IfOk result (λ row. row.items ≡ text_types (program_names types.now) pool.now) }
{
    let mut row = Vec::new(alloc);
    for constant in pool {
        row.push(text_type(types, constant))?;
    }
    Ok(row)
}

/// The type at an index, where there is one.
pub fn type_at(row: &[Option<ObjectType>], index: u16) -> Option<ObjectType>
    ensures { result ≡ option_flatten (slice_get row.now index) }
{
    row.get(usize::from(index)).copied().flatten()
}

fn entry_type(texts: &[Option<ObjectType>], constant: &Constant) -> Option<ObjectType>
    ensures { result ≡ entry_type texts.now constant.now }
{
    match constant {
        Constant::Class(name) => type_at(texts, *name),
        _ => None,
    }
}

/// For each entry of a pool, the type that it stands for, where it is a Class entry. Searches once for each Utf8 entry.
pub fn class_types(
    alloc: Global,
    types: &NamedTypes<'_, '_>,
    pool: &[Constant],
) -> Result<Rows<Option<ObjectType>>, AllocError>
    ensures { IfOk result (λ row. row ≡ entry_types (text_types (program_names types.now) pool.now) pool.now) }
{
    let texts = text_types(alloc, types, pool)?;
    let mut row = Vec::new(alloc);
    for constant in pool {
        row.push(entry_type(&texts, constant))?;
    }
    Ok(Rows::from_vec(row))
}
