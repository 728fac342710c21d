//! The types of the Class entries of the files of a program.

ghost use Rattle.std.specs.Prelude.{◌≡◌, ℕ, List, Some, IfOk, slice_get, option_map};
ghost use Rattle.code_decode.specs.declared.code.ClassUnit.{ClassUnit};
ghost use Rattle.class_pool.specs.Pool.{Reference};
ghost use Rattle.class_pool.specs.Lookup.{class_name_of, reference_in};
ghost use Rattle.link_rules.specs.Names.{program_names, type_named};
ghost use Rattle.pool_types.specs.Types.{kept_type, ArePoolTypes, owner_at, owner_name_of};

use crate::pool_row::{class_types, type_at};
use class_walk::Constant;
use link_types::ObjectType;
use named_types::NamedTypes;
use rows::Rows;
use std::alloc::{AllocError, Global};

/// The types of Class entries by file and pool index. Whose they are is said by `ArePoolTypes`; the reader takes no
/// memory and no time to speak of.
#[derive(Drop)]
pub struct PoolTypes {
    rows: Vec<Rows<Option<ObjectType>>>,
}

fn type_in(rows: &[Rows<Option<ObjectType>>], file: u32, index: u16) -> Option<ObjectType>
    ensures { result ≡ kept_type rows.now file index }
{
    let row = rows.get(file as usize)?;
    type_at(row.as_slice(), index)
}

/// The index of the Class entry of the owner that a member's entry names.
fn owner_at(pool: &[Constant], index: u16) -> Option<u16>
    ensures { result ≡ owner_at (slice_get pool.now index) }
{
    match pool.get(usize::from(index)) {
        Some(
            Constant::Field(class, _)
            | Constant::Method(class, _)
            | Constant::IfaceMethod(class, _),
        ) => Some(*class),
        _ => None,
    }
}

impl PoolTypes {
    /// The types of the Class entries of the files of a program. Searches once for each Utf8 entry, however many Class
    /// entries name it. It fails only when memory runs out.
    pub fn new(alloc: Global, types: &NamedTypes<'_, '_>) -> Result<Self, AllocError>
        ensures { IfOk result (λ pool_types. ArePoolTypes types.now pool_types) }
    {
        let mut rows = Vec::new(alloc);
        let units = types.units();
        for unit in units {
            rows.push(class_types(alloc, types, unit.file.pool.as_slice())?)?;
        }
        Ok(PoolTypes { rows })
    }

    /// The type that the Class entry at an index of the pool of the file at a place stands for (JVMS 4.4.1); `None`
    /// where there is no Class entry at that index.
    pub fn class_type(&self, file: u32, index: u16) -> Option<ObjectType>
        ensures { (us : List ClassUnit) → ArePoolTypes us self.now → (u : ClassUnit) → slice_get us file ≡ Some u →
            result ≡ option_map (type_named (program_names us)) (class_name_of u.file.pool (slice_get u.file.pool index)) }
    {
        type_in(&self.rows, file, index)
    }

    /// The type of the class that the Field, Method or InterfaceMethod entry at an index of the pool of the file at a
    /// place names as the owner of the member (JVMS 4.4.2), which may be an array; `None` where there is no such entry
    /// at that index.
    pub fn owner_type(&self, file: u32, pool: &[Constant], index: u16) -> Option<ObjectType>
        ensures owner { (us : List ClassUnit) → ArePoolTypes us self.now → (u : ClassUnit) → slice_get us file ≡ Some u → pool.now ≡ u.file.pool →
            result ≡ option_map (type_named (program_names us)) (owner_name_of u.file.pool (slice_get u.file.pool index)) }
        ensures reference { (us : List ClassUnit) → ArePoolTypes us self.now → (u : ClassUnit) → slice_get us file ≡ Some u → pool.now ≡ u.file.pool →
            (r : Reference) → reference_in u.file.pool (slice_get u.file.pool index) ≡ Some r → result ≡ Some (type_named (program_names us) r.class) }
    {
        let class = owner_at(pool, index)?;
        self.class_type(file, class)
    }
}
