//! The operands of methods.

ghost use Rattle.std.specs.Prelude.{◌≡◌, ◌≤◌, ℕ, List, length, option_map};
ghost use Rattle.class_pool.specs.Pool.{Reference};
ghost use Rattle.code_decode.specs.declared.code.ClassUnit.{ClassUnit};
ghost use Rattle.link_rules.specs.Classes.{classes_of, number_of_file};
ghost use Rattle.link_rules.specs.Members.{Declared, found_method};
ghost use Rattle.link_rules.specs.Names.{program_names, type_named};
ghost use Rattle.link_rules.specs.Operands.{special_id, method_found};
ghost use Rattle.member_lookup.specs.Found.{found_of, AreNumbers};
ghost use Rattle.operand_table.specs.Found.{id_of};
ghost use Rattle.operand_table.specs.Sources.{AreSourcesOf};

use crate::sources::Sources;
use access_flags::{STATIC, has};
use builtin_world::number::COUNT;
use link_types::{MethodId, MethodOperand, ObjectType, Operand};
use member_lookup::{Found, MemberLookup, ReferenceNumbers};

fn id_of(found: Found) -> MethodId
    ensures { result ≡ id_of found }
{
    MethodId {
        class: found.class,
        method: found.place,
    }
}

/// The method that invokespecial calls in a class where look-up finds this one (JVMS 6.5).
fn special_id(
    lookup: &MemberLookup<'_>,
    this: u32,
    reference: ReferenceNumbers,
    found: Found,
) -> Option<MethodId>
    ensures { (r : Reference) (d : Declared) → AreNumbers lookup.now reference r → found ≡ found_of d →
        result ≡ special_id (program_names lookup.now.units) this r d }
{
    if has(found.flags, STATIC) {
        return None;
    }
    let special = lookup.special(this, reference, found)?;
    Some(id_of(special))
}

/// What a Method or InterfaceMethod entry with this reference and this type, of the file at a place, stands for.
pub fn method_operand(
    sources: Sources<'_, '_>,
    file: u32,
    reference: ReferenceNumbers,
    named: ObjectType,
) -> Operand
    requires place { file ≤ 1024 }
    requires holder { reference.holder ≤ length (classes_of sources.lookup.now.units) }
    ensures { (us : List ClassUnit) (r : Reference) → AreSourcesOf us sources.entry → AreNumbers sources.entry.lookup.now reference r → named ≡ type_named (program_names us) r.class →
        result ≡ method_found (program_names us) (number_of_file file) r (found_method (classes_of us) r) }
{
    match sources.lookup.found_method(reference) {
        Some(found) => Operand::Method(MethodOperand {
            named,
            method: id_of(found),
            special: special_id(sources.lookup, COUNT + 1 + file, reference, found),
            constructs: sources.lookup.is_constructor(reference),
        }),
        None => Operand::Nothing,
    }
}
