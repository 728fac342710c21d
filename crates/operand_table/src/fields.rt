//! The operands of fields.

ghost use Rattle.std.specs.Prelude.{◌≡◌, ◌≢◌, ◌≤◌, ℕ, List, length};
ghost use Rattle.class_pool.specs.Pool.{Reference};
ghost use Rattle.code_decode.specs.declared.code.ClassUnit.{ClassUnit};
ghost use Rattle.text_numbers.specs.Numbers.{number_of};
ghost use Rattle.link_rules.specs.Classes.{classes_of};
ghost use Rattle.link_rules.specs.Members.{found_field};
ghost use Rattle.link_rules.specs.Names.{program_names, type_named};
ghost use Rattle.link_rules.specs.Operands.{field_named};
ghost use Rattle.class_layout.specs.Rows.{place_numbered};
ghost use Rattle.member_lookup.specs.Found.{AreNumbers};
ghost use Rattle.operand_table.specs.FieldTypes.{field_type};
ghost use Rattle.operand_table.specs.Found.{operand_of_field};
ghost use Rattle.operand_table.specs.Sources.{AreSourcesOf};

use crate::sources::Sources;
use access_flags::{STATIC, has};
use builtin_world::number::SYSTEM;
use link_types::{FieldOperand, ObjectType, Operand};
use member_lookup::{Found, ReferenceNumbers};

/// The operand of a field that was found, by the number of its descriptor's text.
fn operand_of_field(
    sources: Sources<'_, '_>,
    descriptor: u32,
    named: ObjectType,
    found: Found,
) -> Operand
    requires { descriptor ≢ 0 }
    ensures { (us : List ClassUnit) (text : List ℕ) → AreSourcesOf us sources.entry → descriptor ≡ number_of sources.entry.lookup.now.texts text →
        result ≡ operand_of_field named (field_type us text) (place_numbered (classes_of us) found.class found.place) found }
{
    if found.class == SYSTEM {
        return Operand::Out;
    }
    match sources.fields.of(descriptor) {
        Some(kind) => Operand::Field(FieldOperand {
            named,
            owner: found.class,
            is_static: has(found.flags, STATIC),
            kind,
            place: sources.layout.field_place(found.class, found.place),
        }),
        None => Operand::Nothing,
    }
}

/// What a Field entry with this reference and this type stands for.
pub fn field_operand(
    sources: Sources<'_, '_>,
    reference: ReferenceNumbers,
    named: ObjectType,
) -> Operand
    requires holder { reference.holder ≤ length (classes_of sources.lookup.now.units) }
    requires descriptor { reference.descriptor ≢ 0 }
    ensures { (us : List ClassUnit) (r : Reference) → AreSourcesOf us sources.entry → AreNumbers sources.entry.lookup.now reference r → named ≡ type_named (program_names us) r.class →
        result ≡ field_named (program_names us) r (found_field (classes_of us) r) }
{
    match sources.lookup.found_field(reference) {
        Some(found) => operand_of_field(sources, reference.descriptor, named, found),
        None => Operand::Nothing,
    }
}
