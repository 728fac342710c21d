//! The methods that initialize classes.

ghost use Rattle.std.specs.Prelude.{◌≡◌, ℕ, IfOk, Some, option_map, slice_get};
ghost use Rattle.std.specs.List.{find};
ghost use Rattle.link_rules.specs.Classes.{NamedMember, classes_of, methods_of};
ghost use Rattle.link_rules.specs.Members.{signature_of};
ghost use Rattle.link_rules.specs.Methods.{initializer};
ghost use Rattle.member_lookup.specs.Found.{HaveNumbers};
ghost use Rattle.member_lookup.specs.Rows.{class_rows, id_of_row};
ghost use Rattle.text_numbers.specs.Numbers.{number_of};
ghost use Rattle.method_table.specs.Rows.{initializes};

use access_flags::{STATIC, has};
use class_texts::ClassTexts;
use link_types::MethodId;
use member_table::MemberRow;

/// The first static method of a name and a descriptor.
fn find_static(members: &[MemberRow], name: u32, descriptor: u32) -> Option<MemberRow>
    ensures { result ≡ find (initializes name descriptor) members.now }
{
    members
        .iter()
        .find(|m| (m.name == name && m.descriptor == descriptor) && has(m.flags, STATIC))
        .copied()
}

fn id_of(member: Option<MemberRow>) -> Option<MethodId>
    ensures { result ≡ option_map id_of_row member }
{
    let member = member?;
    Some(MethodId {
        class: member.class,
        method: member.place,
    })
}

/// Of the methods of a class the one that initializes it (JVMS 2.9).
pub fn initializer_among(
    texts: &ClassTexts<'_>,
    class: u32,
    members: &[MemberRow],
) -> Option<MethodId>
    requires members { members.now ≡ class_rows texts.now.texts (methods_of (classes_of texts.now.units)) class }
    requires numbered { (i : ℕ) (m : NamedMember) → slice_get (methods_of (classes_of texts.now.units) class) i ≡ Some m
        → HaveNumbers texts.now (number_of texts.now.texts m.name) (number_of texts.now.texts m.descriptor) (signature_of m) }
    ensures { result ≡ initializer (classes_of texts.now.units) class }
{
    let name = texts.number(b"<clinit>");
    if name == 0 {
        return None;
    }
    let descriptor = texts.number(b"()V");
    if descriptor == 0 {
        return None;
    }
    id_of(find_static(members, name, descriptor))
}
