//! Whether objects answer with an implementation of an abstract method.

ghost use Rattle.std.specs.Prelude.{◌≡◌, ◌≤◌, ℕ, Some, length, option_map, slice_get};
ghost use Rattle.link_rules.specs.Classes.{NamedMember, classes_of, methods_of};
ghost use Rattle.link_rules.specs.Members.{signature_of};
ghost use Rattle.link_rules.specs.Units.{AreUnits};
ghost use Rattle.text_numbers.specs.Numbers.{number_of};
ghost use Rattle.member_lookup.specs.Found.{HaveNumbers};
ghost use Rattle.link_members.specs.Members.{AreCandidates, answers, is_answered};

use access_flags::{ABSTRACT, PUBLIC, has};
use member_lookup::{Found, MemberLookup};
use member_table::MemberRow;

/// What the method that objects of a class answer with must be, where an abstract method is above the class.
#[derive(Clone, Copy)]
pub enum Asked {
    /// It is there and isn't abstract.
    Implemented,
    /// It is public, unless it is abstract.
    Public,
}

/// The name and the descriptor of each method of each class have numbers.
pub fn methods_have_numbers(lookup: &MemberLookup<'_>)
    requires { AreUnits lookup.now.units }
    ensures { (c i : ℕ) (m : NamedMember) → slice_get (methods_of (classes_of lookup.now.units) c) i ≡ Some m
        → HaveNumbers lookup.now (number_of lookup.now.texts m.name) (number_of lookup.now.texts m.descriptor) (signature_of m) }
{
    lookup.texts().know_all();
}

/// Whether what was found is as asked.
fn answers(asked: Asked, found: Option<Found>) -> bool
    ensures { result ≡ answers asked (option_map (λ f. f.flags) found) }
{
    match (asked, found) {
        (Asked::Implemented, Some(found)) => !has(found.flags, ABSTRACT),
        (Asked::Implemented, None) => false,
        (Asked::Public, Some(found)) => has(found.flags, ABSTRACT) || has(found.flags, PUBLIC),
        (Asked::Public, None) => true,
    }
}

/// Whether the method that objects of a class answer with (JVMS 6.5, invokevirtual) is as asked, of the methods of a name
/// and a descriptor that are neither static nor private. Takes no memory, and as long as they are many.
pub fn is_answered(
    lookup: &MemberLookup<'_>,
    asked: Asked,
    class: u32,
    methods: &[MemberRow],
) -> bool
    requires { class ≤ length (classes_of lookup.now.units) }
    ensures { (m : NamedMember) → AreCandidates lookup.now m methods.now → result ≡ is_answered asked (classes_of lookup.now.units) class m }
{
    answers(asked, lookup.selected_among(class, methods))
}
