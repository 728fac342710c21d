//! What is at an index of the constant pool.

ghost use Rattle.std.specs.Prelude.{◌≡◌, ◌↔◌, ℕ, List, IfSome, IfNone, IsTrue, option_map, slice_get};
ghost use Rattle.std.specs.Str.{bytes_eq};
ghost use Rattle.class_pool.specs.Pool.{reference_of, IsClassAt};
ghost use Rattle.class_pool.specs.PoolRules.{IsText, IsClassEntry};
ghost use Rattle.class_pool.specs.PoolTest.{is_class_entry, is_text, is_class};
ghost use Rattle.class_pool.specs.Lookup.{utf8_of, class_name_of, both_texts, name_and_type_of, class_and_member, reference_in};

use class_walk::Constant;

/// The class, the name and the descriptor of a field or a method that a pool names (JVMS 4.4.2).
#[derive(Clone, Copy)]
pub struct Reference<'a> {
    pub class: &'a [u8],
    pub name: &'a [u8],
    pub descriptor: &'a [u8],
}

/// Whether a Utf8 entry is there.
pub fn is_text_at(pool: &[Constant], index: u16) -> bool
    ensures { IsTrue result ↔ IsText pool.now index }
{
    matches!(pool.get(usize::from(index)), Some(Constant::Utf8(_)))
}

/// Whether a Class entry is there.
pub fn is_class_entry_at(pool: &[Constant], index: u16) -> bool
    ensures value { result ≡ is_class_entry (slice_get pool.now index) }
    ensures meaning { IsTrue result ↔ IsClassEntry pool.now index }
{
    matches!(pool.get(usize::from(index)), Some(Constant::Class(_)))
}

fn is_same(a: &[u8], b: &[u8]) -> bool
    ensures { result ≡ bytes_eq a.now b.now }
{
    a == b
}

/// Whether a Utf8 entry of these bytes is there.
pub fn is_utf8_at(pool: &[Constant], index: u16, text: &[u8]) -> bool
    ensures { result ≡ is_text text.now (slice_get pool.now index) }
{
    match pool.get(usize::from(index)) {
        Some(Constant::Utf8(bytes)) => is_same(bytes.as_slice(), text),
        _ => false,
    }
}

/// Whether a Class entry of this name is there.
pub fn is_class_at(pool: &[Constant], index: u16, name: &[u8]) -> bool
    ensures { result ≡ is_class pool.now name.now (slice_get pool.now index) }
{
    match pool.get(usize::from(index)) {
        Some(Constant::Class(n)) => is_utf8_at(pool, *n, name),
        _ => false,
    }
}

/// The bytes of the Utf8 entry there, or `None` where there is none.
pub fn utf8_at(pool: &[Constant], index: u16) -> Option<&[u8]>
    ensures { option_map (λ x. x.now) result ≡ utf8_of (slice_get pool.now index) }
{
    match pool.get(usize::from(index)) {
        Some(Constant::Utf8(text)) => Some(text.as_slice()),
        _ => None,
    }
}

/// The name of the class, or the descriptor of the array class, whose Class entry is there, or `None` where there is
/// none (JVMS 4.4.1).
pub fn class_name_at(pool: &[Constant], index: u16) -> Option<&[u8]>
    ensures value { option_map (λ x. x.now) result ≡ class_name_of pool.now (slice_get pool.now index) }
    ensures found { IfSome result (λ name. IsClassAt pool.now index name.now) }
    ensures none { IfNone result ((name : List ℕ) → IsClassAt pool.now index name → ⊥) }
{
    match pool.get(usize::from(index)) {
        Some(Constant::Class(n)) => match pool.get(usize::from(*n)) {
            Some(Constant::Utf8(name)) => Some(name.as_slice()),
            _ => None,
        },
        _ => None,
    }
}

fn both<'a>(name: Option<&'a [u8]>, descriptor: Option<&'a [u8]>) -> Option<(&'a [u8], &'a [u8])>
    ensures { option_map (λ x. (x.0.now, x.1.now)) result ≡ both_texts (option_map (λ x. x.now) name.entry) (option_map (λ x. x.now) descriptor.entry) }
{
    match (name, descriptor) {
        (Some(name), Some(descriptor)) => Some((name, descriptor)),
        _ => None,
    }
}

/// The name and the descriptor of the NameAndType entry there, or `None` where there is none (JVMS 4.4.6).
pub fn name_and_type_at(pool: &[Constant], index: u16) -> Option<(&[u8], &[u8])>
    ensures { option_map (λ x. (x.0.now, x.1.now)) result ≡ name_and_type_of pool.now (slice_get pool.now index) }
{
    match pool.get(usize::from(index)) {
        Some(Constant::Pair(name, descriptor)) => {
            both(utf8_at(pool, *name), utf8_at(pool, *descriptor))
        }
        _ => None,
    }
}

/// The class and the member of two entries.
fn class_and_member(pool: &[Constant], class: u16, pair: u16) -> Option<Reference<'_>>
    ensures { option_map (λ r. reference_of r.class.now r.name.now r.descriptor.now) result
        ≡ class_and_member (class_name_of pool.now (slice_get pool.now class)) (name_and_type_of pool.now (slice_get pool.now pair)) }
{
    match (class_name_at(pool, class), name_and_type_at(pool, pair)) {
        (Some(class), Some((name, descriptor))) => Some(Reference {
            class,
            name,
            descriptor,
        }),
        _ => None,
    }
}

/// The member that the Field, Method or InterfaceMethod entry there names, or `None` where none of them is there
/// (JVMS 4.4.2).
pub fn reference_at(pool: &[Constant], index: u16) -> Option<Reference<'_>>
    ensures { option_map (λ r. reference_of r.class.now r.name.now r.descriptor.now) result ≡ reference_in pool.now (slice_get pool.now index) }
{
    match pool.get(usize::from(index)) {
        Some(
            Constant::Field(class, pair)
            | Constant::Method(class, pair)
            | Constant::IfaceMethod(class, pair),
        ) => class_and_member(pool, *class, *pair),
        _ => None,
    }
}
