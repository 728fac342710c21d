//! The references of a pool by numbers.

ghost use Rattle.std.specs.Prelude.{◌≡◌, ◌≢◌, ◌-◌, List, ℕ, Some, IfSome, option_map, option_and_then, slice_get, slice_index};
ghost use Rattle.class_pool.specs.Lookup.{utf8_of, class_name_of, name_and_type_of, class_and_member, reference_in};
ghost use Rattle.code_decode.specs.declared.code.ClassUnit.{ClassUnit};
ghost use Rattle.text_numbers.specs.Numbers.{number_of};
ghost use Rattle.member_lookup.specs.Found.{both_numbers, assembled};

use crate::found::ReferenceNumbers;
use class_texts::ClassTexts;
use class_walk::Constant;

/// The number of the text of a Utf8 entry, or `None` where there is no such entry.
fn text_at(texts: &ClassTexts<'_>, file: u32, index: u16) -> Option<u32>
    ensures number { (u : ClassUnit) → slice_get texts.now.units file ≡ Some u → result ≡ option_map (number_of texts.now.texts) (utf8_of (slice_get u.file.pool index)) }
    ensures some { IfSome result (λ n. n ≢ 0) }
{
    let number = texts.at(file, index);
    if number == 0 { None } else { Some(number) }
}

/// The indices of the class and of the name and type of a Field, Method or InterfaceMethod entry.
pub fn member_entry(pool: &[Constant], index: u16) -> Option<(u16, u16)>
    ensures { reference_in pool.now (slice_get pool.now index)
        ≡ option_and_then (λ p. class_and_member (class_name_of pool.now (slice_get pool.now p.0)) (name_and_type_of pool.now (slice_get pool.now p.1))) result }
{
    match pool.get(usize::from(index)) {
        Some(
            Constant::Field(class, pair)
            | Constant::Method(class, pair)
            | Constant::IfaceMethod(class, pair),
        ) => Some((*class, *pair)),
        _ => None,
    }
}

/// The number of the name of a Class entry.
pub fn class_text(texts: &ClassTexts<'_>, file: u32, pool: &[Constant], index: u16) -> Option<u32>
    ensures number { (u : ClassUnit) → slice_get texts.now.units file ≡ Some u → pool.now ≡ u.file.pool → result ≡ option_map (number_of texts.now.texts) (class_name_of u.file.pool (slice_get u.file.pool index)) }
    ensures some { IfSome result (λ n. n ≢ 0) }
{
    match pool.get(usize::from(index)) {
        Some(Constant::Class(name)) => text_at(texts, file, *name),
        _ => None,
    }
}

fn both(name: Option<u32>, descriptor: Option<u32>) -> Option<(u32, u32)>
    ensures { result ≡ both_numbers name descriptor }
{
    match (name, descriptor) {
        (Some(name), Some(descriptor)) => Some((name, descriptor)),
        _ => None,
    }
}

/// The numbers of the name and of the descriptor of a NameAndType entry.
pub fn pair_texts(
    texts: &ClassTexts<'_>,
    file: u32,
    pool: &[Constant],
    index: u16,
) -> Option<(u32, u32)>
    ensures number { (u : ClassUnit) → slice_get texts.now.units file ≡ Some u → pool.now ≡ u.file.pool
        → result ≡ option_map (λ x. (number_of texts.now.texts x.0, number_of texts.now.texts x.1)) (name_and_type_of u.file.pool (slice_get u.file.pool index)) }
    ensures some { IfSome result (λ n. (n.0 ≢ 0) × (n.1 ≢ 0)) }
{
    match pool.get(usize::from(index)) {
        Some(Constant::Pair(name, descriptor)) => {
            let name = text_at(texts, file, *name);
            let descriptor = text_at(texts, file, *descriptor);
            both(name, descriptor)
        }
        _ => None,
    }
}

/// The number at a place that is counted from 1.
fn holder_at(holders: &[u32], number: u32) -> u32
    requires { number ≢ 0 }
    ensures { result ≡ slice_index holders.now (number - 1) }
{
    holders.get(number as usize - 1).copied().unwrap_or(0)
}

/// The numbers of a reference, where its class and its name and type are there.
pub fn assemble(
    holders: &[u32],
    class: Option<u32>,
    pair: Option<(u32, u32)>,
) -> Option<ReferenceNumbers>
    requires { IfSome class (λ n. n ≢ 0) }
    ensures { result ≡ assembled holders.now class pair }
{
    let class = class?;
    let (name, descriptor) = pair?;
    Some(ReferenceNumbers {
        holder: holder_at(holders, class),
        name,
        descriptor,
    })
}
