//! Members that repeat an earlier one (JVMS 4.5, 4.6).

ghost use Rattle.std.specs.Prelude.{◌≡◌, ◌+◌, ◌<◌, ◌^◌, List, Some, IfOk, length, slice_get};
ghost use Rattle.class_walk.specs.declared.class.Constant.{Constant};
ghost use Rattle.class_walk.specs.declared.class.Constant.TheVariants as constants;
ghost use Rattle.class_read.specs.Repeats.{IsFirstRepeat, IsFirstRepeatedKey, AddsKey, Knows, number_in, number_of, numbers_of, text_number_at, key_of};

use class_walk::{Constant, RawMember};
use std::alloc::{AllocError, Global};
use std::collections::{BTreeMap, BTreeSet};

/// The number of the text at an index: the first index at which it is.
fn numbered<'a>(
    numbers: &mut BTreeMap<&'a [u8], u16>,
    text: &'a [u8],
    index: u16,
) -> Result<u16, AllocError>
    ensures { (pool : List Constant) → slice_get pool index ≡ Some (constants.Utf8 text.now) → Knows pool index numbers.old →
        IfOk result (λ number. Knows pool (index + 1) numbers.new × (number_in pool text.now ≡ Some number)) }
{
    match numbers.get(text).copied() {
        Some(number) => Ok(number),
        None => {
            numbers.insert(text, index)?;
            Ok(index)
        }
    }
}

/// The number of the text of an entry.
fn number<'a>(
    numbers: &mut BTreeMap<&'a [u8], u16>,
    constant: &'a Constant,
    index: u16,
) -> Result<Option<u16>, AllocError>
    ensures { (pool : List Constant) → slice_get pool index ≡ Some constant.now → Knows pool index numbers.old →
        IfOk result (λ number. Knows pool (index + 1) numbers.new × (number_of pool constant.now ≡ number)) }
{
    match constant {
        Constant::Utf8(text) => {
            let number = numbered(numbers, text.as_slice(), index)?;
            Ok(Some(number))
        }
        _ => Ok(None),
    }
}

/// For each Utf8 entry the number of its text.
fn text_numbers(alloc: Global, pool: &[Constant]) -> Result<Vec<Option<u16>>, AllocError>
    requires { length pool.now < 2 ^ 16 }
    ensures { IfOk result (λ numbers. numbers.items ≡ numbers_of pool.now) }
{
    let mut known = BTreeMap::new(alloc);
    let mut numbers = Vec::new(alloc);
    for (index, constant) in pool.iter().enumerate() {
        let number = number(&mut known, constant, index as u16)?;
        numbers.push(number)?;
    }
    Ok(numbers)
}

fn text_number_at(numbers: &[Option<u16>], index: u16) -> Option<u16>
    ensures { result ≡ text_number_at numbers.now index }
{
    numbers.get(usize::from(index)).copied().flatten()
}

/// The numbers of the name and the descriptor of a member.
fn key(numbers: &[Option<u16>], member: &RawMember) -> Option<(u16, u16)>
    ensures { result ≡ key_of numbers.now member.now }
{
    let name = text_number_at(numbers, member.name)?;
    let descriptor = text_number_at(numbers, member.descriptor)?;
    Some((name, descriptor))
}

/// Adds a key where there is one, and says whether it was there already.
fn is_seen(seen: &mut BTreeSet<(u16, u16)>, key: Option<(u16, u16)>) -> Result<bool, AllocError>
    ensures { IfOk result (λ again. AddsKey seen.old seen.new key again) }
{
    match key {
        Some(key) => {
            let added = seen.insert(key)?;
            Ok(!added)
        }
        None => Ok(false),
    }
}

/// The first member that has the numbers of an earlier one.
fn first_repeated_key(
    alloc: Global,
    numbers: &[Option<u16>],
    members: &[RawMember],
) -> Result<Option<usize>, AllocError>
    ensures { IfOk result (λ repeat. IsFirstRepeatedKey numbers.now members.now repeat) }
{
    let mut seen = BTreeSet::new(alloc);
    for (index, member) in members.iter().enumerate() {
        if is_seen(&mut seen, key(numbers, member))? {
            return Ok(Some(index));
        }
    }
    Ok(None)
}

/// The first member whose name and descriptor an earlier one has, or `None`.
pub fn first_repeat(
    alloc: Global,
    pool: &[Constant],
    members: &[RawMember],
) -> Result<Option<usize>, AllocError>
    requires { length pool.now < 2 ^ 16 }
    ensures { IfOk result (λ repeat. IsFirstRepeat pool.now members.now repeat) }
{
    let numbers = text_numbers(alloc, pool)?;
    first_repeated_key(alloc, &numbers, members)
}
