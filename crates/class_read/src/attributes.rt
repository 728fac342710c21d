//! The attributes that are read: ConstantValue, Code and StackMapTable (JVMS 4.7.2 to 4.7.4).

ghost use Rattle.std.specs.Prelude.{◌≡◌, ◌↔◌, ℕ, ◌+◌, ◌<◌, ◌≤◌, ◌^◌, List, Some, IsTrue, IfOk, OnErr, length, codes, is_some, slice_get, option_copied, option_map};
ghost use Rattle.class_walk.specs.declared.class.RawAttribute.{RawAttribute};
ghost use Rattle.class_walk.specs.Reading.{code_of};
ghost use Rattle.class_read.specs.AttributeRules.{is_named, named, name_rules, is_constant_for, IsConstantAt, IsConstantValue, index_in, field_attribute_rules, field_attributes_rules, code_attribute_rules, code_attributes_rules, code_rules, method_attribute_rules, method_attributes_rules, constant_of, maps_of, code_attribute, code_in, code_of_method, IsCodeIn, EndBelow, AllEndBelow, AllBeginBelow};
ghost use Rattle.rules.specs.Rules.{each};
ghost use Rattle.class_pool.specs.Answers.{Gives, KeepsExactly, GivesExactly};

use crate::class_file::CodeAttribute;
use access_flags::{STATIC, has};
use class_pool::{ReadRefusal, is_text_at, is_utf8_at};
use class_walk::{Constant, ContentRefusal, RawAttribute, RawCode, RawMember, code_content};
use rows::{Bytes, Rows};
use std::alloc::{AllocError, Global};

/// Whether a static field of this descriptor may begin with this constant.
fn is_constant_for(descriptor: &[u8], constant: &Constant) -> bool
    ensures { result ≡ is_constant_for descriptor.now constant.now }
{
    match constant {
        Constant::Integer(_) => {
            descriptor == b"I".as_slice()
                || descriptor == b"S".as_slice()
                || descriptor == b"C".as_slice()
                || descriptor == b"B".as_slice()
                || descriptor == b"Z".as_slice()
        }
        Constant::Long(_) => descriptor == b"J".as_slice(),
        Constant::Float(_) => descriptor == b"F".as_slice(),
        Constant::Double(_) => descriptor == b"D".as_slice(),
        Constant::Str(_) => descriptor == b"Ljava/lang/String;".as_slice(),
        _ => false,
    }
}

/// Whether a static field whose descriptor is at the first index may begin with the constant at the second.
fn is_constant_at(pool: &[Constant], descriptor: u16, index: u16) -> bool
    ensures { IsTrue result ↔ IsConstantAt pool.now descriptor index }
{
    match (
        pool.get(usize::from(descriptor)),
        pool.get(usize::from(index)),
    ) {
        (Some(Constant::Utf8(text)), Some(constant)) => is_constant_for(text.as_slice(), constant),
        _ => false,
    }
}

/// The index that two bytes are.
fn index_in(content: &[u8]) -> u16
    ensures { result ≡ index_in content.now }
{
    match content {
        [high, low, ..] => u16::from(*high) * 256 + u16::from(*low),
        _ => 0,
    }
}

/// Whether these bytes may be the content of the ConstantValue of a field.
fn is_constant_value(pool: &[Constant], field: &RawMember, content: &[u8]) -> bool
    ensures { IsTrue result ↔ IsConstantValue pool.now field.now content.now }
{
    content.len() == 2
        && (!has(field.flags, STATIC) || is_constant_at(pool, field.descriptor, index_in(content)))
}

/// Checks the name of an attribute.
pub fn check_name(pool: &[Constant], attribute: &RawAttribute) -> Result<(), ReadRefusal>
    ensures { KeepsExactly result (name_rules pool.now attribute.now) }
{
    if !is_text_at(pool, attribute.name) {
        return Err(ReadRefusal::PoolIndex(attribute.name));
    }
    Ok(())
}

/// Checks an attribute of a field, and says whether it is a ConstantValue. The flag says whether one comes before it.
fn is_checked_constant(
    pool: &[Constant],
    field: &RawMember,
    earlier: bool,
    attribute: &RawAttribute,
) -> Result<bool, ReadRefusal>
    ensures { GivesExactly result (field_attribute_rules pool.now field.now earlier attribute.now)
        (λ found. found ≡ is_named pool.now (codes "ConstantValue") attribute.now) }
{
    check_name(pool, attribute)?;
    if !is_utf8_at(pool, attribute.name, b"ConstantValue") {
        return Ok(false);
    }
    if earlier || !is_constant_value(pool, field, attribute.content.as_slice()) {
        return Err(ReadRefusal::Attribute(attribute.at));
    }
    Ok(true)
}

/// The ConstantValue of a field.
fn constant_value<'a>(
    pool: &[Constant],
    field: &'a RawMember,
) -> Result<Option<&'a RawAttribute>, ReadRefusal>
    ensures { GivesExactly result (field_attributes_rules pool.now field.now)
        (λ found. option_copied found ≡ named pool.now (codes "ConstantValue") field.now.attributes) }
{
    let mut found: Option<&RawAttribute> = None;
    for attribute in field.attributes.as_slice() {
        if is_checked_constant(pool, field, found.is_some(), attribute)? {
            found = Some(attribute);
        }
    }
    Ok(found)
}

/// Checks the attributes of a field, and gives the index of the constant that a static field begins with.
pub fn field_constant(pool: &[Constant], field: &RawMember) -> Result<Option<u16>, ReadRefusal>
    ensures { GivesExactly result (field_attributes_rules pool.now field.now) (λ constant. constant ≡ constant_of pool.now field.now) }
{
    let found = constant_value(pool, field)?;
    Ok(match found {
        Some(attribute) if has(field.flags, STATIC) => {
            Some(index_in(attribute.content.as_slice()))
        }
        _ => None,
    })
}

/// Checks an attribute of the Code at a place, and says whether it is a StackMapTable. The flag says whether
/// one comes before it.
fn is_checked_map(
    pool: &[Constant],
    at: u32,
    earlier: bool,
    attribute: &RawAttribute,
) -> Result<bool, ReadRefusal>
    requires { at + 6 + attribute.now.at < 2 ^ 32 }
    ensures { GivesExactly result (code_attribute_rules pool.now at earlier attribute.now)
        (λ found. found ≡ is_named pool.now (codes "StackMapTable") attribute.now) }
{
    check_name(pool, attribute)?;
    if !is_utf8_at(pool, attribute.name, b"StackMapTable") {
        return Ok(false);
    }
    if earlier {
        return Err(ReadRefusal::Attribute(at + 6 + attribute.at));
    }
    Ok(true)
}

/// The StackMapTable among the attributes of the Code at a place.
fn stack_map<'a>(
    pool: &[Constant],
    at: u32,
    attributes: &'a Rows<RawAttribute>,
) -> Result<Option<&'a RawAttribute>, ReadRefusal>
    requires { AllBeginBelow attributes.now at (2 ^ 32) }
    ensures { GivesExactly result (code_attributes_rules pool.now at attributes.now)
        (λ found. option_copied found ≡ named pool.now (codes "StackMapTable") attributes.now) }
{
    let mut found: Option<&RawAttribute> = None;
    for attribute in attributes.as_slice() {
        if is_checked_map(pool, at, found.is_some(), attribute)? {
            found = Some(attribute);
        }
    }
    Ok(found)
}

/// The content of the StackMapTable among the attributes of the Code at a place.
fn maps(
    alloc: Global,
    pool: &[Constant],
    at: u32,
    attributes: &Rows<RawAttribute>,
) -> Result<Bytes, ReadRefusal>
    requires { AllBeginBelow attributes.now at (2 ^ 32) }
    ensures { Gives result (code_attributes_rules pool.now at attributes.now) (λ maps. maps ≡ maps_of pool.now attributes.now) }
{
    let found = stack_map(pool, at, attributes)?;
    match found {
        Some(attribute) => Ok(Bytes::from_slice(alloc, attribute.content.as_slice())?),
        None => Ok(Bytes::new(alloc)),
    }
}

/// What is kept of the content of the Code at a place.
fn kept_code(
    alloc: Global,
    pool: &[Constant],
    at: u32,
    raw: RawCode,
) -> Result<CodeAttribute, ReadRefusal>
    requires { AllBeginBelow raw.attributes at (2 ^ 32) }
    ensures { Gives result (code_attributes_rules pool.now at raw.attributes) (λ code. code ≡ code_attribute pool.now raw) }
{
    let maps = maps(alloc, pool, at, &raw.attributes)?;
    let RawCode {
        max_stack,
        max_locals,
        bytes,
        handlers,
        attributes: _,
    } = raw;
    Ok(CodeAttribute {
        max_stack,
        max_locals,
        bytes,
        handlers,
        maps,
    })
}

/// The code that is the content of a Code.
fn code(
    alloc: Global,
    pool: &[Constant],
    attribute: &RawAttribute,
) -> Result<CodeAttribute, ReadRefusal>
    requires { EndBelow attribute.now (2 ^ 32) }
    ensures { Gives result (code_rules pool.now attribute.now.at (code_of attribute.now.content))
        (λ code. code_in pool.now attribute.now ≡ Some code) }
{
    match code_content(alloc, attribute.content.as_slice()) {
        Ok(raw) => kept_code(alloc, pool, attribute.at, raw),
        Err(ContentRefusal::NoMemory) => Err(ReadRefusal::NoMemory),
        Err(ContentRefusal::Malformed) => Err(ReadRefusal::Attribute(attribute.at)),
    }
}

/// Checks an attribute of a method, and gives its code where it is a Code. The flag says whether one comes before it.
fn checked_code(
    alloc: Global,
    pool: &[Constant],
    is_second: bool,
    attribute: &RawAttribute,
) -> Result<Option<CodeAttribute>, ReadRefusal>
    requires { EndBelow attribute.now (2 ^ 32) }
    ensures { Gives result (method_attribute_rules pool.now is_second attribute.now)
        (λ code. IsCodeIn pool.now attribute.now code) }
{
    check_name(pool, attribute)?;
    if !is_utf8_at(pool, attribute.name, b"Code") {
        return Ok(None);
    }
    if is_second {
        return Err(ReadRefusal::Attribute(attribute.at));
    }
    let code = code(alloc, pool, attribute)?;
    Ok(Some(code))
}

/// Checks the attributes of a method, and gives its code.
pub fn method_code(
    alloc: Global,
    pool: &[Constant],
    method: &RawMember,
) -> Result<Option<CodeAttribute>, ReadRefusal>
    requires { AllEndBelow method.now.attributes (2 ^ 32) }
    ensures { Gives result (method_attributes_rules pool.now method.now)
        (λ code. (code ≡ code_of_method pool.now method.now) × (is_some code ≡ is_some (named pool.now (codes "Code") method.now.attributes))) }
{
    let mut code = None;
    for attribute in method.attributes.as_slice() {
        match checked_code(alloc, pool, code.is_some(), attribute)? {
            Some(next) => code = Some(next),
            None => {}
        }
    }
    Ok(code)
}
