//! The rules of fields and methods (JVMS 4.5, 4.6).

ghost use Rattle.std.specs.Prelude.{◌≡◌, ◌^◌, map, codes, is_some};
ghost use Rattle.class_names.specs.Names.{IsMemberName, IsMethodName};
ghost use Rattle.class_read.specs.AttributeRules.{AllEndBelow, named, field_attributes_rules, method_attributes_rules, constant_of, code_of_method};
ghost use Rattle.class_read.specs.MemberRules.{may_take, IsTypeOfMethod, text_at_rules, text_rules, lone_field_rules, lone_method_rules, field_rules, method_rules, field_of, method_of, HasSmallMethods};
ghost use Rattle.class_pool.specs.PoolRules.{IsFieldType};
ghost use Rattle.class_read.specs.Repeats.{IsFirstRepeat};
ghost use Rattle.rules.specs.Rules.{each};
ghost use Rattle.class_pool.specs.Answers.{Gives, KeepsExactly, GivesExactly};
ghost use Rattle.class_pool.specs.TextUses.{IsUseAt};

use crate::attributes::{field_constant, method_code};
use crate::class_file::{CodeAttribute, Member};
use crate::flags::{are_field_flags, are_method_flags, wants_code};
use access_flags::{STATIC, has};
use class_names::ParameterSize;
use class_pool::{Pool, ReadRefusal, TextUse};
use class_walk::RawMember;
use rows::Rows;
use std::alloc::Global;

/// What the text at an index may be used as.
fn use_at(pool: &Pool<'_>, index: u16) -> Result<TextUse, ReadRefusal>
    ensures { GivesExactly result (text_at_rules pool.now index) (IsUseAt pool.now index) }
{
    match pool.text_use(index) {
        Some(found) => Ok(found),
        None => Err(ReadRefusal::PoolIndex(index)),
    }
}

/// Whether a method with these flags may have parameters of this size.
fn may_take(flags: u16, parameters: Option<ParameterSize>) -> bool
    ensures { result ≡ may_take flags parameters }
{
    let receiver = if has(flags, STATIC) { 0 } else { 1 };
    match parameters {
        Some(size) => size.words <= 255 - receiver,
        None => false,
    }
}

fn check_field_name(pool: &Pool<'_>, index: u16) -> Result<(), ReadRefusal>
    ensures { KeepsExactly result (text_rules IsMemberName pool.now index) }
{
    let found = use_at(pool, index)?;
    if !found.is_member_name {
        return Err(ReadRefusal::BadDescriptor(index));
    }
    Ok(())
}

fn check_field_type(pool: &Pool<'_>, index: u16) -> Result<(), ReadRefusal>
    ensures { KeepsExactly result (text_rules IsFieldType pool.now index) }
{
    let found = use_at(pool, index)?;
    if !found.is_field_type {
        return Err(ReadRefusal::BadDescriptor(index));
    }
    Ok(())
}

fn check_method_name(pool: &Pool<'_>, index: u16) -> Result<(), ReadRefusal>
    ensures { KeepsExactly result (text_rules IsMethodName pool.now index) }
{
    let found = use_at(pool, index)?;
    if !found.is_method_name {
        return Err(ReadRefusal::BadDescriptor(index));
    }
    Ok(())
}

fn check_method_type(pool: &Pool<'_>, flags: u16, index: u16) -> Result<(), ReadRefusal>
    ensures { KeepsExactly result (text_rules (IsTypeOfMethod flags) pool.now index) }
{
    let found = use_at(pool, index)?;
    if !may_take(flags, found.parameters) {
        return Err(ReadRefusal::BadDescriptor(index));
    }
    Ok(())
}

fn constant_of_field(pool: &Pool<'_>, field: &RawMember) -> Result<Option<u16>, ReadRefusal>
    ensures { GivesExactly result (field_attributes_rules pool.now field.now) (λ constant. constant ≡ constant_of pool.now field.now) }
{
    field_constant(pool.constants(), field)
}

fn code_of_method(
    alloc: Global,
    pool: &Pool<'_>,
    method: &RawMember,
) -> Result<Option<CodeAttribute>, ReadRefusal>
    requires { AllEndBelow method.now.attributes (2 ^ 32) }
    ensures { Gives result (method_attributes_rules pool.now method.now)
        (λ code. (code ≡ code_of_method pool.now method.now) × (is_some code ≡ is_some (named pool.now (codes "Code") method.now.attributes))) }
{
    method_code(alloc, pool.constants(), method)
}

/// Checks a field, but for whether it repeats another, and gives what is kept of it.
fn lone_field(pool: &Pool<'_>, is_interface: bool, field: &RawMember) -> Result<Member, ReadRefusal>
    ensures { GivesExactly result (lone_field_rules pool.now is_interface field.now) (λ member. member ≡ field_of pool.now field.now) }
{
    check_field_name(pool, field.name)?;
    check_field_type(pool, field.descriptor)?;
    if !are_field_flags(is_interface, field.flags) {
        return Err(ReadRefusal::Flags);
    }
    let constant = constant_of_field(pool, field)?;
    Ok(Member {
        flags: field.flags,
        name: field.name,
        descriptor: field.descriptor,
        constant,
        code: None,
    })
}

/// Checks a method, but for whether it repeats another, and gives what is kept of it.
fn lone_method(alloc: Global, pool: &Pool<'_>, method: &RawMember) -> Result<Member, ReadRefusal>
    requires { AllEndBelow method.now.attributes (2 ^ 32) }
    ensures { Gives result (lone_method_rules pool.now method.now) (λ member. member ≡ method_of pool.now method.now) }
{
    check_method_name(pool, method.name)?;
    check_method_type(pool, method.flags, method.descriptor)?;
    if !are_method_flags(method.flags) {
        return Err(ReadRefusal::Flags);
    }
    let code = code_of_method(alloc, pool, method)?;
    if code.is_some() != wants_code(method.flags) {
        return Err(ReadRefusal::Member(method.at));
    }
    Ok(Member {
        flags: method.flags,
        name: method.name,
        descriptor: method.descriptor,
        constant: None,
        code,
    })
}

/// Checks the fields, of which this one is the first that repeats another.
pub fn fields(
    alloc: Global,
    pool: &Pool<'_>,
    is_interface: bool,
    members: &[RawMember],
    repeat: Option<usize>,
) -> Result<Rows<Member>, ReadRefusal>
    requires { IsFirstRepeat pool.now members.now repeat }
    ensures { Gives result (each (field_rules pool.now is_interface members.now) members.now)
        (λ fields. fields ≡ map (field_of pool.now) members.now) }
{
    let mut fields = Rows::new(alloc);
    for (index, member) in members.iter().enumerate() {
        let field = lone_field(pool, is_interface, member)?;
        if repeat == Some(index) {
            return Err(ReadRefusal::Member(member.at));
        }
        fields.push(field)?;
    }
    Ok(fields)
}

/// Checks the methods, of which this one is the first that repeats another.
pub fn methods(
    alloc: Global,
    pool: &Pool<'_>,
    members: &[RawMember],
    repeat: Option<usize>,
) -> Result<Rows<Member>, ReadRefusal>
    requires small { HasSmallMethods members.now }
    requires repeat { IsFirstRepeat pool.now members.now repeat }
    ensures { Gives result (each (method_rules pool.now members.now) members.now)
        (λ methods. methods ≡ map (method_of pool.now) members.now) }
{
    let mut methods = Rows::new(alloc);
    for (index, member) in members.iter().enumerate() {
        let method = lone_method(alloc, pool, member)?;
        if repeat == Some(index) {
            return Err(ReadRefusal::Member(member.at));
        }
        methods.push(method)?;
    }
    Ok(methods)
}
