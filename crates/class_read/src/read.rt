//! Reading class files (JVMS 4.1).

ghost use Rattle.std.specs.Prelude.{◌≡◌, ◌<◌, ◌^◌, ◌⊎◌, IfOk, IfErr, length, map};
ghost use Rattle.class_walk.specs.declared.class.RawClass.{RawClass};
ghost use Rattle.class_read.specs.declared.class_file.ClassFile.{ClassFile};
ghost use Rattle.class_pool.specs.declared.refusal.ReadRefusal.{ReadRefusal};
ghost use Rattle.class_pool.specs.declared.refusal.ReadRefusal.TheVariants.{NoMemory};
ghost use Rattle.class_read.specs.ClassFile.{class_of, refusal_of, IsFile, IsRefusalOf, IsRead, IsRefused, AreMembersOf};
ghost use Rattle.class_read.specs.ClassRules.{class_rules, class_rules_over, member_rules, fields_rules, methods_rules, class_attributes_rules};
ghost use Rattle.class_read.specs.MemberRules.{HasSmallMethods, field_of, method_of};
ghost use Rattle.class_pool.specs.Answers.{Gives, KeepsExactly};

use crate::attributes::check_name;
use crate::class_file::{ClassFile, Member};
use crate::header::check_header;
use crate::members::{fields, methods};
use crate::repeats::first_repeat;
use access_flags::{INTERFACE, has};
use class_pool::{Pool, ReadRefusal, check_pool};
use class_walk::{Constant, RawAttribute, RawClass, RawMember, WalkFault, WalkRefusal, walk};
use rows::Rows;
use std::alloc::Global;

fn refusal(fault: WalkFault) -> ReadRefusal
    ensures { result ≡ refusal_of fault }
{
    match fault {
        WalkFault::TooLong => ReadRefusal::TooLong,
        WalkFault::Truncated(length) => ReadRefusal::Truncated(length),
        WalkFault::Magic => ReadRefusal::Magic,
        WalkFault::Version => ReadRefusal::Version,
        WalkFault::PoolTag(index) => ReadRefusal::PoolTag(index),
        WalkFault::Trailing(at) => ReadRefusal::Trailing(at),
    }
}

/// Checks the names of the attributes of a class.
fn check_class_attributes(
    pool: &[Constant],
    attributes: &Rows<RawAttribute>,
) -> Result<(), ReadRefusal>
    ensures { KeepsExactly result (class_attributes_rules pool.now attributes.now) }
{
    for attribute in attributes.as_slice() {
        check_name(pool, attribute)?;
    }
    Ok(())
}

/// Checks the fields, and gives what is kept of them.
fn kept_fields(
    alloc: Global,
    pool: &Pool<'_>,
    is_interface: bool,
    members: &Rows<RawMember>,
) -> Result<Rows<Member>, ReadRefusal>
    requires count { length pool.now < 2 ^ 16 }
    ensures { Gives result (fields_rules pool.now is_interface members.now) (λ kept. kept ≡ map (field_of pool.now) members.now) }
{
    let members = members.as_slice();
    let repeat = first_repeat(alloc, pool.constants(), members)?;
    fields(alloc, pool, is_interface, members, repeat)
}

/// Checks the methods, and gives what is kept of them.
fn kept_methods(
    alloc: Global,
    pool: &Pool<'_>,
    members: &Rows<RawMember>,
) -> Result<Rows<Member>, ReadRefusal>
    requires count { length pool.now < 2 ^ 16 }
    requires small { HasSmallMethods members.now }
    ensures { Gives result (methods_rules pool.now members.now) (λ kept. kept ≡ map (method_of pool.now) members.now) }
{
    let members = members.as_slice();
    let repeat = first_repeat(alloc, pool.constants(), members)?;
    methods(alloc, pool, members, repeat)
}

/// Checks what comes after the header, and gives what is kept of the fields and of the methods.
fn kept_members(
    alloc: Global,
    pool: &Pool<'_>,
    class: &RawClass,
) -> Result<(Rows<Member>, Rows<Member>), ReadRefusal>
    requires count { length pool.now < 2 ^ 16 }
    requires small { HasSmallMethods class.now.methods }
    ensures { Gives result (member_rules pool.now class.now) (λ kept. AreMembersOf pool.now class.now kept) }
{
    let fields = kept_fields(alloc, pool, has(class.flags, INTERFACE), &class.fields)?;
    let methods = kept_methods(alloc, pool, &class.methods)?;
    check_class_attributes(pool.constants(), &class.attributes)?;
    Ok((fields, methods))
}

/// Checks a class, and gives what is kept of its fields and of its methods.
fn checked_members(
    alloc: Global,
    constants: &[Constant],
    class: &RawClass,
) -> Result<(Rows<Member>, Rows<Member>), ReadRefusal>
    requires count { length constants.now < 2 ^ 16 }
    requires small { HasSmallMethods class.now.methods }
    ensures { Gives result (class_rules_over constants.now class.now) (λ kept. AreMembersOf constants.now class.now kept) }
{
    check_pool(alloc, constants)?;
    let pool = Pool::new(alloc, constants)?;
    check_header(&pool, class)?;
    kept_members(alloc, &pool, class)
}

/// What is kept of a class.
fn class_file(alloc: Global, class: RawClass) -> Result<ClassFile, ReadRefusal>
    requires count { length class.pool < 2 ^ 16 }
    requires small { HasSmallMethods class.methods }
    ensures { Gives result (class_rules class) (λ file. file ≡ class_of class) }
{
    let (fields, methods) = checked_members(alloc, class.pool.as_slice(), &class)?;
    let RawClass {
        minor: _,
        major,
        pool,
        flags,
        this_class,
        super_class,
        interfaces,
        fields: _,
        methods: _,
        attributes: _,
    } = class;
    Ok(ClassFile {
        major,
        flags,
        this_class,
        super_class,
        interfaces,
        pool,
        fields,
        methods,
    })
}

/// Reads a class file.
///
/// What is refused is the first that is wrong: the layout from its front, the constant pool by index, the
/// header, and the fields, the methods and the attributes of the class in the file's order. `NoMemory` may
/// come anywhere.
pub fn read_class(alloc: Global, bytes: &[u8]) -> Result<ClassFile, ReadRefusal>
    // What is read is what the class file holds.
    ensures found { IfOk result (λ file. IsFile bytes.now file) }
    // A class file is read, unless memory runs out.
    ensures only { (file : ClassFile) → IsFile bytes.now file → IsRead result file }
    // What is refused is the first that is wrong.
    ensures exact { IfErr result (λ e. (e ≡ NoMemory) ⊎ IsRefusalOf bytes.now e) }
    // The first that is wrong is refused, unless memory runs out.
    ensures first { (e : ReadRefusal) → IsRefusalOf bytes.now e → IsRefused result e }
{
    match walk(alloc, bytes) {
        Ok(class) => class_file(alloc, class),
        Err(WalkRefusal::NoMemory) => Err(ReadRefusal::NoMemory),
        Err(WalkRefusal::Fault(fault)) => Err(refusal(fault)),
    }
}
