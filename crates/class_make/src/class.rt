//! The parts of a class.

ghost use Rattle.std.specs.Prelude.{◌≡◌, [], ◌∷◌, IfOk};
ghost use Rattle.std.specs.Option.{option_copied};
ghost use Rattle.class_walk.specs.Layout.{IsCounted};
ghost use Rattle.class_write.specs.Writable.{IsWritableAttribute};
ghost use Rattle.assembler_bodies.specs.Making.{Gives, used};
ghost use Rattle.class_make.specs.Class.{value_item, attribute, constant_value, class_line, super_line, superclass};

use assembler_bodies::{BodyRefusal, Entry, index_of};
use assembler_lines::FieldValue;
use assembler_pool::PoolMaker;
use class_walk::{RawAttribute, RawMember};
use rows::{Bytes, Rows};
use std::alloc::{AllocError, Global};
use std::marker::Model;

/// How many interfaces, fields and methods a class has at most (JVMS 4.1).
const MOST: usize = 65_535;

/// A class as far as it is made, without its pool.
#[derive(Drop)]
pub struct ClassParts {
    pub flags: u16,
    pub this_class: u16,
    /// None before the line after the class's own.
    pub super_class: Option<u16>,
    pub interfaces: Rows<u16>,
    pub fields: Rows<RawMember>,
    pub methods: Rows<RawMember>,
}

impl Model for ClassParts {
    ghost use Rattle.std.specs.Prelude.{◌<◌, ◌^◌, length};
    ghost use Rattle.class_walk.specs.Layout.{IsCounted};
    ghost use Rattle.class_write.specs.Writable.{IsWritableMember};
    ghost use Rattle.class_make.specs.Class.{MadeClass};

    ghost Value = { MadeClass };

    ghost view = { λ c. record {
      flags = c.flags;
      this_class = c.this_class;
      super_class = c.super_class;
      interfaces = c.interfaces;
      fields = c.fields;
      methods = c.methods;
    } };

    ghost invariant = { λ c. (length c.interfaces < 2 ^ 16) × IsCounted IsWritableMember c.fields × IsCounted IsWritableMember c.methods };
}

/// An attribute as the only one of a member.
pub fn one_attribute(
    alloc: Global,
    name: u16,
    content: Bytes,
) -> Result<Rows<RawAttribute>, AllocError>
    ensures { IfOk result (λ attributes. attributes ≡ attribute name content ∷ []) }
{
    let mut attributes = Rows::new(alloc);
    attributes.push(RawAttribute {
        at: 0,
        name,
        content,
    })?;
    Ok(attributes)
}

/// The index of what a field's value is (JVMS 4.7.2).
fn value_index(pool: &mut PoolMaker, value: &FieldValue) -> Result<u16, BodyRefusal>
    ensures { Gives (λ index. index) result pool.old pool.new (used (value_item value.now)) }
{
    match value {
        FieldValue::Int(n) => index_of(pool, Entry::Integer(*n)),
        FieldValue::Long(n) => index_of(pool, Entry::Long(*n)),
        FieldValue::Text(units) => index_of(pool, Entry::Str(units.as_slice())),
    }
}

/// The attributes of a field.
#[tactic(auto, unfolding(crate::specs::Class::constant_value))]
fn constant_value(
    alloc: Global,
    pool: &mut PoolMaker,
    value: Option<&FieldValue>,
) -> Result<Rows<RawAttribute>, BodyRefusal>
    ensures gives { Gives (λ attributes. attributes) result pool.old pool.new (constant_value (option_copied value.entry)) }
    ensures written { IfOk result (IsCounted IsWritableAttribute) }
{
    let Some(value) = value else {
        return Ok(Rows::new(alloc));
    };
    let name = index_of(pool, Entry::Text(b"ConstantValue"))?;
    let index = value_index(pool, value)?;
    let content = Bytes::from_slice(alloc, &index.to_be_bytes())?;
    let attributes = one_attribute(alloc, name, content)?;
    Ok(attributes)
}

/// The index of the class that a line names as the superclass. Refused where there is one.
#[tactic(auto, unfolding(crate::specs::Class::super_line))]
pub fn super_line(pool: &mut PoolMaker, name: &[u8], known: Option<u16>) -> Result<u16, BodyRefusal>
    ensures { Gives (λ index. index) result pool.old pool.new (super_line name.now known) }
{
    match known {
        Some(_) => Err(BodyRefusal::Refused),
        None => index_of(pool, Entry::Class(name)),
    }
}

/// The index of the superclass, which is java/lang/Object where no line named another.
#[tactic(auto, unfolding(crate::specs::Class::superclass))]
pub fn superclass(pool: &mut PoolMaker, known: Option<u16>) -> Result<u16, BodyRefusal>
    ensures { Gives (λ index. index) result pool.old pool.new (superclass known) }
{
    match known {
        Some(index) => Ok(index),
        None => index_of(pool, Entry::Class(b"java/lang/Object")),
    }
}

impl ClassParts {
    ghost use Rattle.std.specs.Prelude.{◌<◌, ◌^◌, length};
    ghost use Rattle.class_write.specs.Writable.{IsWritableMember};
    ghost use Rattle.assembler_bodies.specs.Making.{Finds};
    ghost use Rattle.class_make.specs.Class.{put_interface, put_field, put_method, interface_line, field_line, method_line, has_place};

    /// The class of a class line.
    #[tactic(auto, unfolding(crate::specs::Class::class_line))]
    pub fn new(
        alloc: Global,
        pool: &mut PoolMaker,
        flags: u16,
        name: &[u8],
    ) -> Result<Self, BodyRefusal>
        ensures { Gives (λ class. class) result pool.old pool.new (class_line flags name.now) }
    {
        let this_class = index_of(pool, Entry::Class(name))?;
        Ok(ClassParts {
            flags,
            this_class,
            super_class: None,
            interfaces: Rows::new(alloc),
            fields: Rows::new(alloc),
            methods: Rows::new(alloc),
        })
    }

    #[tactic(auto, unfolding(crate::specs::Class::put_interface))]
    fn put_interface(&mut self, index: u16) -> Result<(), BodyRefusal>
        ensures { Finds (λ _. self.new) result (put_interface index self.old) }
    {
        if !self.fields.is_empty() || !self.methods.is_empty() {
            return Err(BodyRefusal::Refused);
        }
        if self.interfaces.len() >= MOST {
            return Err(BodyRefusal::Refused);
        }
        self.interfaces.push(index)?;
        Ok(())
    }

    /// Names one more interface.
    #[tactic(auto, unfolding(crate::specs::Class::interface_line))]
    pub fn interface(&mut self, pool: &mut PoolMaker, name: &[u8]) -> Result<(), BodyRefusal>
        ensures { Gives (λ _. self.new) result pool.old pool.new (interface_line name.now self.old) }
    {
        let index = index_of(pool, Entry::Class(name))?;
        self.put_interface(index)
    }

    #[tactic(auto, unfolding(crate::specs::Class::put_field))]
    fn put_field(&mut self, field: RawMember) -> Result<(), BodyRefusal>
        requires { IsWritableMember field }
        ensures { Finds (λ _. self.new) result (put_field field self.old) }
    {
        if !self.methods.is_empty() || self.fields.len() >= MOST {
            return Err(BodyRefusal::Refused);
        }
        self.fields.push(field)?;
        Ok(())
    }

    /// Appends a field.
    #[tactic(auto, unfolding(crate::specs::Class::field_line))]
    pub fn field(
        &mut self,
        alloc: Global,
        pool: &mut PoolMaker,
        flags: u16,
        name: &[u8],
        descriptor: &[u8],
        value: Option<&FieldValue>,
    ) -> Result<(), BodyRefusal>
        ensures { Gives (λ _. self.new) result pool.old pool.new (field_line flags name.now descriptor.now (option_copied value.entry) self.old) }
    {
        let name = index_of(pool, Entry::Text(name))?;
        let descriptor = index_of(pool, Entry::Text(descriptor))?;
        let attributes = constant_value(alloc, pool, value)?;
        self.put_field(RawMember {
            at: 0,
            flags,
            name,
            descriptor,
            attributes,
        })
    }

    /// Whether there may be one more method.
    pub fn has_method_place(&self) -> bool
        ensures { result ≡ has_place self.now.methods }
    {
        self.methods.len() < MOST
    }

    /// Appends a method.
    #[tactic(auto, unfolding(crate::specs::Class::put_method))]
    pub fn put_method(&mut self, method: RawMember) -> Result<(), BodyRefusal>
        requires { IsWritableMember method }
        ensures { Finds (λ _. self.new) result (put_method method self.old) }
    {
        if !self.has_method_place() {
            return Err(BodyRefusal::Refused);
        }
        self.methods.push(method)?;
        Ok(())
    }

    /// Appends a method without code.
    #[tactic(auto, unfolding(crate::specs::Class::method_line))]
    pub fn method(
        &mut self,
        alloc: Global,
        pool: &mut PoolMaker,
        flags: u16,
        name: &[u8],
        descriptor: &[u8],
    ) -> Result<(), BodyRefusal>
        ensures { Gives (λ _. self.new) result pool.old pool.new (method_line flags name.now descriptor.now self.old) }
    {
        let name = index_of(pool, Entry::Text(name))?;
        let descriptor = index_of(pool, Entry::Text(descriptor))?;
        self.put_method(RawMember {
            at: 0,
            flags,
            name,
            descriptor,
            attributes: Rows::new(alloc),
        })
    }
}
