//! Entries of the pool that lines name.

ghost use Rattle.assembler_pool.specs.Items.{use_of};
ghost use Rattle.assembler_pool.specs.Uses.{Extends, Makes};
ghost use Rattle.assembler_bodies.specs.Making.{Gives, used};
ghost use Rattle.assembler_bodies.specs.Operands.{item_of};

use crate::refusal::BodyRefusal;
use assembler_pool::{PoolMaker, PoolRefusal};

/// An entry of the pool by what it stands for (JVMS 4.4).
#[derive(Clone, Copy)]
pub enum Entry<'a> {
    /// The bytes of a text.
    Text(&'a [u8]),
    Integer(i32),
    Long(i64),
    /// The name of a class.
    Class(&'a [u8]),
    /// The UTF-16 code units of a string literal.
    Str(&'a [u16]),
    Field {
        class: &'a [u8],
        name: &'a [u8],
        descriptor: &'a [u8],
    },
    Method {
        class: &'a [u8],
        name: &'a [u8],
        descriptor: &'a [u8],
    },
    InterfaceMethod {
        class: &'a [u8],
        name: &'a [u8],
        descriptor: &'a [u8],
    },
}

fn made(pool: &mut PoolMaker, named: Entry<'_>) -> Result<u16, PoolRefusal>
    ensures { Makes result pool.old pool.new (use_of (item_of named.entry)) }
{
    match named {
        Entry::Text(bytes) => pool.utf8(bytes),
        Entry::Integer(value) => pool.integer(value),
        Entry::Long(value) => pool.long(value),
        Entry::Class(name) => pool.class(name),
        Entry::Str(units) => pool.string(units),
        Entry::Field {
            class,
            name,
            descriptor,
        } => pool.field(class, name, descriptor),
        Entry::Method {
            class,
            name,
            descriptor,
        } => pool.method(class, name, descriptor),
        Entry::InterfaceMethod {
            class,
            name,
            descriptor,
        } => pool.interface_method(class, name, descriptor),
    }
}

/// The index of an entry of the pool, which is made where it isn't there. `Refused` comes exactly where a class file
/// has no room for it. After an error all entries that were there keep their indices, and some may have been added.
pub fn index_of(pool: &mut PoolMaker, named: Entry<'_>) -> Result<u16, BodyRefusal>
    ensures gives { Gives (λ index. index) result pool.old pool.new (used (item_of named.entry)) }
    ensures kept { Extends pool.old pool.new }
{
    match made(pool, named) {
        Ok(index) => Ok(index),
        Err(PoolRefusal::Full) => Err(BodyRefusal::Refused),
        Err(PoolRefusal::NoMemory) => Err(BodyRefusal::NoMemory),
    }
}
