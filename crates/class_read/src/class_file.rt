//! Class files as they are read (JVMS 4.1).

use class_walk::{Constant, RawHandler};
use rows::{Bytes, Rows};

/// A class file: all that is kept of it.
#[derive(Drop)]
pub struct ClassFile {
    /// The major version: 50, 51 or 52.
    pub major: u16,
    pub flags: u16,
    /// The index of the Class entry of this class.
    pub this_class: u16,
    /// The index of the Class entry of the superclass. `java/lang/Object` may have 0.
    pub super_class: u16,
    /// The indices of the Class entries of the interfaces.
    pub interfaces: Rows<u16>,
    /// The constant pool by the file's own indices: `Gap` is at 0 and after each `Long` and `Double`, except after one
    /// at the last index.
    pub pool: Rows<Constant>,
    pub fields: Rows<Member>,
    pub methods: Rows<Member>,
}

/// A field or a method (JVMS 4.5, 4.6).
#[derive(Drop)]
pub struct Member {
    pub flags: u16,
    /// The index of the name.
    pub name: u16,
    /// The index of the descriptor.
    pub descriptor: u16,
    /// The index of the constant that a static field begins with (JVMS 4.7.2), where it has one.
    pub constant: Option<u16>,
    /// The code of a method that is neither abstract nor native.
    pub code: Option<CodeAttribute>,
}

/// The code of a method (JVMS 4.7.3).
#[derive(Drop)]
pub struct CodeAttribute {
    pub max_stack: u16,
    pub max_locals: u16,
    /// The instructions.
    pub bytes: Bytes,
    pub handlers: Rows<RawHandler>,
    /// The content of the StackMapTable (JVMS 4.7.4), or no bytes where there is none.
    pub maps: Bytes,
}
