//! A class file as its layout has it: nothing in it has been looked up or compared.

use rows::{Bytes, Rows};

/// An entry of the constant pool (JVMS 4.4).
#[derive(Drop)]
pub enum Constant {
    /// No entry: index 0, and the index after a `Long` or a `Double`.
    Gap,
    /// A text in modified UTF-8, as its bytes.
    Utf8(Bytes),
    Integer(i32),
    /// The bits of a `float`.
    Float(u32),
    Long(i64),
    /// The bits of a `double`.
    Double(u64),
    /// The index of the class's name.
    Class(u16),
    /// The index of the text of a string literal.
    Str(u16),
    /// The indices of a field's class and of its name and descriptor.
    Field(u16, u16),
    /// The indices of a method's class and of its name and descriptor.
    Method(u16, u16),
    /// The indices of an interface method's interface and of its name and descriptor.
    IfaceMethod(u16, u16),
    /// The indices of a name and of a descriptor.
    Pair(u16, u16),
    /// The kind of a method handle, and the index of what it stands for.
    Handle(u8, u16),
    /// The index of a method type's descriptor.
    MethodType(u16),
    /// The number of a bootstrap method, and the index of a name and descriptor.
    Dynamic(u16, u16),
}

impl Constant {
    ghost use Rattle.std.specs.Prelude.{◌≡◌};
    ghost use Rattle.class_walk.specs.Layout.{is_wide};

    /// Whether it takes two indices of the pool, as a `Long` or a `Double` does (JVMS 4.4.5).
    pub fn is_wide(&self) -> bool
        ensures { result ≡ is_wide self.now }
    {
        matches!(self, Constant::Long(_) | Constant::Double(_))
    }
}

/// An attribute (JVMS 4.7).
#[derive(Drop)]
pub struct RawAttribute {
    /// The place of the attribute: how many bytes come before the first byte of its name.
    pub at: u32,
    pub name: u16,
    pub content: Bytes,
}

/// A field or a method (JVMS 4.5, 4.6).
#[derive(Drop)]
pub struct RawMember {
    /// The place of the member in the file: how many bytes come before its flags.
    pub at: u32,
    pub flags: u16,
    pub name: u16,
    pub descriptor: u16,
    pub attributes: Rows<RawAttribute>,
}

/// A class file (JVMS 4.1).
#[derive(Drop)]
pub struct RawClass {
    pub minor: u16,
    pub major: u16,
    /// The constant pool by the file's own indices: `Gap` is at 0 and after each `Long` and `Double`, except after one
    /// at the last index.
    pub pool: Rows<Constant>,
    pub flags: u16,
    pub this_class: u16,
    pub super_class: u16,
    pub interfaces: Rows<u16>,
    pub fields: Rows<RawMember>,
    pub methods: Rows<RawMember>,
    pub attributes: Rows<RawAttribute>,
}

/// An entry of an exception table (JVMS 4.7.3).
#[derive(Clone, Copy)]
pub struct RawHandler {
    pub from: u16,
    pub to: u16,
    pub at: u16,
    pub kind: u16,
}

/// The content of a Code attribute (JVMS 4.7.3).
#[derive(Drop)]
pub struct RawCode {
    pub max_stack: u16,
    pub max_locals: u16,
    /// The instructions.
    pub bytes: Bytes,
    pub handlers: Rows<RawHandler>,
    /// The attributes, with their places in this content.
    pub attributes: Rows<RawAttribute>,
}
