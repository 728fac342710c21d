//! What the indices of a constant pool stand for (JVMS 5.1, 5.4.3).

use crate::types::{ObjectType, ValueType};

/// A method of the program.
#[derive(Clone, Copy)]
pub struct MethodId {
    /// The number of the class that declares it.
    pub class: u32,
    /// Its place among the methods of that class, from 0.
    pub method: u16,
}

/// A class, interface or array class that a Class entry names.
#[derive(Clone, Copy)]
pub struct ClassOperand {
    /// The type of a reference to its objects.
    pub kind: ObjectType,
    /// Its class number, where it has one.
    pub number: Option<u32>,
    /// The class number of the arrays that have it as the type of their elements, where that has one.
    pub array: Option<u32>,
}

/// A field that a Field entry names and that was found.
#[derive(Clone, Copy)]
pub struct FieldOperand {
    /// The class that the entry names, which may inherit the field.
    pub named: ObjectType,
    /// The number of the class that declares the field.
    pub owner: u32,
    pub is_static: bool,
    pub kind: ValueType,
    /// The place of its first word: in the class object of its owner where it is static, and else in each object. A
    /// long takes two words, its low half first.
    pub place: u32,
}

/// A method that a Method or InterfaceMethod entry names and that was found.
#[derive(Clone, Copy)]
pub struct MethodOperand {
    /// The class that the entry names, which may inherit the method.
    pub named: ObjectType,
    /// The method that look-up finds.
    pub method: MethodId,
    /// The method that invokespecial calls (JVMS 6.5): `None` where look-up finds a static method, or selection none.
    pub special: Option<MethodId>,
    /// Whether its name is `<init>`.
    pub constructs: bool,
}

/// What an index of a class's constant pool stands for.
#[derive(Clone, Copy)]
pub enum Operand {
    /// Nothing that an instruction can use.
    Nothing,
    Int(i32),
    Long(i64),
    /// A string literal, by its number.
    Text(u32),
    Class(ClassOperand),
    /// The field `out` of java/lang/System, which has no word.
    Out,
    Field(FieldOperand),
    Method(MethodOperand),
}

/// The words of a class.
#[derive(Clone, Copy)]
pub struct Layout {
    /// The words of an object, without its header and monitor: those of its superclasses, then its own. 0 for an array.
    pub instance_words: u32,
    /// The words of the static fields.
    pub static_words: u32,
    /// The reference of the class object.
    pub object: u32,
}
