//! The types of names.

ghost use Rattle.std.specs.Prelude.{◌≡◌, IfOk, option_and_then, filter_map};
ghost use Rattle.class_names.specs.Shape.{base_of, kind_of};
ghost use Rattle.class_names.specs.Kinds.{field_kind};
ghost use Rattle.link_rules.specs.Names.{program_names, class_type, type_named, element_type_of, base_type, value_type};
ghost use Rattle.named_types.specs.Methods.{method_type};

use crate::descriptors::{is_array_name, words_of_types};
use crate::others::ClassNames;
use crate::pool_names::names_of;
use class_names::{BaseShape, KindShape, Parameters, field_shape, method_shape};
use class_supers::Supers;
use code_decode::ClassUnit;
use link_types::{ElementType, MethodType, ObjectType, ValueType};
use rows::Rows;
use std::alloc::{AllocError, Global};
use std::marker::Model;

/// What the names in the files of a program stand for as types. Contracts see the files.
#[derive(Drop)]
pub struct NamedTypes<'a, 'b> {
    supers: &'a Supers<'b>,
    others: ClassNames<'b>,
}

impl<'a, 'b> Model for NamedTypes<'a, 'b> {
    ghost use Rattle.std.specs.Prelude.{List};
    ghost use Rattle.code_decode.specs.declared.code.ClassUnit.{ClassUnit};
    ghost use Rattle.named_types.specs.Others.{AreNames, names_in};

    ghost Value = { List ClassUnit };

    ghost view = { λ t. t.supers.now };

    ghost invariant = { λ t. AreNames t.others (names_in t.supers.now) };
}

impl<'a, 'b> NamedTypes<'a, 'b> {
    /// Gives each class name that a file has a number. One look at each text. It fails only when memory runs out.
    pub fn new(alloc: Global, supers: &'a Supers<'b>) -> Result<Self, AllocError>
        ensures { IfOk result (λ types. types ≡ supers.now) }
    {
        let others = names_of(alloc, supers.units())?;
        Ok(NamedTypes { supers, others })
    }

    /// The files of the program.
    pub fn units(&self) -> &'b [ClassUnit]
        ensures { result.now ≡ self.now }
    {
        self.supers.units()
    }

    /// The type of the objects of the class of a name. A search.
    pub fn class_type(&self, name: &[u8]) -> ObjectType
        ensures { result ≡ class_type (program_names self.now) name.now }
    {
        match self.supers.class_number(name) {
            0 => ObjectType::Other(self.others.place(name)),
            number => ObjectType::Class(number),
        }
    }

    /// The type of the elements of a kind. A search.
    pub fn element_type(&self, base: BaseShape<'_>) -> ElementType
        ensures { result ≡ element_type_of (program_names self.now) (base_of base.entry) }
    {
        match base {
            BaseShape::Int => ElementType::Int,
            BaseShape::Byte => ElementType::Byte,
            BaseShape::Char => ElementType::Char,
            BaseShape::Short => ElementType::Short,
            BaseShape::Boolean => ElementType::Boolean,
            BaseShape::Long => ElementType::Long,
            BaseShape::Float => ElementType::Float,
            BaseShape::Double => ElementType::Double,
            BaseShape::Class(name) => match self.supers.class_number(name) {
                0 => ElementType::Other(self.others.place(name)),
                number => ElementType::Class(number),
            },
        }
    }

    fn base_type(&self, base: BaseShape<'_>) -> Option<ValueType>
        ensures { result ≡ base_type (program_names self.now) (base_of base.entry) }
    {
        match base {
            BaseShape::Int => Some(ValueType::Int),
            BaseShape::Byte => Some(ValueType::Byte),
            BaseShape::Char => Some(ValueType::Char),
            BaseShape::Short => Some(ValueType::Short),
            BaseShape::Boolean => Some(ValueType::Boolean),
            BaseShape::Long => Some(ValueType::Long),
            BaseShape::Float | BaseShape::Double => None,
            BaseShape::Class(name) => Some(ValueType::Object(self.class_type(name))),
        }
    }

    /// The type of a value of a kind, or `None` of a float or a double. A search.
    pub fn value_type(&self, shape: KindShape<'_>) -> Option<ValueType>
        ensures { result ≡ value_type (program_names self.now) (kind_of shape.entry) }
    {
        if shape.dimensions == 0 {
            return self.base_type(shape.base);
        }
        let elements = self.element_type(shape.base);
        Some(ValueType::Object(ObjectType::Array(shape.dimensions, elements)))
    }

    /// The type that a Class entry of a name stands for (JVMS 4.4.1). A search.
    pub fn named_type(&self, name: &[u8]) -> ObjectType
        ensures { result ≡ type_named (program_names self.now) name.now }
    {
        if !is_array_name(name) {
            return self.class_type(name);
        }
        match field_shape(name) {
            Some(shape) if shape.dimensions > 0 => {
                ObjectType::Array(shape.dimensions, self.element_type(shape.base))
            }
            _ => self.class_type(name),
        }
    }

    /// The type of a field by its descriptor (JVMS 4.3.2), or `None` of a float or a double, or where the text is no
    /// such descriptor. A search.
    pub fn field_type(&self, descriptor: &[u8]) -> Option<ValueType>
        ensures { result ≡ option_and_then (value_type (program_names self.now)) (field_kind descriptor.now) }
    {
        self.value_type(field_shape(descriptor)?)
    }

    fn value_types(
        &self,
        alloc: Global,
        kinds: Parameters<'_>,
    ) -> Result<Rows<ValueType>, AllocError>
        ensures { IfOk result (λ types. types ≡ filter_map (value_type (program_names self.now)) kinds.entry) }
    {
        let mut types = Rows::new(alloc);
        for kind in kinds {
            if let Some(value) = self.value_type(kind) {
                types.push(value)?;
            }
        }
        Ok(types)
    }

    /// The parameters and the result of a method by its descriptor (JVMS 4.3.3), without those that are float or
    /// double; nothing of them where the text is no such descriptor. A search for each.
    pub fn method_type(&self, alloc: Global, descriptor: &[u8]) -> Result<MethodType, AllocError>
        ensures { IfOk result (λ kind. kind ≡ method_type (program_names self.now) descriptor.now) }
    {
        let Some(shape) = method_shape(descriptor) else {
            return Ok(MethodType {
                parameters: Rows::new(alloc),
                result: None,
                words: 0,
            });
        };
        let parameters = self.value_types(alloc, shape.parameters)?;
        let words = words_of_types(parameters.as_slice());
        Ok(MethodType {
            parameters,
            result: match shape.returned {
                Some(kind) => self.value_type(kind),
                None => None,
            },
            words,
        })
    }
}
