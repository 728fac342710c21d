//! Names, descriptors and texts of class files (JVMS SE 8, 4.2, 4.3 and 4.4.7).
//!
//! [`is_class_name`], [`is_member_name`] and [`is_method_name`] test names. [`descriptor_of`] reads the
//! descriptor of a field or a method. [`field_shape`] and [`method_shape`] read one without taking memory, and
//! [`kind_shape`] the kind at its front; [`is_field_descriptor`], [`is_array_descriptor`],
//! [`is_method_descriptor`] and [`parameter_size`] say what one is.
//! [`is_modified_utf8`] tests the bytes of a constant, [`decode_text`] gives their text, and [`encoded`] gives the
//! bytes of code units.
#![tactic(auto)]

mod descriptor;
mod kind;
mod laws;
mod modified_utf8;
mod names;
mod parameters;
mod shape;
mod shortest_forms;

pub use descriptor::{
    MethodShape, descriptor_of, field_shape, is_array_descriptor, is_field_descriptor,
    is_method_descriptor, method_shape, parameter_size,
};
pub use kind::{BaseKind, Descriptor, Kind, NameRefusal, ParameterSize};
pub use laws::{
    bytes_have_one_descriptor, bytes_have_one_text, kinds_are_described,
    shortest_forms_have_their_units, texts_are_spelled,
};
pub use modified_utf8::{decode_text, is_modified_utf8};
pub use names::{is_class_name, is_member_name, is_method_name};
pub use parameters::Parameters;
pub use shape::{BaseShape, KindShape, kind_shape};
pub use shortest_forms::{encoded, put_unit};
