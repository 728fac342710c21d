//! What the operands of a program are made of.

use crate::field_types::FieldTypes;
use array_classes::ArrayClasses;
use class_layout::ClassLayout;
use member_lookup::MemberLookup;
use pool_types::PoolTypes;
use string_literals::StringLiterals;

/// What is known of a program, from which its operands are made. Of which program it is known is said by
/// `AreSourcesOf`.
#[derive(Clone, Copy)]
pub struct Sources<'a, 'b> {
    /// Its fields and methods by name and descriptor.
    pub lookup: &'a MemberLookup<'b>,
    /// The types of Class entries.
    pub types: &'a PoolTypes,
    /// The types of fields by their descriptors.
    pub fields: &'a FieldTypes,
    /// The words of classes.
    pub layout: &'a ClassLayout,
    /// The numbers of string literals.
    pub literals: &'a StringLiterals,
    /// The numbers of array classes.
    pub arrays: &'a ArrayClasses,
}
