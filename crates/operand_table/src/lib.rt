//! What the indices of the constant pools of a linked program stand for (JVMS SE 8, 5.1 and 5.4.3).
#![tactic(auto)]

mod entries;
mod field_types;
mod fields;
mod methods;
mod sources;
mod table;

pub use array_classes::ArrayClasses;
pub use field_types::FieldTypes;
pub use sources::Sources;
pub use table::OperandTable;
