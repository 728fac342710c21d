//! The constant pool of a class file (JVMS SE 8, 4.4): its rules, what is at its indices, and what its texts may be
//! used as.
//!
//! [`check_pool`] checks a pool entry by entry. [`utf8_at`], [`class_name_at`], [`name_and_type_at`] and
//! [`reference_at`] say what is at an index. [`Pool`] has found once for each text what it may be used as.
#![tactic(auto)]

mod laws;
mod lookup;
mod pool;
mod refusal;
mod text_uses;

pub use laws::what_stands_there_is_found;
pub use lookup::{
    Reference, class_name_at, is_class_at, is_class_entry_at, is_text_at, is_utf8_at,
    name_and_type_at, reference_at, utf8_at,
};
pub use pool::check_pool;
pub use refusal::ReadRefusal;
pub use text_uses::{Pool, TextUse};
