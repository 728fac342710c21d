//! Which member a name and a descriptor mean (JVMS SE 8, 5.4.3 and 6.5).
#![tactic(auto)]

mod found;
mod lookup;
mod references;
mod rows_of;
mod source;
mod tables;

pub use found::{Found, ReferenceNumbers};
pub use lookup::MemberLookup;
