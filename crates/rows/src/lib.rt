//! Owned lists that contracts see as plain lists.
//!
//! A `Vec` in a contract has a capacity and a place in memory besides its items. [`Rows`], [`Bytes`] and
//! [`Text`] hide both, so a struct with such fields can be compared with a value of a definition.
#![tactic(auto)]

mod bytes;
mod items;
mod text;

pub use bytes::Bytes;
pub use items::Rows;
pub use text::Text;
