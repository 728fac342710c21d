//! Descriptors of innermost elements.

use link_types::ElementType;
use rows::Bytes;

/// A type of innermost elements, and its descriptor.
#[derive(Drop)]
pub struct BaseText {
    pub text: Bytes,
    pub base: ElementType,
}
