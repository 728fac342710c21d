//! Arrays by dimensions and bases.

/// An array with 1 to 255 dimensions, and the place of the type of its innermost elements among the bases.
#[derive(Clone, Copy)]
pub struct ArrayPlace {
    pub dimensions: u8,
    pub base: u32,
}
