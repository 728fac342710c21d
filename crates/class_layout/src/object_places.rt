//! Class objects one after another.

ghost use Rattle.std.specs.Prelude.{◌<◌, ◌^◌};

/// The class objects by the numbers of their classes, from 1.
#[derive(Drop)]
pub struct ObjectPlaces {
    pub objects: Vec<u32>,
    /// The first place after them.
    pub behind: u32,
    ghost small: { behind < 2 ^ 28 },
}
