//! Where the objects lie that are there as a program begins.

ghost use Rattle.std.specs.Prelude.{◌<◌, ◌^◌};

/// The first place after the class objects, and the first one after all objects at the start.
#[derive(Clone, Copy)]
pub struct StartPlaces {
    pub system_out: u32,
    pub free: u32,
    ghost out_small: { system_out < 2 ^ 29 },
    ghost small: { free < 2 ^ 30 },
}
