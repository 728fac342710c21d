//! Where the class objects lie.

ghost use Rattle.std.specs.Prelude.{◌≡◌, ◌<◌, ◌≤◌, ◌^◌, IfOk, All, length};
ghost use Rattle.class_layout.specs.Objects.{ArePlacesOf};

use crate::object_places::ObjectPlaces;
use crate::row::ClassRow;
use std::alloc::{AllocError, Global};

/// Puts the class objects one after another, from place 1: each has a header, a monitor and its static words.
pub fn place_objects(alloc: Global, rows: &[ClassRow]) -> Result<ObjectPlaces, AllocError>
    requires few { length rows.now < 2 ^ 11 }
    requires small { All (λ r. r.static_words < 2 ^ 17) rows.now }
    ensures { IfOk result (λ places. ArePlacesOf rows.now places) }
{
    let mut objects = Vec::new(alloc);
    let mut behind = 1;
    for row in rows {
        objects.push(behind)?;
        behind += 2 + row.static_words;
    }
    Ok(ObjectPlaces { objects, behind })
}
