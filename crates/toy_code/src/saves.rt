//! The saved places of a toy thread, the last one first.

ghost use Rattle.std.specs.Prelude.{◌≡◌, ◌==◌, [], ◌∷◌, OnOk, OnErr, MatchOption};
ghost use Rattle.std.specs.List.{list_any};

use crate::ToyPlace;
use std::alloc::{AllocError, Global};
use std::marker::Model;

/// The saved places of a thread, the last one first.
#[derive(Drop)]
pub struct ToySaves {
    places: Vec<ToyPlace>,
}

impl Model for ToySaves {
    ghost use Rattle.std.specs.Prelude.{List, reverse};
    ghost use Rattle.toy_code.specs.declared.script.ToyPlace.{ToyPlace};

    ghost Value = { List ToyPlace };

    ghost view = { λ saves. reverse saves.places.items };
}

impl ToySaves {
    /// No saves. Takes no memory.
    pub fn new(alloc: Global) -> Self
        ensures { result ≡ [] }
    {
        ToySaves {
            places: Vec::new(alloc),
        }
    }

    /// Saves a place. After an error the saves are as before.
    pub fn push(&mut self, place: ToyPlace) -> Result<(), AllocError>
        ensures ok { OnOk result (self.new ≡ place ∷ self.old) }
        ensures err { OnErr result (self.new ≡ self.old) }
    {
        self.places.push(place)?;
        Ok(())
    }

    /// Takes the last save off, if there is one.
    pub fn pop(&mut self) -> Option<ToyPlace>
        ensures { MatchOption result (self.old ≡ []) (λ place. self.old ≡ place ∷ self.new) }
    {
        self.places.pop()
    }

    /// Whether one of the places has this number of frames.
    #[tactic(auto, using(op_core::proofs::ScriptLemmas::list_any_reverse))]
    pub fn any_with_frames(&self, frames: u32) -> bool
        ensures { result ≡ list_any (λ place. place.frames == frames) self.now }
    {
        has_frames(self.places.as_slice(), frames)
    }
}

fn has_frames(places: &[ToyPlace], frames: u32) -> bool
    ensures { result ≡ list_any (λ place. place.frames == frames) places.now }
{
    places.iter().any(|place| place.frames == frames)
}
