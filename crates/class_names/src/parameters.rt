//! The parameters of a method descriptor, one by one.

use crate::shape::{KindShape, kind_shape};
use std::marker::Model;

/// The kinds of the parameters that are ahead. Contracts see the list of them. Takes no memory.
#[derive(Drop)]
pub struct Parameters<'a> {
    bytes: &'a [u8],
}

impl<'a> Model for Parameters<'a> {
    ghost use Rattle.std.specs.Prelude.{List};
    ghost use Rattle.class_names.specs.declared.kind.Kind.{Kind};
    ghost use Rattle.class_names.specs.Kinds.{kinds_at};

    ghost Value = { List Kind };

    ghost view = { λ p. (kinds_at p.bytes.now).0 };
}

impl<'a> Iterator for Parameters<'a> {
    ghost use Rattle.std.specs.Iterator.{YieldsFirstBy, item_count};
    ghost use Rattle.class_names.specs.Shape.{kind_of};

    type Item = KindShape<'a>;

    ghost next_gives = { YieldsFirstBy kind_of (λ p. p) };

    ghost remaining = { item_count (λ p. p) };

    fn next(&mut self) -> Option<KindShape<'a>> {
        let (shape, rest) = kind_shape(self.bytes)?;
        self.bytes = rest;
        Some(shape)
    }
}

impl<'a> Parameters<'a> {
    ghost use Rattle.std.specs.Prelude.{◌≡◌};
    ghost use Rattle.class_names.specs.Kinds.{kinds_at};

    /// The kinds at the front of the bytes, one after another.
    pub(crate) fn new(bytes: &'a [u8]) -> Self
        ensures { result ≡ (kinds_at bytes.entry.now).0 }
    {
        Parameters { bytes }
    }
}
