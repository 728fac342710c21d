//! Pieces of bytes in order, kept one by one and joined.

ghost use Rattle.std.specs.Prelude.{◌≡◌, [], ◌∷◌, ◌++◌, OnOk, OnErr};
ghost use Rattle.std.specs.List.{concat};

use std::alloc::{AllocError, Global};
use std::marker::Model;

/// Pieces in order, kept one by one and joined. Contracts see the list of them.
#[derive(Drop)]
pub struct Pieces {
    pieces: Vec<Vec<u8>>,
    joined: Vec<u8>,
    alloc: Global,
}

impl Model for Pieces {
    ghost use Rattle.std.specs.Prelude.{◌≡◌, List, ℕ, map};
    ghost use Rattle.std.specs.List.{concat};

    ghost Value = { List (List ℕ) };

    ghost view = { λ p. map (λ piece. piece.items) p.pieces.items };

    ghost invariant = { λ p. p.joined.items ≡ concat (map (λ piece. piece.items) p.pieces.items) };
}

impl Pieces {
    /// No pieces. Takes no memory.
    pub fn new(alloc: Global) -> Self
        ensures { result ≡ [] }
    {
        Pieces {
            pieces: Vec::new(alloc),
            joined: Vec::new(alloc),
            alloc,
        }
    }

    /// The bytes of all pieces.
    pub fn joined(&self) -> &[u8]
        ensures { result.now ≡ concat self.now }
    {
        self.joined.as_slice()
    }

    /// Puts a piece at the end. Without memory for it the pieces stay as they were.
    pub fn push(&mut self, piece: &[u8]) -> Result<(), AllocError>
        ensures ok { OnOk result (self.new ≡ self.old ++ piece.now ∷ []) }
        ensures err { OnErr result (self.new ≡ self.old) }
    {
        let kept = Vec::from_slice(self.alloc, piece)?;
        let before = self.joined.len();
        self.joined.extend_from_slice(piece)?;
        match self.pieces.push(kept) {
            Ok(()) => Ok(()),
            Err(_) => {
                self.joined.truncate(before);
                Err(AllocError)
            }
        }
    }
}
