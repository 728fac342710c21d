//! What goes to the standard output.

ghost use Rattle.std.specs.Prelude.{◌≡◌, ◌≤◌, length};
ghost use Rattle.program_answers.specs.Output.{journal_pieces};

use op_core::{Event, Undo};
use rows::{Bytes, Rows};
use std::alloc::Global;
use std::marker::Model;

/// The pieces, or what they are made of as they are put.
#[derive(Drop)]
pub(crate) enum Pieces {
    Made(Rows<Bytes>),
    Journal {
        alloc: Global,
        events: Rows<Event>,
        undos: Rows<Undo>,
    },
}

/// What goes to the standard output, a put for each piece: lines with their ends, or bytes in one piece. Contracts see the
/// list of the pieces.
#[derive(Drop)]
pub struct Output {
    pub(crate) pieces: Pieces,
}

impl Model for Output {
    ghost use Rattle.std.specs.Prelude.{List, ℕ};
    ghost use Rattle.program_answers.specs.Output.{pieces_of, HasRoom};

    ghost Value = { List (List ℕ) };

    ghost view = { λ output. pieces_of output.pieces };

    ghost invariant = { λ output. HasRoom output.pieces };
}

impl Output {
    /// These pieces, without taking memory.
    pub fn from_pieces(pieces: Rows<Bytes>) -> Self
        ensures { result ≡ pieces }
    {
        Output {
            pieces: Pieces::Made(pieces),
        }
    }

    /// The lines of a journal of version 2 of these events and undos, each undo before the event whose number it has. They
    /// are made as they are put. Takes no memory.
    pub fn from_journal(alloc: Global, events: Rows<Event>, undos: Rows<Undo>) -> Self
        requires { length events ≤ 4194304 }
        ensures { result ≡ journal_pieces events undos }
    {
        Output {
            pieces: Pieces::Journal {
                alloc,
                events,
                undos,
            },
        }
    }
}
