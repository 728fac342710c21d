//! Reading bytes from the front.

ghost use Rattle.std.specs.Prelude.{◌≡◌, ◌==◌, length};
ghost use Rattle.code_frames.specs.Reading.{GivesExactly, unsigned_at};

use crate::refusal::Fault;
use byteorder::{BigEndian, ByteOrder};
use std::marker::Model;

/// What is left of the bytes.
#[derive(Drop)]
pub struct Cursor<'a> {
    left: &'a [u8],
}

impl<'a> Model for Cursor<'a> {
    ghost use Rattle.std.specs.Prelude.{List, ℕ};

    ghost Value = { List ℕ };

    ghost view = { λ c. c.left.now };
}

impl<'a> Cursor<'a> {
    /// The front of the bytes.
    pub fn new(bytes: &'a [u8]) -> Self
        ensures { result ≡ bytes.now }
    {
        Cursor { left: bytes }
    }

    /// Whether nothing is left.
    pub fn is_empty(&self) -> bool
        ensures { result ≡ (length self.now == 0) }
    {
        self.left.is_empty()
    }

    /// The next byte.
    pub fn u8(&mut self) -> Result<u8, Fault>
        ensures { GivesExactly result self.new (unsigned_at 1 self.old) }
    {
        if self.left.is_empty() {
            return Err(Fault::Malformed);
        }
        let (front, rest) = self.left.split_at(1);
        self.left = rest;
        Ok(front[0])
    }

    /// The next number of two bytes.
    pub fn u16(&mut self) -> Result<u16, Fault>
        ensures { GivesExactly result self.new (unsigned_at 2 self.old) }
    {
        if self.left.len() < 2 {
            return Err(Fault::Malformed);
        }
        let (front, rest) = self.left.split_at(2);
        self.left = rest;
        Ok(BigEndian::read_u16(front))
    }
}
