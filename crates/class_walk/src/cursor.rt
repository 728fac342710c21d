//! Reading bytes from the front.

ghost use Rattle.std.specs.Prelude.{◌≡◌, ◌<◌, ◌^◌, length, Ok, MatchResult};
ghost use Rattle.class_walk.specs.Reading.{FailsExactly, GivesAndLeaves, GivesExactly, PassesTo, number_at, bytes_at, start_of, end_at};

use crate::refusal::{WalkFault, WalkRefusal};
use byteorder::{BigEndian, ByteOrder};
use rows::Bytes;
use std::alloc::Global;
use std::marker::Model;

/// What is left of the bytes, and how many come before it.
#[derive(Drop)]
pub struct Cursor<'a> {
    at: u32,
    left: &'a [u8],
}

impl<'a> Model for Cursor<'a> {
    ghost use Rattle.std.specs.Prelude.{◌+◌, ◌<◌, ◌^◌, length};
    ghost use Rattle.class_walk.specs.Place.{Place};

    ghost Value = { Place };

    ghost view = { λ c. record { at = c.at; left = c.left.now } };

    ghost invariant = { λ c. c.at + length c.left.now < 2 ^ 32 };
}

impl<'a> Cursor<'a> {
    /// The front of the bytes.
    pub fn new(bytes: &'a [u8]) -> Self
        requires { length bytes.now < 2 ^ 32 }
        ensures { result ≡ start_of bytes.now }
    {
        Cursor { at: 0, left: bytes }
    }

    /// How many bytes come before the cursor.
    pub fn place(&self) -> u32
        ensures { result ≡ self.now.at }
    {
        self.at
    }

    /// Nothing is left.
    pub fn end(&self) -> Result<(), WalkRefusal>
        ensures { PassesTo result self.now (end_at self.now) }
    {
        if self.left.is_empty() {
            Ok(())
        } else {
            Err(WalkRefusal::Fault(WalkFault::Trailing(self.at)))
        }
    }

    /// The next bytes.
    pub fn next(&mut self, count: usize) -> Result<&'a [u8], WalkRefusal>
        ensures { MatchResult result
            (λ bytes. bytes_at count self.old ≡ Ok (bytes.now, self.new))
            (λ e. FailsExactly e (bytes_at count self.old)) }
    {
        if self.left.len() < count {
            let length = self.at + self.left.len() as u32;
            return Err(WalkRefusal::Fault(WalkFault::Truncated(length)));
        }
        let (front, rest) = self.left.split_at(count);
        self.at += count as u32;
        self.left = rest;
        Ok(front)
    }

    /// A copy of the next bytes.
    pub fn bytes(&mut self, alloc: Global, count: u32) -> Result<Bytes, WalkRefusal>
        ensures { GivesAndLeaves result self.new (bytes_at count self.old) }
    {
        let bytes = self.next(count as usize)?;
        Ok(Bytes::from_slice(alloc, bytes)?)
    }

    /// The next byte.
    pub fn u8(&mut self) -> Result<u8, WalkRefusal>
        ensures { GivesExactly result self.new (number_at 1 self.old) }
    {
        let bytes = self.next(1)?;
        Ok(bytes[0])
    }

    /// The next number of two bytes.
    pub fn u16(&mut self) -> Result<u16, WalkRefusal>
        ensures { GivesExactly result self.new (number_at 2 self.old) }
    {
        let bytes = self.next(2)?;
        Ok(BigEndian::read_u16(bytes))
    }

    /// The next number of four bytes.
    pub fn u32(&mut self) -> Result<u32, WalkRefusal>
        ensures { GivesExactly result self.new (number_at 4 self.old) }
    {
        let bytes = self.next(4)?;
        Ok(BigEndian::read_u32(bytes))
    }

    /// The next number of eight bytes.
    pub fn u64(&mut self) -> Result<u64, WalkRefusal>
        ensures { GivesExactly result self.new (number_at 8 self.old) }
    {
        let bytes = self.next(8)?;
        Ok(BigEndian::read_u64(bytes))
    }
}
