//! Reading bytes from the front.

ghost use Rattle.std.specs.Prelude.{◌≡◌, ◌==◌, length, Ok, MatchResult};
ghost use Rattle.code_steps.specs.Operands.{near_target, far_target};
ghost use Rattle.code_steps.specs.Reading.{FailsExactly, GivesExactly, bytes_at, number_at, key_at, target_at};

use crate::fault::{StepFault, StepRefusal};
use byteorder::{BigEndian, ByteOrder};
use std::marker::Model;

/// What is left of the code. Contracts see its bytes.
#[derive(Drop)]
pub(crate) struct Cursor<'a> {
    left: &'a [u8],
}

impl<'a> Model for Cursor<'a> {
    ghost use Rattle.std.specs.Prelude.{List, ℕ};

    ghost Value = { List ℕ };

    ghost view = { λ c. c.left.now };
}

impl<'a> Cursor<'a> {
    /// The front of the bytes.
    pub fn new(bytes: &'a [u8]) -> Self
        ensures { result ≡ bytes.now }
    {
        Cursor { left: bytes }
    }

    /// How many bytes are left.
    pub fn len(&self) -> usize
        ensures { result ≡ length self.now }
    {
        self.left.len()
    }

    /// Whether nothing is left.
    pub fn is_empty(&self) -> bool
        ensures { result ≡ (length self.now == 0) }
    {
        self.left.is_empty()
    }

    /// The next bytes, of the operands of the instruction at this offset.
    pub fn next(&mut self, at: u32, count: usize) -> Result<&'a [u8], StepRefusal>
        ensures { MatchResult result
            (λ bytes. bytes_at at count self.old ≡ Ok (bytes.now, self.new))
            (λ e. FailsExactly e (bytes_at at count self.old)) }
    {
        if self.left.len() < count {
            return Err(StepRefusal::Fault(StepFault::Cut(at)));
        }
        let (front, rest) = self.left.split_at(count);
        self.left = rest;
        Ok(front)
    }

    /// The next byte.
    pub fn u8(&mut self, at: u32) -> Result<u8, StepRefusal>
        ensures { GivesExactly result self.new (number_at at 1 self.old) }
    {
        let bytes = self.next(at, 1)?;
        Ok(bytes[0])
    }

    /// The next number of two bytes.
    pub fn u16(&mut self, at: u32) -> Result<u16, StepRefusal>
        ensures { GivesExactly result self.new (number_at at 2 self.old) }
    {
        let bytes = self.next(at, 2)?;
        Ok(BigEndian::read_u16(bytes))
    }

    /// The next number of four bytes.
    pub fn u32(&mut self, at: u32) -> Result<u32, StepRefusal>
        ensures { GivesExactly result self.new (number_at at 4 self.old) }
    {
        let bytes = self.next(at, 4)?;
        Ok(BigEndian::read_u32(bytes))
    }

    /// The next signed number of four bytes.
    #[tactic(auto, unfolding(crate::specs::Reading::key_at))]
    pub fn i32(&mut self, at: u32) -> Result<i32, StepRefusal>
        ensures { GivesExactly result self.new (key_at at self.old) }
    {
        let number = self.u32(at)?;
        Ok(number.cast_signed())
    }

    /// The target at the distance that the next four bytes are.
    #[tactic(auto, unfolding(crate::specs::Reading::target_at))]
    pub fn target(&mut self, at: u32) -> Result<i64, StepRefusal>
        ensures { GivesExactly result self.new (target_at at self.old) }
    {
        let distance = self.u32(at)?;
        Ok(far_target(at, distance))
    }
}

/// The target at a signed distance of four bytes.
pub(crate) fn far_target(at: u32, distance: u32) -> i64
    ensures { result ≡ far_target at distance }
{
    let far = i64::from(distance.cast_signed());
    i64::from(at) + far
}

/// The target at a signed distance of two bytes.
pub(crate) fn near_target(at: u32, distance: u16) -> i64
    ensures { result ≡ near_target at distance }
{
    let distance = i64::from(distance.cast_signed());
    i64::from(at) + distance
}
