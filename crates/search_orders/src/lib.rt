//! Numbers in the order in which they are looked through, each once, with their ranks.
#![tactic(auto)]

ghost use Rattle.std.specs.Prelude.{◌≡◌, ℕ, ◌+◌, ◌<◌, [], OnOk, IfOk, length, slice_index};
ghost use Rattle.search_orders.specs.Orders.{put, put_all, rank, HasRanks};

use std::alloc::{AllocError, Global};
use std::marker::Model;

/// Numbers in order, each once. Contracts see them as a list.
#[derive(Drop)]
pub struct Order {
    numbers: Vec<u32>,
    ranks: Vec<u32>,
}

impl Model for Order {
    ghost use Rattle.std.specs.Prelude.{List, ℕ};
    ghost use Rattle.search_orders.specs.Orders.{HasRanks};

    ghost Value = { List ℕ };

    ghost view = { λ o. o.numbers.items };

    ghost invariant = { λ o. HasRanks o.numbers.items o.ranks.items };
}

/// Makes the ranks reach a number.
fn reach(ranks: &mut Vec<u32>, number: u32) -> Result<(), AllocError>
    ensures ranks { (n : ℕ) → slice_index ranks.new.items n ≡ slice_index ranks.old.items n }
    ensures number { OnOk result (number < length ranks.new.items) }
{
    for _ in ranks.len()..number as usize + 1 {
        ranks.push(0)?;
    }
    Ok(())
}

/// Puts a number at the end that has no rank, and gives it its rank.
fn put_last(numbers: &mut Vec<u32>, ranks: &mut Vec<u32>, number: u32) -> Result<(), AllocError>
    requires ranks { HasRanks numbers.old.items ranks.old.items }
    requires new { rank numbers.old.items number ≡ 0 }
    ensures ranks { HasRanks numbers.new.items ranks.new.items }
    ensures put { OnOk result (numbers.new.items ≡ put numbers.old.items number) }
{
    let count = numbers.len();
    if count >= u32::MAX as usize {
        return Err(AllocError);
    }
    reach(ranks, number)?;
    numbers.push(number)?;
    ranks[number as usize] = count as u32 + 1;
    Ok(())
}

impl Order {
    /// No numbers. Takes no memory.
    pub fn new(alloc: Global) -> Self
        ensures { result ≡ [] }
    {
        Order {
            numbers: Vec::new(alloc),
            ranks: Vec::new(alloc),
        }
    }

    /// The numbers in their order.
    pub fn numbers(&self) -> &[u32]
        ensures { result.now ≡ self.now }
    {
        &self.numbers
    }

    /// The place of a number, from 1; 0 where it isn't there. Takes no time to speak of.
    pub fn rank(&self, number: u32) -> u32
        ensures { result ≡ rank self.now number }
    {
        self.ranks.get(number as usize).copied().unwrap_or(0)
    }

    /// Puts a number at the end, if it isn't there.
    pub fn put(&mut self, number: u32) -> Result<(), AllocError>
        ensures { OnOk result (self.new ≡ put self.old number) }
    {
        if self.rank(number) != 0 {
            return Ok(());
        }
        put_last(&mut self.numbers, &mut self.ranks, number)
    }

    /// Puts the numbers of a slice at the end that aren't there, in their order.
    pub fn put_all(&mut self, numbers: &[u32]) -> Result<(), AllocError>
        ensures { OnOk result (self.new ≡ put_all self.old numbers.now) }
    {
        for number in numbers {
            self.put(*number)?;
        }
        Ok(())
    }

    /// The numbers in their order, without their ranks.
    pub fn into_numbers(self) -> Vec<u32>
        ensures { result.items ≡ self }
    {
        self.numbers
    }
}
