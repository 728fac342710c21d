//! An order that fits a relation.

ghost use Rattle.std.specs.Prelude.{◌≡◌, ◌<◌, ◌-◌, ◌^◌, ℕ, IfOk, length, map};
ghost use Rattle.std.specs.List.{range_with_len};
ghost use Rattle.std.specs.List.Sorted.{IsPermutation, IsNonDecreasingBy};
ghost use Rattle.transitive_closure.specs.Relation.{IsTable, IsStrictOrder, PutsRelatedFirst};
ghost use Rattle.transitive_closure.specs.Rank.{rank_of, ranks_of};

use crate::row::Row;
use std::alloc::{AllocError, Global};

/// A number, and to how many it is related.
#[derive(Clone, Copy)]
struct Rank {
    count: usize,
    number: u32,
}

fn rank_at(rows: &[Row], number: u32) -> Rank
    requires { number < length rows.now }
    ensures { result ≡ rank_of rows.now number }
{
    Rank {
        count: rows[number as usize].count(),
        number,
    }
}

fn ranks(alloc: Global, rows: &[Row], first: u32) -> Result<Vec<Rank>, AllocError>
    requires { length rows.now < 2 ^ 32 }
    ensures { IfOk result (λ ranks. ranks.items ≡ ranks_of rows.now first) }
{
    let mut ranks = Vec::new(alloc);
    for number in first..rows.len() as u32 {
        ranks.push(rank_at(rows, number))?;
    }
    Ok(ranks)
}

fn sort(ranks: &mut Vec<Rank>)
    ensures same { IsPermutation ranks.old.items ranks.new.items }
    ensures sorted { IsNonDecreasingBy (λ rank. rank.count) ranks.new.items }
{
    ranks.sort_unstable_by_key(|rank| rank.count);
}

fn numbers(alloc: Global, ranks: &[Rank]) -> Result<Vec<u32>, AllocError>
    ensures { IfOk result (λ numbers. numbers.items ≡ map (λ rank. rank.number) ranks.now) }
{
    let mut numbers = Vec::new(alloc);
    for rank in ranks {
        numbers.push(rank.number)?;
    }
    Ok(numbers)
}

/// The numbers from `first` on, each after those of them that it is related to.
pub fn order(alloc: Global, rows: &[Row], first: u32) -> Result<Vec<u32>, AllocError>
    requires table { IsTable rows.now }
    requires strict { IsStrictOrder rows.now }
    ensures { IfOk result (λ order. PutsRelatedFirst rows.now first order.items) }
{
    let mut ranks = ranks(alloc, rows, first)?;
    sort(&mut ranks);
    let numbers = numbers(alloc, &ranks)?;
    Ok(numbers)
}
