//! Tests of the crates at the bottom, over their public calls: rows, rows that share pages, the outside in memory, the
//! table of built-in classes, and instructions by their mnemonics and offsets.
#![tactic(auto)]

#[cfg(test)]
mod builtin_classes;
#[cfg(test)]
mod instructions_by_offset;
#[cfg(test)]
mod mnemonics;
#[cfg(test)]
mod operands;
#[cfg(test)]
mod ports;
#[cfg(test)]
mod row_lists;
#[cfg(test)]
mod shared_row_places;
