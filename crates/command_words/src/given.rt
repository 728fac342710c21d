//! The options that are given with a command.

ghost use Rattle.std.specs.Prelude.{◌≡◌, ◌≤◌, IfOk, IfSome, None, Some, map, string_bytes};
ghost use Rattle.std.specs.List.{All, list_any};
ghost use Rattle.std.specs.Str.{bytes_eq};
ghost use Rattle.command_words.specs.Grammar.{AreLimits, limits_of, schedule_of};
ghost use Rattle.command_words.specs.Options.{are_different, each_of, is_counts, most, number_given, option_name, option_of, order_given, IsInRange};

use crate::options::{CommandOption, NumberOption, option_of};
use crate::words::WordsRefusal;
use op_core::Limits;
use rows::Rows;
use schedules::{OrderItem, Schedule};
use std::alloc::{AllocError, Global};

/// What the words say, where all are options.
pub(crate) fn options_of(
    alloc: Global,
    words: &[String],
) -> Result<Vec<CommandOption>, WordsRefusal>
    ensures found { IfOk result (λ given. each_of option_of (map string_bytes words.now) ≡ Some given.items) }
    ensures ranges { IfOk result (λ given. All IsInRange given.items) }
    ensures usage { result ≡ Err WordsRefusal.Usage → each_of option_of (map string_bytes words.now) ≡ None }
{
    let mut given = Vec::new(alloc);
    for word in words {
        given.push(option_of(alloc, word.as_bytes())?)?;
    }
    Ok(given)
}

fn is_among(option: &CommandOption, others: &[CommandOption]) -> bool
    ensures { result ≡ list_any (λ p. bytes_eq (option_name option.now) (option_name p)) others.now }
{
    others.iter().any(|other| option.name() == other.name())
}

/// Whether no option is given twice.
pub(crate) fn are_different(given: &[CommandOption]) -> bool
    ensures { result ≡ are_different given.now }
{
    let mut left = given;
    while let [option, others @ ..] = left {
        if is_among(option, others) {
            return false;
        }
        left = others;
    }
    true
}

/// The number that is given for an option.
pub(crate) fn number_given(of: NumberOption, given: &[CommandOption]) -> Option<u64>
    ensures value { result ≡ number_given of given.now }
    ensures bound { All IsInRange given.now → IfSome result (λ n. n ≤ most of) }
{
    for option in given {
        if let Some(number) = option.number(of) {
            return Some(number);
        }
    }
    None
}

/// The order that is given.
pub(crate) fn order_given(
    alloc: Global,
    given: &[CommandOption],
) -> Result<Rows<OrderItem>, AllocError>
    ensures { IfOk result (λ order. order ≡ order_given given.now) }
{
    for option in given {
        if let CommandOption::Order(order) = option {
            return Ok(Rows::from_vec(Vec::from_slice(alloc, order.as_slice())?));
        }
    }
    Ok(Rows::new(alloc))
}

/// Whether sections are to be counted.
pub(crate) fn counts_given(given: &[CommandOption]) -> bool
    ensures { result ≡ list_any is_counts given.now }
{
    given.iter().any(|option| option.is_counts())
}

/// The limits of a run.
pub(crate) fn limits_of(given: &[CommandOption]) -> Limits
    requires { All IsInRange given.now }
    ensures value { result ≡ limits_of given.now }
    ensures ranges { AreLimits result }
{
    Limits {
        turns: number_given(NumberOption::Turns, given).unwrap_or(1_000_000_000),
        heap: number_given(NumberOption::Heap, given).unwrap_or(4_194_304) as u32,
        sections: number_given(NumberOption::Sections, given).unwrap_or(4_194_304) as u32,
    }
}

/// The schedule of a run.
pub(crate) fn schedule_of(alloc: Global, given: &[CommandOption]) -> Result<Schedule, AllocError>
    ensures { IfOk result (λ schedule. schedule ≡ schedule_of given.now) }
{
    let order = order_given(alloc, given)?;
    let seed = number_given(NumberOption::Seed, given);
    Ok(Schedule { order, seed })
}
