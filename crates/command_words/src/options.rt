//! What options there are, and what they say.

ghost use Rattle.std.specs.Prelude.{◌≡◌, ◌≤◌, IfOk, IfSome, OnOk, None, Some};
ghost use Rattle.command_words.specs.Options.{least, most, number_name, number_option, numbered_option, option_name, option_of, valued_option, number_in, is_counts, IsInRange};

use crate::cut::cut;
use crate::order::order_of;
use crate::values::number_between;
use crate::words::WordsRefusal;
use rows::Rows;
use schedules::OrderItem;
use std::alloc::Global;

/// An option whose value is a number.
#[derive(Clone, Copy)]
pub(crate) enum NumberOption {
    Seed,
    Turns,
    Heap,
    Sections,
    Workers,
    Slice,
}

const NUMBER_OPTIONS: [NumberOption; 6] = [
    NumberOption::Seed,
    NumberOption::Turns,
    NumberOption::Heap,
    NumberOption::Sections,
    NumberOption::Workers,
    NumberOption::Slice,
];

impl NumberOption {
    /// The option as it is written before the equals sign.
    pub(crate) fn name(self) -> &'static [u8]
        ensures { result.now ≡ number_name self }
    {
        match self {
            NumberOption::Seed => b"--seed",
            NumberOption::Turns => b"--turns",
            NumberOption::Heap => b"--heap",
            NumberOption::Sections => b"--sections",
            NumberOption::Workers => b"--workers",
            NumberOption::Slice => b"--slice",
        }
    }

    fn least(self) -> u64
        ensures { result ≡ least self }
    {
        match self {
            NumberOption::Seed | NumberOption::Heap | NumberOption::Sections => 0,
            NumberOption::Turns | NumberOption::Workers | NumberOption::Slice => 1,
        }
    }

    fn most(self) -> u64
        ensures { result ≡ most self }
    {
        match self {
            NumberOption::Seed => u64::MAX,
            NumberOption::Turns => 1_000_000_000,
            NumberOption::Heap => 67_108_864,
            NumberOption::Sections => 16_777_215,
            NumberOption::Workers => 64,
            NumberOption::Slice => 1_000_000,
        }
    }
}

fn number_option(name: &[u8]) -> Option<NumberOption>
    ensures { result ≡ number_option name.now }
{
    NUMBER_OPTIONS
        .iter()
        .copied()
        .find(|option| option.name() == name)
}

/// What an option says.
#[derive(Drop)]
pub(crate) enum CommandOption {
    Number(NumberOption, u64),
    Order(Rows<OrderItem>),
    Counts,
}

impl CommandOption {
    /// The option as it is written, without its value.
    pub(crate) fn name(&self) -> &'static [u8]
        ensures { result.now ≡ option_name self.now }
    {
        match self {
            CommandOption::Number(option, _) => option.name(),
            CommandOption::Order(_) => b"--order",
            CommandOption::Counts => b"--counts",
        }
    }

    /// The number for an option, if it is of that option.
    pub(crate) fn number(&self, of: NumberOption) -> Option<u64>
        ensures value { result ≡ number_in of self.now }
        ensures bound { IsInRange self.now → IfSome result (λ n. n ≤ most of) }
    {
        match self {
            CommandOption::Number(option, number) if of.name() == option.name() => Some(*number),
            _ => None,
        }
    }

    pub(crate) fn is_counts(&self) -> bool
        ensures { result ≡ is_counts self.now }
    {
        matches!(self, CommandOption::Counts)
    }
}

// A number that is given for an option of this name.
fn numbered(name: &[u8], value: &[u8]) -> Option<CommandOption>
    ensures value { result ≡ numbered_option name.now value.now }
    ensures range { IfSome result (λ option. IsInRange option) }
{
    let option = number_option(name)?;
    let number = number_between(option.least(), option.most(), value)?;
    Some(CommandOption::Number(option, number))
}

// What a name and a value say.
fn valued(alloc: Global, name: &[u8], value: &[u8]) -> Result<CommandOption, WordsRefusal>
    ensures found { IfOk result (λ option. valued_option name.now value.now ≡ Some option) }
    ensures range { IfOk result (λ option. IsInRange option) }
    ensures usage { result ≡ Err WordsRefusal.Usage → valued_option name.now value.now ≡ None }
{
    if name == b"--order".as_slice() {
        return Ok(CommandOption::Order(order_of(alloc, value)?));
    }
    numbered(name, value).ok_or(WordsRefusal::Usage)
}

/// What a word says that is an option.
pub(crate) fn option_of(alloc: Global, word: &[u8]) -> Result<CommandOption, WordsRefusal>
    ensures found { IfOk result (λ option. option_of word.now ≡ Some option) }
    ensures range { IfOk result (λ option. IsInRange option) }
    ensures usage { result ≡ Err WordsRefusal.Usage → option_of word.now ≡ None }
{
    if word == b"--counts".as_slice() {
        return Ok(CommandOption::Counts);
    }
    match cut(b'=', word) {
        Some((name, value)) => valued(alloc, name, value),
        None => Err(WordsRefusal::Usage),
    }
}
