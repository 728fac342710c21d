//! Words of the command line, and what they ask for.

use command_words::{Request, WordsRefusal, words_of};
use schedules::OrderItem;
use std::alloc::Global;
use std::test::Fail;

fn owned_words(alloc: Global, words: &[&str]) -> Result<Vec<String>, Fail> {
    let mut all = Vec::new(alloc);
    for word in words {
        all.push(String::from_str(alloc, word)?)?;
    }
    Ok(all)
}

/// What a request with options comes to: turns, heap, sections, seed, workers, slice, and 1 where sections are counted;
/// and the items of the order, as thread, 0 for turns or 1 for a kind, and number.
#[derive(Clone, Copy)]
struct Asked {
    words: &'static [&'static str],
    numbers: [u64; 7],
    order: &'static [(u8, u8, u32)],
}

const DEFAULTS: [u64; 7] = [1_000_000_000, 4_194_304, 4_194_304, 0, 0, 0, 0];

/// Each option at the ends of its range, and options in some order.
const ASKED: [Asked; 14] = [
    Asked {
        words: &["pick", "D", "M"],
        numbers: DEFAULTS,
        order: &[],
    },
    Asked {
        words: &["trace", "D", "M", "--seed=18446744073709551615"],
        numbers: [1_000_000_000, 4_194_304, 4_194_304, u64::MAX, 0, 0, 0],
        order: &[],
    },
    Asked {
        words: &["pick", "D", "M", "--seed=1", "--turns=1"],
        numbers: [1, 4_194_304, 4_194_304, 1, 0, 0, 0],
        order: &[],
    },
    Asked {
        words: &["pick", "D", "M", "--turns=1000000000", "--heap=0"],
        numbers: [1_000_000_000, 0, 4_194_304, 0, 0, 0, 0],
        order: &[],
    },
    Asked {
        words: &["pick", "D", "M", "--heap=67108864", "--sections=0"],
        numbers: [1_000_000_000, 67_108_864, 0, 0, 0, 0, 0],
        order: &[],
    },
    Asked {
        words: &["pick", "D", "M", "--counts", "--sections=16777215"],
        numbers: [1_000_000_000, 4_194_304, 16_777_215, 0, 0, 0, 1],
        order: &[],
    },
    Asked {
        words: &["run", "D", "M"],
        numbers: [1_000_000_000, 4_194_304, 4_194_304, 0, 4, 10_000, 0],
        order: &[],
    },
    Asked {
        words: &["run", "D", "M", "--slice=1", "--workers=64"],
        numbers: [1_000_000_000, 4_194_304, 4_194_304, 0, 64, 1, 0],
        order: &[],
    },
    Asked {
        words: &[
            "run",
            "D",
            "M",
            "--workers=1",
            "--counts",
            "--slice=1000000",
            "--turns=9",
        ],
        numbers: [9, 4_194_304, 4_194_304, 0, 1, 1_000_000, 1],
        order: &[],
    },
    Asked {
        words: &["pick", "D", "M", "--order=1*1"],
        numbers: DEFAULTS,
        order: &[(1, 0, 1)],
    },
    Asked {
        words: &["trace", "D", "M", "--order=255*1000000,2@1,1@27"],
        numbers: DEFAULTS,
        order: &[(255, 0, 1_000_000), (2, 1, 1), (1, 1, 27)],
    },
    Asked {
        words: &["check", "D", "M"],
        numbers: [0; 7],
        order: &[],
    },
    Asked {
        words: &["stress", "0"],
        numbers: [0, 0, 0, 0, 0, 0, 0],
        order: &[],
    },
    Asked {
        words: &["stress", "18446744073709551615"],
        numbers: [0, 0, 0, u64::MAX, 0, 0, 0],
        order: &[],
    },
];

fn numbers_of(request: &Request) -> [u64; 7] {
    match request {
        Request::Pick {
            limits,
            schedule,
            counts,
            ..
        } => [
            limits.turns,
            u64::from(limits.heap),
            u64::from(limits.sections),
            schedule.seed.unwrap_or(0),
            0,
            0,
            u64::from(*counts),
        ],
        Request::Trace {
            limits,
            schedule,
            ..
        } => [
            limits.turns,
            u64::from(limits.heap),
            u64::from(limits.sections),
            schedule.seed.unwrap_or(0),
            0,
            0,
            0,
        ],
        Request::Run {
            limits,
            workers,
            slice,
            counts,
            ..
        } => [
            limits.turns,
            u64::from(limits.heap),
            u64::from(limits.sections),
            0,
            u64::from(*workers),
            u64::from(*slice),
            u64::from(*counts),
        ],
        Request::Stress { number } => [0, 0, 0, *number, 0, 0, 0],
        _ => [0; 7],
    }
}

fn order_of(request: &Request) -> &[OrderItem] {
    match request {
        Request::Pick { schedule, .. } | Request::Trace { schedule, .. } => {
            schedule.order.as_slice()
        }
        _ => &[],
    }
}

fn is_item(item: OrderItem, wanted: (u8, u8, u32)) -> bool {
    match item {
        OrderItem::Turns(thread, count) => wanted == (thread, 0, count),
        OrderItem::Until(thread, kind) => wanted == (thread, 1, u32::from(kind)),
    }
}

fn is_order(items: &[OrderItem], wanted: &[(u8, u8, u32)]) -> bool {
    items.len() == wanted.len()
        && items
            .iter()
            .zip(wanted)
            .all(|(item, wanted)| is_item(*item, *wanted))
}

fn is_asked(alloc: Global, asked: &Asked) -> Result<bool, Fail> {
    let words = owned_words(alloc, asked.words)?;
    match words_of(alloc, words.as_slice()) {
        Ok(request) => Ok(
            numbers_of(&request) == asked.numbers && is_order(order_of(&request), asked.order),
        ),
        Err(_) => Ok(false),
    }
}

#[test]
fn words_ask_for_what_they_say(rt: HostRuntime) -> Result<(), Fail> {
    for asked in &ASKED {
        assert!(rt; is_asked(rt.alloc(), asked)?);
    }
    Ok(())
}

/// Words that are none of a command, each with one fault in an option or a positional word.
const UNASKED: [&[&str]; 48] = [
    &["pick", "D", "M", "--seed=18446744073709551616"],
    &["pick", "D", "M", "--seed=01"],
    &["pick", "D", "M", "--seed=+1"],
    &["pick", "D", "M", "--seed=-1"],
    &["pick", "D", "M", "--seed="],
    &["pick", "D", "M", "--seed"],
    &["pick", "D", "M", "-seed=1"],
    &["pick", "D", "M", "--seed=1", "--seed=1"],
    &["pick", "D", "M", "--turns=0"],
    &["pick", "D", "M", "--turns=1000000001"],
    &["pick", "D", "M", "--heap=67108865"],
    &["pick", "D", "M", "--sections=16777216"],
    &["pick", "D", "M", "--workers=4"],
    &["pick", "D", "M", "--slice=4"],
    &["pick", "D", "M", "--counts="],
    &["pick", "D", "M", "--counts", "--counts"],
    &["pick", "D", "M", "--other=1"],
    &["pick", "D", "--counts", "M"],
    &["pick", "--counts", "D", "M"],
    &["pick", "D", "M", "N"],
    &["trace", "D", "M", "--counts"],
    &["trace", "D", "M", "--workers=1"],
    &["run", "D", "M", "--workers=0"],
    &["run", "D", "M", "--workers=65"],
    &["run", "D", "M", "--slice=0"],
    &["run", "D", "M", "--slice=1000001"],
    &["run", "D", "M", "--seed=1"],
    &["run", "D", "M", "--order=1*1"],
    &["pick", "D", "M", "--order="],
    &["pick", "D", "M", "--order=1*1,"],
    &["pick", "D", "M", "--order=,1*1"],
    &["pick", "D", "M", "--order=0*1"],
    &["pick", "D", "M", "--order=256*1"],
    &["pick", "D", "M", "--order=1*0"],
    &["pick", "D", "M", "--order=1*1000001"],
    &["pick", "D", "M", "--order=1@0"],
    &["pick", "D", "M", "--order=1@28"],
    &["pick", "D", "M", "--order=1*2@3"],
    &["load", "D", "M", "--order=1*1"],
    &["load", "D", "M", "--seed=1"],
    &["load", "D", "M", "--turns=1"],
    &["load", "D", "M", "--heap=1"],
    &["load", "D", "M", "--sections=1"],
    &["load", "D", "M", "--counts"],
    &["migrate", "x"],
    &["check", "D", "M", "--turns=1"],
    &["stress", "18446744073709551616"],
    &["stress", "1", "2"],
];

fn is_unasked(alloc: Global, words: &[&str]) -> Result<bool, Fail> {
    let words = owned_words(alloc, words)?;
    Ok(matches!(words_of(alloc, words.as_slice()), Err(WordsRefusal::Usage)))
}

#[test]
fn other_words_ask_for_nothing(rt: HostRuntime) -> Result<(), Fail> {
    for words in UNASKED {
        assert!(rt; is_unasked(rt.alloc(), words)?);
    }
    Ok(())
}

/// Words of each command; `pick` with its options in several orders, at the ends of their ranges.
const COMMANDS: [&[&str]; 26] = [
    &["pick", "D", "M"],
    &["pick", "D", "M", "--order=1*1"],
    &["pick", "D", "M", "--order=255*1000000,1*1,255*1"],
    &["pick", "D", "M", "--seed=0", "--turns=1000000000"],
    &["pick", "D", "M", "--turns=1", "--seed=18446744073709551615"],
    &["pick", "D", "M", "--heap=67108864", "--sections=0"],
    &[
        "pick",
        "D",
        "M",
        "--sections=16777215",
        "--heap=0",
        "--seed=1",
        "--order=2*3",
        "--turns=5",
    ],
    &[
        "pick",
        "D",
        "M",
        "--order=2*3",
        "--turns=5",
        "--heap=0",
        "--seed=1",
        "--sections=16777215",
    ],
    &["pick", "D", "M", "--counts"],
    &["pick", "D", "M", "--seed=1", "--counts", "--turns=5"],
    &["pick", "D", "M", "--order=1@1"],
    &["pick", "D", "M", "--order=2@27,1*1"],
    &["pick", "D", "M", "--order=2@32,1@33"],
    &["pick", "D", "M", "--seed=1", "--order=1*1,2*3,255@27"],
    &["trace", "D", "M"],
    &["trace", "D", "M", "--seed=1", "--order=2*3", "--turns=5"],
    &["trace", "D", "M", "--order=1@1"],
    &["trace", "D", "M", "--order=2@32,1*2,1@33"],
    &["run", "D", "M", "--workers=2"],
    &["check", "D", "M"],
    &["load", "D", "M"],
    &["make"],
    &["migrate"],
    &["stress", "1"],
    &["--help"],
    &["--version"],
];

fn is_command(alloc: Global, words: &[&str]) -> Result<bool, Fail> {
    let words = owned_words(alloc, words)?;
    Ok(words_of(alloc, words.as_slice()).is_ok())
}

#[test]
fn these_words_are_commands(rt: HostRuntime) -> Result<(), Fail> {
    for words in COMMANDS {
        assert!(rt; is_command(rt.alloc(), words)?);
    }
    Ok(())
}

/// How many items an order of `count` times `1*1` has, where its words ask for something.
fn items_of(alloc: Global, count: u32) -> Result<Option<usize>, Fail> {
    let mut option = String::from_str(alloc, "--order=1*1")?;
    for _ in 1..count {
        option.push_str(",1*1")?;
    }
    let words = owned_words(alloc, &["pick", "D", "M", option.as_str()])?;
    let request = words_of(alloc, words.as_slice());
    Ok(request.ok().map(|request| order_of(&request).len()))
}

#[test]
fn an_order_has_a_thousand_items_at_most(rt: HostRuntime) -> Result<(), Fail> {
    assert!(rt; items_of(rt.alloc(), 1000)? == Some(1000));
    assert!(rt; items_of(rt.alloc(), 1001)?.is_none());
    Ok(())
}
