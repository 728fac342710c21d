//! Tests of a table on which no thread has made a step.

use op_core::Script;
use plain_words::{PlainWords, has_place};
use std::test::Fail;
use table_cases::{LIMITS, STEPS, opening};
use table_words::TableWords;

#[test]
fn a_table_has_the_words_of_the_opening(rt: HostRuntime) -> Result<(), Fail> {
    let opening = opening(rt.alloc())?;
    assert!(rt; has_place(&opening, &LIMITS));
    let code = Script::new(rt.alloc(), &STEPS);
    let Ok((table, seat)) = TableWords::new(rt.alloc(), &opening, &LIMITS, &code) else {
        return Err(Fail::from("there is no memory"));
    };
    let seat = table.port(seat).into_seat();
    let Ok(words) = table.finish(rt.alloc(), seat, Vec::new(rt.alloc())) else {
        return Err(Fail::from("there is no memory"));
    };
    let Ok(first) = PlainWords::open(rt.alloc(), &opening, &LIMITS) else {
        return Err(Fail::from("there is no memory"));
    };
    assert!(rt; words.block() == first.block());
    Ok(())
}
