//! Tests of finding an instruction by its offset.

use instructions::{Instr, Numbering, Plain, Steps, Target, Test, What};
use rows::Rows;
use std::alloc::Global;
use std::test::Fail;

/// A branch of three bytes to the return after it.
fn branch_and_return(alloc: Global) -> Result<Steps, Fail> {
    let mut offsets = Numbering::new(alloc);
    let mut steps = Rows::new(alloc);
    steps.push(Instr {
        at: 0,
        next: 3,
        what: What::Branch(Test::Always, Target { at: 3, step: 1 }),
    })?;
    steps.push(Instr {
        at: 3,
        next: 4,
        what: What::Plain(Plain::Return(None)),
    })?;
    offsets.push(0)?;
    offsets.push(3)?;
    Ok(Steps::new(steps, offsets))
}

#[test]
fn steps_are_found_by_offset(rt: HostRuntime) -> Result<(), Fail> {
    let steps = branch_and_return(rt.alloc())?;
    assert!(rt; steps.len() == 2 && !steps.is_empty() && steps.as_slice().len() == 2);
    let found = [0, 1, 3, 4].map(|offset| steps.number_at(offset));
    assert!(rt; found == [Some(0), None, Some(1), None]);
    assert!(rt; steps.get(1).map_or(0, |step| step.at) == 3 && steps.get(2).is_none());
    Ok(())
}
