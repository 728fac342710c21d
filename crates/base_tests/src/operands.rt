//! Tests of an instruction's targets, its index of the pool, and whether the next one may follow it.

use instructions::{
    Call, Case, ClassUse, Condition, FieldAccess, LocalAccess, Plain, Test, ValueKind, What,
};
use rows::Rows;
use std::alloc::Global;
use std::test::Fail;

/// An instruction, where it leads, its index of the pool, and whether the next one may follow (JVMS 6.5).
type Sample = (What<u8>, &'static [u8], Option<u16>, bool);

const SAMPLES: [Sample; 14] = [
    (What::Plain(Plain::Nop), &[], None, true),
    (What::Plain(Plain::MonitorExit), &[], None, true),
    (What::Plain(Plain::Throw), &[], None, false),
    (What::Plain(Plain::Return(None)), &[], None, false),
    (
        What::Plain(Plain::Return(Some(ValueKind::Long))),
        &[],
        None,
        false,
    ),
    (What::Int(7), &[], None, true),
    (What::Constant(3), &[], Some(3), true),
    (What::LongConstant(4), &[], Some(4), true),
    (
        What::Local(LocalAccess::Load(ValueKind::Int), 9),
        &[],
        None,
        true,
    ),
    (
        What::Branch(Test::Zero(Condition::Less), 5),
        &[5],
        None,
        true,
    ),
    (What::Branch(Test::Always, 6), &[6], None, false),
    (
        What::Field(FieldAccess::PutField, 65_535),
        &[],
        Some(65_535),
        true,
    ),
    (What::Call(Call::Special, 11), &[], Some(11), true),
    (What::Class(ClassUse::New, 12), &[], Some(12), true),
];

fn table_switch(alloc: Global) -> Result<What<u8>, Fail> {
    let mut targets = Rows::new(alloc);
    targets.push(2)?;
    targets.push(1)?;
    targets.push(2)?;
    Ok(What::TableSwitch {
        default: 9,
        low: -1,
        targets,
    })
}

fn lookup_switch(alloc: Global) -> Result<What<u8>, Fail> {
    let mut cases = Rows::new(alloc);
    cases.push(Case { key: -5, target: 4 })?;
    cases.push(Case { key: 5, target: 3 })?;
    Ok(What::LookupSwitch { default: 8, cases })
}

#[test]
fn an_instruction_tells_its_operands(rt: HostRuntime) -> Result<(), Fail> {
    for (what, targets, operand, falls_through) in &SAMPLES {
        let found: Vec<u8> = what.targets().collect(rt.alloc())?;
        assert!(rt; found.as_slice() == *targets);
        assert!(rt; what.operand() == *operand && what.falls_through() == *falls_through);
    }
    Ok(())
}

#[test]
fn the_default_of_a_switch_comes_first(rt: HostRuntime) -> Result<(), Fail> {
    let table = table_switch(rt.alloc())?;
    let targets: Vec<u8> = table.targets().collect(rt.alloc())?;
    assert!(rt; targets.as_slice() == [9, 2, 1, 2].as_slice());
    let lookup = lookup_switch(rt.alloc())?;
    let targets: Vec<u8> = lookup.targets().collect(rt.alloc())?;
    assert!(rt; targets.as_slice() == [8, 4, 3].as_slice());
    for switch in [&table, &lookup] {
        assert!(rt; switch.operand().is_none() && !switch.falls_through());
    }
    Ok(())
}
