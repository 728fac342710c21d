//! Tests of the words of objects and of the tables of objects and classes.

use machine_cases::ample;
use machine_tables::{ClassProgress, Classes, HeapObject, MonitorState, Objects, Words};
use op_core::NoMemory;
use std::alloc::Global;
use std::test::Fail;

/// An object of class 7 with three words and a free monitor.
pub fn object(alloc: Global) -> Result<HeapObject, NoMemory> {
    Ok(HeapObject {
        class: 7,
        length: 3,
        words: Words::copy_of(alloc, &[4, 5, 6])?,
        monitor: MonitorState::Free,
        started: 0,
    })
}

#[test]
fn words_are_read_and_written_by_place(rt: HostRuntime) -> Result<(), Fail> {
    let mut words = ample(Words::zeros(rt.alloc(), 2))?;
    assert!(rt; words.len() == 2);
    assert!(rt; !words.is_empty());
    words.set(1, 9);
    words.set(2, 8);
    assert!(rt; words.get(0) == Some(0));
    assert!(rt; words.get(1) == Some(9));
    assert!(rt; words.get(2) == None);
    let copy = ample(Words::copy_of(rt.alloc(), &[5]))?;
    assert!(rt; copy.get(0) == Some(5));
    Ok(())
}

#[test]
fn objects_are_found_by_reference(rt: HostRuntime) -> Result<(), Fail> {
    let mut objects = Objects::new(rt.alloc());
    ample(objects.insert(20, ample(object(rt.alloc()))?))?;
    assert!(rt; objects.get(20).map(|found| found.length) == Some(3));
    assert!(rt; objects.has(20) && !objects.has(21));
    assert!(rt; objects.has_word(20, 2) && !objects.has_word(20, 3));
    assert!(rt; objects.is_of_class(20, 7, 3) && !objects.is_of_class(20, 7, 0));
    objects.set_word(20, 2, 8);
    assert!(rt; objects.word(20, 2) == 8);
    assert!(rt; objects.word(21, 2) == 0);
    objects.set_started(20, 2);
    assert!(rt; objects.started(20) == 2);
    Ok(())
}

#[test]
fn a_class_is_unready_until_it_is_set(rt: HostRuntime) -> Result<(), Fail> {
    let mut classes = Classes::new(rt.alloc());
    ample(classes.set(4, ClassProgress::Claimed(2)))?;
    assert!(rt; matches!(classes.get(4), ClassProgress::Claimed(2)));
    assert!(rt; matches!(classes.get(5), ClassProgress::Unready));
    assert!(rt; classes.is_unready(5) && !classes.is_unready(4));
    Ok(())
}
