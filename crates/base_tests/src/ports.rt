//! Tests of the folder, the source and the sink in memory, and of their faults.

ghost use Rattle.std.specs.Prelude.{◌≡◌, IfOk, None};
ghost use Rattle.jr_ports.specs.Memory.{asked_of};

use jr_ports::{
    ClassDir, DirFault, MOST_READ, MemDir, MemSink, MemSource, Sink, SinkFault, Source,
    SourceFault, names_differ,
};
use std::alloc::Global;
use std::process::Abort;
use std::test::Fail;

/// A folder with a short file and one that is a byte longer than what is read.
fn folder(rt: &impl Abort, alloc: Global, fail: Vec<u32>) -> Result<MemDir, Fail>
    ensures { IfOk result (λ folder. asked_of folder ≡ None) }
{
    let mut files = Vec::new(alloc);
    files.push((String::from_str(alloc, "b")?, vec![in alloc; 1, 2]?))?;
    let long = vec![in alloc; 7; 1_048_578]?;
    files.push((String::from_str(alloc, "a")?, long))?;
    assert!(rt; names_differ(files.as_slice()));
    Ok(MemDir::new(alloc, files, fail))
}

/// How many bytes a folder gave: 0 also where there was no memory, `None` where the file couldn't be read.
fn length_of(answer: Result<Vec<u8>, DirFault>) -> Option<usize> {
    match answer {
        Ok(bytes) => Some(bytes.len()),
        Err(DirFault::Failed) => None,
        Err(DirFault::NoMemory) => Some(0),
    }
}

#[test]
fn a_folder_in_memory_gives_names_and_files(rt: HostRuntime) -> Result<(), Fail> {
    let alloc = rt.alloc();
    let mut classes = folder(&rt, alloc, Vec::new(alloc))?;
    let names = match classes.names(alloc, "any") {
        Ok(names) => names,
        Err(_) => return Err(Fail::from("there are names")),
    };
    assert!(rt; names.len() == 2);
    assert!(rt; names[0].as_str() == "b" && names[1].as_str() == "a");
    let short = classes.read(alloc, "any", names[0].as_str());
    assert!(rt; length_of(short) == Some(2));
    let long = classes.read(alloc, "any", names[1].as_str());
    assert!(rt; length_of(long) == Some(MOST_READ));
    Ok(())
}

#[test]
fn one_name_twice_is_seen(rt: HostRuntime) -> Result<(), Fail> {
    let alloc = rt.alloc();
    let mut files = Vec::new(alloc);
    for name in ["a", "b", "a"] {
        files.push((String::from_str(alloc, name)?, Vec::new(alloc)))?;
    }
    assert!(rt; !names_differ(files.as_slice()));
    assert!(rt; names_differ(&files[1..]));
    Ok(())
}

#[test]
fn the_first_call_of_a_folder_fails_where_it_is_named(rt: HostRuntime) -> Result<(), Fail> {
    let alloc = rt.alloc();
    let mut classes = folder(&rt, alloc, vec![in alloc; 1]?)?;
    assert!(rt; matches!(classes.names(alloc, "any"), Err(DirFault::Failed)));
    Ok(())
}

#[test]
fn the_second_call_of_a_folder_fails_where_it_is_named(rt: HostRuntime) -> Result<(), Fail> {
    let alloc = rt.alloc();
    let mut classes = folder(&rt, alloc, vec![in alloc; 2]?)?;
    let names = match classes.names(alloc, "any") {
        Ok(names) => names,
        Err(_) => return Err(Fail::from("there are names")),
    };
    assert!(rt; names.len() == 2);
    let refused = classes.read(alloc, "any", names[0].as_str());
    assert!(rt; length_of(refused) == None);
    Ok(())
}

/// What is taken of at most two bytes: nothing also where there is no memory, `None` where the source fails.
fn taken(alloc: Global, source: &mut MemSource) -> Option<Vec<u8>> {
    match source.take(alloc, 2) {
        Ok(bytes) => Some(bytes),
        Err(SourceFault::Failed) => None,
        Err(SourceFault::NoMemory) => Some(Vec::new(alloc)),
    }
}

#[test]
fn a_source_in_memory_gives_its_bytes_in_pieces(rt: HostRuntime) -> Result<(), Fail> {
    let alloc = rt.alloc();
    let mut source = MemSource::new(alloc, vec![in alloc; 1, 2, 3]?, vec![in alloc; 2]?);
    const WANTED: [Option<&[u8]>; 4] = [Some(&[1, 2]), None, Some(&[3]), Some(&[])];
    for wanted in WANTED {
        let seen = taken(alloc, &mut source);
        assert!(rt; seen.as_ref().map(|bytes| bytes.as_slice()) == wanted);
    }
    Ok(())
}

#[test]
fn a_sink_in_memory_takes_nothing_of_a_put_that_fails(rt: HostRuntime) -> Result<(), Fail> {
    let alloc = rt.alloc();
    let mut sink = MemSink::new(alloc, vec![in alloc; 2]?);
    assert!(rt; matches!(sink.put(b"ab"), Ok(())));
    assert!(rt; matches!(sink.put(b"cd"), Err(SinkFault::Failed)));
    assert!(rt; matches!(sink.put(b"e"), Ok(())));
    assert!(rt; sink.given() == b"abe".as_slice());
    Ok(())
}
