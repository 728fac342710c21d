//! Runs of the program over a folder and streams in memory.

ghost use Rattle.std.specs.Prelude.{IfOk, ◌≡◌, None};
ghost use Rattle.jr_ports.specs.Memory.{asked_of};

use crate::programs::{Class, file_of};
use jr_ports::{Gate, MemDir, MemSink, MemSource, NoGate, names_differ};
use jrev_top::jrev;
use std::alloc::Global;
use std::test::Fail;
use std::thread::Threads;

/// The file of a class One whose main method prints a sum, as an assembler made it. The indices of System.out and println
/// are 13 and 19.
pub const ONE_FILE: &[u8] = &[
    0xca, 0xfe, 0xba, 0xbe, 0x00, 0x00, 0x00, 0x34, 0x00, 0x14, 0x01, 0x00, 0x03, 0x4f, 0x6e, 0x65,
    0x07, 0x00, 0x01, 0x01, 0x00, 0x10, 0x6a, 0x61, 0x76, 0x61, 0x2f, 0x6c, 0x61, 0x6e, 0x67, 0x2f,
    0x4f, 0x62, 0x6a, 0x65, 0x63, 0x74, 0x07, 0x00, 0x03, 0x01, 0x00, 0x04, 0x6d, 0x61, 0x69, 0x6e,
    0x01, 0x00, 0x16, 0x28, 0x5b, 0x4c, 0x6a, 0x61, 0x76, 0x61, 0x2f, 0x6c, 0x61, 0x6e, 0x67, 0x2f,
    0x53, 0x74, 0x72, 0x69, 0x6e, 0x67, 0x3b, 0x29, 0x56, 0x01, 0x00, 0x04, 0x43, 0x6f, 0x64, 0x65,
    0x01, 0x00, 0x10, 0x6a, 0x61, 0x76, 0x61, 0x2f, 0x6c, 0x61, 0x6e, 0x67, 0x2f, 0x53, 0x79, 0x73,
    0x74, 0x65, 0x6d, 0x07, 0x00, 0x08, 0x01, 0x00, 0x03, 0x6f, 0x75, 0x74, 0x01, 0x00, 0x15, 0x4c,
    0x6a, 0x61, 0x76, 0x61, 0x2f, 0x69, 0x6f, 0x2f, 0x50, 0x72, 0x69, 0x6e, 0x74, 0x53, 0x74, 0x72,
    0x65, 0x61, 0x6d, 0x3b, 0x0c, 0x00, 0x0a, 0x00, 0x0b, 0x09, 0x00, 0x09, 0x00, 0x0c, 0x01, 0x00,
    0x13, 0x6a, 0x61, 0x76, 0x61, 0x2f, 0x69, 0x6f, 0x2f, 0x50, 0x72, 0x69, 0x6e, 0x74, 0x53, 0x74,
    0x72, 0x65, 0x61, 0x6d, 0x07, 0x00, 0x0e, 0x01, 0x00, 0x07, 0x70, 0x72, 0x69, 0x6e, 0x74, 0x6c,
    0x6e, 0x01, 0x00, 0x04, 0x28, 0x49, 0x29, 0x56, 0x0c, 0x00, 0x10, 0x00, 0x11, 0x0a, 0x00, 0x0f,
    0x00, 0x12, 0x00, 0x21, 0x00, 0x02, 0x00, 0x04, 0x00, 0x00, 0x00, 0x00, 0x00, 0x01, 0x00, 0x09,
    0x00, 0x05, 0x00, 0x06, 0x00, 0x01, 0x00, 0x07, 0x00, 0x00, 0x00, 0x16, 0x00, 0x03, 0x00, 0x01,
    0x00, 0x00, 0x00, 0x0a, 0xb2, 0x00, 0x0d, 0x05, 0x06, 0x60, 0xb6, 0x00, 0x13, 0xb1, 0x00, 0x00,
    0x00, 0x00, 0x00, 0x00,
];

/// The file of the class One with these entries appended to its pool, `count` as the count of the pool, and this code
/// in its main method.
fn one_with(alloc: Global, count: u8, entries: &[u8], code: &[u8]) -> Result<Vec<u8>, Fail> {
    let mut file = Vec::from_slice(alloc, &ONE_FILE[..9])?;
    file.push(count)?;
    file.extend_from_slice(&ONE_FILE[10..194])?;
    file.extend_from_slice(entries)?;
    file.extend_from_slice(&ONE_FILE[194..216])?;
    let length = code.len().min(200) as u8;
    file.extend_from_slice(&[0, 0, 0, length + 12, 0, 3, 0, 1, 0, 0, 0, length])?;
    file.extend_from_slice(code)?;
    file.extend_from_slice(&[0, 0, 0, 0, 0, 0])?;
    Ok(file)
}

/// A file of the folder.
#[derive(Clone, Copy)]
pub enum File {
    /// The class One with this code.
    One(&'static str, &'static [u8]),
    /// The class One with this code, and with a float and an invokedynamic after the other entries of its pool.
    Pooled(&'static str, &'static [u8]),
    /// The class of an assembler's text.
    Text(&'static str, &'static str),
    /// The class of a program.
    Made(Class),
    /// These bytes.
    Other(&'static str, &'static [u8]),
}

/// A run, and what is wanted of it.
#[derive(Clone, Copy)]
pub struct Case {
    pub words: &'static [&'static str],
    pub files: &'static [File],
    pub input: &'static str,
    pub faults: Faults,
    pub status: u8,
    pub out: &'static [u8],
    pub err: &'static str,
}

/// The class One, whose main method prints 2 + 3.
pub const SUM: File = File::One("One.class", &[178, 0, 13, 5, 6, 96, 182, 0, 19, 177]);

/// A program that prints two lines.
pub const PRINTS_1_AND_2: File = File::One(
    "One.class",
    &[178, 0, 13, 4, 182, 0, 19, 178, 0, 13, 5, 182, 0, 19, 177],
);

/// The entries of a float and of an invokedynamic.
const ENTRIES: &[u8] = &[4, 0, 0, 0, 0, 18, 0, 0, 0, 12];

/// Which call of the folder, the input, the output and the standard error fails, counted from 1; 0 for none.
pub type Faults = (u32, u32, u32, u32);

/// No call fails.
pub const NO_FAULTS: Faults = (0, 0, 0, 0);

/// The class file of an assembler's text.
pub fn assembled<R: Threads + Sync>(rt: &R, alloc: Global, text: &str) -> Result<Vec<u8>, Fail> {
    let made = run_over(rt, alloc, &["make"], Vec::new(alloc), text, NO_FAULTS)?;
    Ok(made.out)
}

fn owned<R: Threads + Sync>(rt: &R, alloc: Global, file: File) -> Result<(String, Vec<u8>), Fail> {
    let (name, bytes) = match file {
        File::One(name, code) => (name, one_with(alloc, 20, &[], code)?),
        File::Pooled(name, code) => (name, one_with(alloc, 22, ENTRIES, code)?),
        File::Text(name, text) => (name, assembled(rt, alloc, text)?),
        File::Made(class) => {
            let (name, text) = file_of(class);
            (name, assembled(rt, alloc, text)?)
        }
        File::Other(name, bytes) => (name, Vec::from_slice(alloc, bytes)?),
    };
    Ok((String::from_str(alloc, name)?, bytes))
}

fn folder(alloc: Global, files: Vec<(String, Vec<u8>)>, fault: u32) -> Result<MemDir, Fail>
    ensures { IfOk result (λ folder. asked_of folder ≡ None) }
{
    if !names_differ(files.as_slice()) {
        return Err(Fail::from("two files have one name"));
    }
    Ok(MemDir::new(alloc, files, vec![in alloc; fault]?))
}

/// The words of a command line.
pub fn owned_words(alloc: Global, words: &[&str]) -> Result<Vec<String>, Fail> {
    let mut all = Vec::new(alloc);
    for word in words {
        all.push(String::from_str(alloc, word)?)?;
    }
    Ok(all)
}

fn input(alloc: Global, text: &str, fault: u32) -> Result<MemSource, Fail> {
    let text = Vec::from_slice(alloc, text.as_bytes())?;
    Ok(MemSource::new(alloc, text, vec![in alloc; fault]?))
}

/// A status, and what both sinks were given.
#[derive(Drop)]
pub struct Seen {
    pub status: u8,
    pub out: Vec<u8>,
    pub err: Vec<u8>,
}

/// Runs the program with these words over files and an input. Host threads pass this gate.
pub fn run_gated<R: Threads + Sync, G: Gate + Sync>(
    rt: &R,
    alloc: Global,
    words: &[&str],
    files: Vec<(String, Vec<u8>)>,
    text: &str,
    faults: Faults,
    gate: &G,
) -> Result<Seen, Fail> {
    let (folder_fault, input_fault, out_fault, err_fault) = faults;
    let words = owned_words(alloc, words)?;
    let mut classes = folder(alloc, files, folder_fault)?;
    let mut input = input(alloc, text, input_fault)?;
    let mut out = MemSink::new(alloc, vec![in alloc; out_fault]?);
    let mut err = MemSink::new(alloc, vec![in alloc; err_fault]?);
    let words = words.as_slice();
    let status = jrev(
        rt,
        alloc,
        words,
        &mut classes,
        &mut input,
        &mut out,
        &mut err,
        gate,
    );
    Ok(Seen {
        status: status.number(),
        out: Vec::from_slice(alloc, out.given())?,
        err: Vec::from_slice(alloc, err.given())?,
    })
}

/// Runs the program with these words over files and an input.
pub fn run_over<R: Threads + Sync>(
    rt: &R,
    alloc: Global,
    words: &[&str],
    files: Vec<(String, Vec<u8>)>,
    text: &str,
    faults: Faults,
) -> Result<Seen, Fail> {
    run_gated(rt, alloc, words, files, text, faults, &NoGate)
}

/// The names and bytes of files.
pub fn owned_files<R: Threads + Sync>(
    rt: &R,
    alloc: Global,
    files: &[File],
) -> Result<Vec<(String, Vec<u8>)>, Fail> {
    let mut all = Vec::new(alloc);
    for file in files {
        all.push(owned(rt, alloc, *file)?)?;
    }
    Ok(all)
}

/// Runs the program with the words of a case over its files and its input.
pub fn run<R: Threads + Sync>(rt: &R, alloc: Global, case: &Case) -> Result<Seen, Fail> {
    let files = owned_files(rt, alloc, case.files)?;
    run_over(rt, alloc, case.words, files, case.input, case.faults)
}

/// Whether the run ends with the wanted status, and gives the wanted bytes to both streams.
pub fn is_as_wanted<R: Threads + Sync>(rt: &R, alloc: Global, case: &Case) -> Result<bool, Fail> {
    let seen = run(rt, alloc, case)?;
    Ok(
        seen.status == case.status
            && seen.out.as_slice() == case.out
            && seen.err.as_slice() == case.err.as_bytes(),
    )
}
