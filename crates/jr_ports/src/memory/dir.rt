//! A folder in memory that holds its files.

ghost use Rattle.std.specs.Prelude.{◌≡◌, ◌<◌, ◌≤◌, [], Some, None, map, IfOk, IfSome, IfNone, Contains, string_bytes, take, length, IsTrue, ◌↔◌};
ghost use Rattle.jr_ports.specs.Folder.{AreDifferent, IsOneOf, names_of, most_read};
ghost use Rattle.jr_ports.specs.Memory.{files_of, asked_of};

use super::Calls;
use crate::faults::Refusal;
use crate::ports::{ClassDir, DirFault, MOST_READ};
use std::alloc::{AllocError, Global};

/// A folder that holds its files, and gives them for every path.
#[derive(Drop)]
pub struct MemDir {
    files: Vec<(String, Vec<u8>)>,
    calls: Calls,
    /// The path that was asked for.
    dir: Option<String>,
    /// Whether the names were given.
    gave: bool,
    /// The names of the files that were read.
    read: Vec<String>,
}

/// The names of the files, in their order.
fn names_of_files(alloc: Global, files: &[(String, Vec<u8>)]) -> Result<Vec<String>, AllocError>
    ensures { IfOk result (λ names. map string_bytes names.items ≡ names_of (files_of files.now)) }
{
    let mut names = Vec::new(alloc);
    for file in files {
        names.push(String::from_str(alloc, file.0.as_str())?)?;
    }
    Ok(names)
}

/// A copy of the first bytes of a file, as many as are read at most.
fn copy_of_front(alloc: Global, bytes: &[u8]) -> Result<Vec<u8>, AllocError>
    ensures front { IfOk result (λ copy. copy.items ≡ take most_read bytes.now) }
    ensures most { IfOk result (λ copy. length copy.items ≤ MOST_READ) }
{
    let count = MOST_READ.min(bytes.len());
    Vec::from_slice(alloc, &bytes[..count])
}

fn is_same_text(a: &str, b: &str) -> bool
    ensures { IsTrue result ↔ (a.now ≡ b.now) }
{
    a == b
}

/// The bytes of the file of this name.
fn find_file<'a>(files: &'a [(String, Vec<u8>)], name: &str) -> Option<&'a [u8]>
    ensures found { IfSome result (λ bytes. IsOneOf (files_of files.now) name.now bytes.now) }
    ensures none { IfNone result (Contains (names_of (files_of files.now)) name.now → ⊥) }
{
    for file in files {
        if is_same_text(file.0.as_str(), name) {
            return Some(file.1.as_slice());
        }
    }
    None
}

/// Whether no two files have one name, as a folder in memory needs.
pub fn names_differ(files: &[(String, Vec<u8>)]) -> bool
    ensures { IsTrue result ↔ AreDifferent (names_of (files_of files.now)) }
{
    let mut at = files.len();
    while at > 0 {
        at -= 1;
        let name = files[at].0.as_str();
        let (_, behind) = files.split_at(at + 1);
        match find_file(behind, name) {
            Some(_) => return false,
            None => {}
        }
    }
    true
}

impl MemDir {
    /// A folder of these files, whose names differ; `fail` lists the calls, counted from 1, that fail.
    pub fn new(alloc: Global, files: Vec<(String, Vec<u8>)>, fail: Vec<u32>) -> Self
        requires { AreDifferent (names_of (files_of files.items)) }
        ensures files { result.files.items ≡ files.items }
        ensures fresh { asked_of result ≡ None }
        ensures unread { result.read.items ≡ [] }
        ensures fail { (result.calls.fail.items ≡ fail.items) × (result.calls.made ≡ 0) × (result.calls.faults ≡ 0) }
    {
        MemDir {
            files,
            calls: Calls::new(fail),
            dir: None,
            gave: false,
            read: Vec::new(alloc),
        }
    }

    fn refuse(&mut self) -> DirFault
        ensures files { self.new.files ≡ self.old.files }
        ensures asked { (self.new.dir ≡ self.old.dir) × (self.new.gave ≡ self.old.gave) }
        ensures read { self.new.read ≡ self.old.read }
        ensures cause { result ≡ DirFault.Failed → self.old.calls.faults < self.new.calls.faults }
        ensures memory { result ≡ DirFault.NoMemory → self.new.calls.faults ≡ self.old.calls.faults }
    {
        match self.calls.refuse() {
            Refusal::Failed => DirFault::Failed,
            Refusal::NoMemory => DirFault::NoMemory,
        }
    }
}

impl ClassDir for MemDir {
    ghost asked = { asked_of };

    ghost faults = { λ folder. folder.calls.faults };

    ghost contents = { λ folder. Some (files_of folder.files.items) };

    ghost read_names = { λ folder. Some (map string_bytes folder.read.items) };

    fn names(&mut self, alloc: Global, dir: &str) -> Result<Vec<String>, DirFault> {
        self.dir = Some(String::from_str(alloc, dir)?);
        self.gave = false;
        if self.calls.next_fails() {
            return Err(self.refuse());
        }
        let names = names_of_files(alloc, self.files.as_slice())?;
        self.gave = true;
        Ok(names)
    }

    fn read(&mut self, alloc: Global, _dir: &str, name: &str) -> Result<Vec<u8>, DirFault> {
        if self.calls.next_fails() {
            return Err(self.refuse());
        }
        match find_file(self.files.as_slice(), name) {
            Some(bytes) => {
                let front = copy_of_front(alloc, bytes)?;
                self.read.push(String::from_str(alloc, name)?)?;
                Ok(front)
            }
            None => unreachable!(),
        }
    }
}
