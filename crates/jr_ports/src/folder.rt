//! A folder of the file system: the names of its regular files, and their bytes.

ghost use Rattle.std.specs.Prelude.{◌≡◌, ◌<◌, ◌≤◌, None, IfOk, length, map, string_bytes};
ghost use Rattle.jr_ports.specs.Listing.{asked_of};

use crate::faults::{Refusal, refusal_of};
use crate::ports::{ClassDir, DirFault, MOST_READ};
use std::alloc::{AllocError, Global};
use std::fs;
use std::fs::File;
use std::io::{self, ErrorKind, Read};
use std::rt::Files;

/// The path of a folder, and the names that were given of it.
#[derive(Drop)]
pub struct Listing {
    dir: String,
    names: Vec<String>,
}

/// A folder of the system. It gives the regular files in it, and links are followed. A link to nothing is left
/// out, and a name that isn't UTF-8 fails the listing. A proof learns nothing about its files.
#[derive(Drop)]
pub struct FolderDir<R> {
    rt: R,
    faults: u64,
    asked: Option<Listing>,
}

impl<R: Files + AllocGlobal + Clone + Drop> FolderDir<R> {
    /// A folder that was asked for nothing.
    pub fn new(rt: R) -> Self
        ensures fresh { result.asked ≡ None }
        ensures faults { result.faults ≡ 0 }
    {
        FolderDir {
            rt,
            faults: 0,
            asked: None,
        }
    }
}

/// Whether a path leads to a regular file; a link to nothing leads to none.
fn is_file<R: Files>(rt: &R, path: &str) -> io::Result<bool> {
    match fs::metadata(rt, path) {
        Ok(metadata) => Ok(metadata.is_file()),
        Err(error) if error.kind() == ErrorKind::NotFound => Ok(false),
        Err(error) => Err(error),
    }
}

/// The names of the regular files of a folder.
fn list_files<R: Files + AllocGlobal + Clone + Drop>(
    rt: &R,
    alloc: Global,
    dir: &str,
) -> io::Result<Vec<String>> {
    let mut names = Vec::new(alloc);
    for entry in fs::read_dir(rt, dir)? {
        let entry = entry?;
        if is_file(rt, entry.path().as_str())? {
            names.push(String::from_str(alloc, entry.file_name())?)?;
        }
    }
    Ok(names)
}

/// The first bytes of a file, as many as are read at most.
fn read_front<R: Files + AllocGlobal>(
    rt: &R,
    alloc: Global,
    dir: &str,
    name: &str,
) -> io::Result<Vec<u8>>
    ensures { IfOk result (λ bytes. length bytes.items ≤ MOST_READ) }
{
    let mut path = String::from_str(alloc, dir)?;
    path.push('/')?;
    path.push_str(name)?;
    let mut bytes = Vec::new(alloc);
    let file = File::open(rt, path.as_str())?;
    file.take(MOST_READ as u64).read_to_end(&mut bytes)?;
    bytes.truncate(MOST_READ);
    Ok(bytes)
}

/// A copy of a list of texts.
fn copy_of(alloc: Global, names: &[String]) -> Result<Vec<String>, AllocError>
    ensures { IfOk result (λ copy. map string_bytes copy.items ≡ map string_bytes names.now) }
{
    let mut copy = Vec::new(alloc);
    for name in names {
        copy.push(String::from_str(alloc, name.as_str())?)?;
    }
    Ok(copy)
}

impl<R: Files + AllocGlobal + Clone + Drop> ClassDir for FolderDir<R> {
    ghost asked = { λ folder. asked_of folder.asked };

    ghost faults = { λ folder. folder.faults };

    ghost contents = { λ _. None };

    ghost read_names = { λ _. None };

    fn names(&mut self, alloc: Global, dir: &str) -> Result<Vec<String>, DirFault> {
        let path = String::from_str(alloc, dir)?;
        let listed = list_files(&self.rt, alloc, dir);
        let names = match listed {
            Ok(names) => names,
            Err(error) => {
                self.asked = Some(Listing {
                    dir: path,
                    names: Vec::new(alloc),
                });
                return match refusal_of(&mut self.faults, &error) {
                    Refusal::Failed => Err(DirFault::Failed),
                    Refusal::NoMemory => Err(DirFault::NoMemory),
                };
            }
        };
        let copy = copy_of(alloc, names.as_slice())?;
        self.asked = Some(Listing { dir: path, names });
        Ok(copy)
    }

    fn read(&mut self, alloc: Global, dir: &str, name: &str) -> Result<Vec<u8>, DirFault> {
        match read_front(&self.rt, alloc, dir, name) {
            Ok(bytes) => Ok(bytes),
            Err(error) => match refusal_of(&mut self.faults, &error) {
                Refusal::Failed => Err(DirFault::Failed),
                Refusal::NoMemory => Err(DirFault::NoMemory),
            },
        }
    }
}
