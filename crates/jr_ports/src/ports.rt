//! The ports to the outside world: folders of class files, sources and sinks, and how their calls fail.

ghost use Rattle.std.specs.Prelude.{◌≡◌, ◌<◌, ◌≤◌, ◌⊎◌, ℕ, List, [], ◌∷◌, Option, Some, None, OnOk, OnErr, IfOk, IfSome, length, drop, map, string_bytes};
ghost use Rattle.std.specs.List.Sorted.{IsPermutation};
ghost use Rattle.jr_ports.specs.Folder.{File, Asked, IsListed, IsRead, names_of};
ghost use Rattle.jr_ports.specs.Stream.{Gains, GainsPart, IsNext, Taken};

use std::alloc::{AllocError, AllocFailed, Global};

/// How many bytes of a file are read at most: one more than a class file may have.
pub const MOST_READ: usize = 1_048_577;

/// Why a folder gave no answer.
#[derive(Clone, Copy)]
pub enum DirFault {
    /// The system refused; the folder's count of faults rose.
    Failed,
    /// There was no memory for the answer.
    NoMemory,
}

/// Why a source gave no bytes.
#[derive(Clone, Copy)]
pub enum SourceFault {
    /// The system refused; the source's count of faults rose.
    Failed,
    /// There was no memory for the bytes.
    NoMemory,
}

/// Why a sink did not take all bytes.
#[derive(Clone, Copy)]
pub enum SinkFault {
    /// The system refused; the sink's count of faults rose.
    Failed,
    /// There was no memory for the bytes.
    NoMemory,
}

/// A folder of class files, which is asked for its names once, and then for files.
pub trait ClassDir {
    /// What it was asked for: nothing yet, or one folder with the names that it gave.
    ghost asked: { Self → Option Asked };

    /// How often it failed: a call that answers `Failed` raises it, and no other call changes it.
    ghost faults: { Self → ℕ };

    /// Its files, where they are known.
    ghost contents: { Self → Option (List File) };

    /// The names of the files that were read from it, in order, where they are known.
    ghost read_names: { Self → Option (List (List ℕ)) };

    /// The names of the files of the folder `dir`, in any order; where its files are known, exactly their names, each
    /// once. After a refusal it was asked for `dir` and gave no names. When memory runs out, it may also not have been
    /// asked at all.
    fn names(&mut self, alloc: Global, dir: &str) -> Result<Vec<String>, DirFault>
        requires { asked self.old ≡ None }
        ensures told { IfOk result (λ names. IfSome (contents self.old) (λ files. IsPermutation (names_of files) (map string_bytes names.items))) }
        ensures asked { IfOk result (λ names. asked self.new ≡ Some (record { dir = dir.now; names = map string_bytes names.items })) }
        ensures failed { result ≡ Err DirFault.Failed → asked self.new ≡ Some (record { dir = dir.now; names = [] }) }
        ensures no_memory { result ≡ Err DirFault.NoMemory → (asked self.new ≡ None) ⊎ (asked self.new ≡ Some (record { dir = dir.now; names = [] })) }
        ensures cause { result ≡ Err DirFault.Failed → faults self.old < faults self.new }
        ensures ok_faults { OnOk result (faults self.new ≡ faults self.old) }
        ensures memory_faults { result ≡ Err DirFault.NoMemory → faults self.new ≡ faults self.old }
        ensures contents { contents self.new ≡ contents self.old }
        ensures read_names { read_names self.new ≡ read_names self.old };

    /// The bytes of a file of the folder that was asked for, under a name that it gave, and only the first
    /// 1,048,577 of a longer one. What was asked stays as it was, and a refusal reads nothing.
    fn read(&mut self, alloc: Global, dir: &str, name: &str) -> Result<Vec<u8>, DirFault>
        requires { IsListed (asked self.old) dir.now name.now }
        ensures told { IfOk result (λ bytes. IfSome (contents self.old) (λ files. IsRead files name.now bytes.items)) }
        ensures most { IfOk result (λ bytes. length bytes.items ≤ MOST_READ) }
        ensures asked { asked self.new ≡ asked self.old }
        ensures cause { result ≡ Err DirFault.Failed → faults self.old < faults self.new }
        ensures ok_faults { OnOk result (faults self.new ≡ faults self.old) }
        ensures memory_faults { result ≡ Err DirFault.NoMemory → faults self.new ≡ faults self.old }
        ensures contents { contents self.new ≡ contents self.old }
        ensures read { OnOk result (Gains (read_names self.old) (read_names self.new) (name.now ∷ [])) }
        ensures refused { OnErr result (read_names self.new ≡ read_names self.old) };
}

/// Input that is taken piece by piece.
pub trait Source {
    /// The bytes that are left, where they are known.
    ghost left: { Self → Option (List ℕ) };

    /// What was taken from it, call by call, where that is known.
    ghost taken: { Self → Option (List Taken) };

    /// How often it failed: a call that answers `Failed` raises it, and no other call changes it.
    ghost faults: { Self → ℕ };

    /// The next bytes, at most `most` of them; none means the end of the input. A refusal takes nothing.
    fn take(&mut self, alloc: Global, most: u32) -> Result<Vec<u8>, SourceFault>
        requires { 0 < most }
        ensures most { IfOk result (λ piece. length piece.items ≤ most) }
        ensures next { IfOk result (λ piece. IfSome (left self.old) (λ bytes. IsNext bytes piece.items × (left self.new ≡ Some (drop (length piece.items) bytes)))) }
        ensures taken { IfOk result (λ piece. Gains (taken self.old) (taken self.new) (record { asked = most; came = length piece.items } ∷ [])) }
        ensures err { OnErr result ((left self.new ≡ left self.old) × (taken self.new ≡ taken self.old)) }
        ensures cause { result ≡ Err SourceFault.Failed → faults self.old < faults self.new }
        ensures ok_faults { OnOk result (faults self.new ≡ faults self.old) }
        ensures memory_faults { result ≡ Err SourceFault.NoMemory → faults self.new ≡ faults self.old };
}

/// Output that is given piece by piece.
pub trait Sink {
    /// The pieces that it was given so far, one for each put, where they are known.
    ghost given: { Self → Option (List (List ℕ)) };

    /// How often it failed: a call that answers `Failed` raises it, and no other call changes it.
    ghost faults: { Self → ℕ };

    /// Gives a piece. After a refusal nothing was taken, or a part of the piece from its front, and not all of it.
    fn put(&mut self, bytes: &[u8]) -> Result<(), SinkFault>
        ensures ok { OnOk result (Gains (given self.old) (given self.new) (bytes.now ∷ [])) }
        ensures err { OnErr result (GainsPart (given self.old) (given self.new) (bytes.now ∷ [])) }
        ensures cause { result ≡ Err SinkFault.Failed → faults self.old < faults self.new }
        ensures ok_faults { OnOk result (faults self.new ≡ faults self.old) }
        ensures memory_faults { result ≡ Err SinkFault.NoMemory → faults self.new ≡ faults self.old };
}

impl From<AllocError> for DirFault {
    ghost use Rattle.jr_ports.specs.declared.ports.DirFault.TheVariants.{NoMemory};
    ghost use Rattle.std.specs.Prelude.{◌≡◌};

    ghost from_gives = { λ _ fault. fault ≡ NoMemory };

    fn from(_error: AllocError) -> DirFault {
        DirFault::NoMemory
    }
}

impl<T: Drop> From<AllocFailed<T>> for DirFault {
    ghost use Rattle.jr_ports.specs.declared.ports.DirFault.TheVariants.{NoMemory};
    ghost use Rattle.std.specs.Prelude.{◌≡◌};

    ghost from_gives = { λ _ fault. fault ≡ NoMemory };

    fn from(_error: AllocFailed<T>) -> DirFault {
        DirFault::NoMemory
    }
}

impl From<AllocError> for SourceFault {
    ghost use Rattle.jr_ports.specs.declared.ports.SourceFault.TheVariants.{NoMemory};
    ghost use Rattle.std.specs.Prelude.{◌≡◌};

    ghost from_gives = { λ _ fault. fault ≡ NoMemory };

    fn from(_error: AllocError) -> SourceFault {
        SourceFault::NoMemory
    }
}

impl<T: Drop> From<AllocFailed<T>> for SourceFault {
    ghost use Rattle.jr_ports.specs.declared.ports.SourceFault.TheVariants.{NoMemory};
    ghost use Rattle.std.specs.Prelude.{◌≡◌};

    ghost from_gives = { λ _ fault. fault ≡ NoMemory };

    fn from(_error: AllocFailed<T>) -> SourceFault {
        SourceFault::NoMemory
    }
}

impl From<AllocError> for SinkFault {
    ghost use Rattle.jr_ports.specs.declared.ports.SinkFault.TheVariants.{NoMemory};
    ghost use Rattle.std.specs.Prelude.{◌≡◌};

    ghost from_gives = { λ _ fault. fault ≡ NoMemory };

    fn from(_error: AllocError) -> SinkFault {
        SinkFault::NoMemory
    }
}
