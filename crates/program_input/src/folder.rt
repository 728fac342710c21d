//! Reading the class files of a folder.

ghost use Rattle.std.specs.Prelude.{◌≡◌, ◌<◌, List, ℕ, IfOk, OnOk, IfSome, None, Some, filter, map, string_bytes};
ghost use Rattle.std.specs.List.{All};
ghost use Rattle.std.specs.List.Sorted.{IsPermutation, IsSorted};
ghost use Rattle.std.specs.Cmp.Lexicographic.{slice_cmp};
ghost use Rattle.std.specs.Ordering.{nat_cmp};
ghost use Rattle.jr_ports.specs.Folder.{Asked, IsListed, names_of};
ghost use Rattle.jr_ports.specs.Stream.{Gains};
ghost use Rattle.program_input.specs.Folder.{AreClassNames, AreRead, ReadsFront, is_class_file};

use jr_ports::{ClassDir, DirFault};
use std::alloc::{AllocError, Global};

// Whether a name ends in `.class` and is longer than that.
fn is_class_name(name: &[u8]) -> bool
    ensures { result ≡ is_class_file name.now }
{
    let len = name.len();
    if len <= 6 {
        return false;
    }
    let (_, end) = name.split_at(len - 6);
    end == b".class".as_slice()
}

// The names of class files, in the order of their bytes.
fn sorted_names(alloc: Global, names: &[String]) -> Result<Vec<String>, AllocError>
    ensures are { IfOk result (λ sorted. IsPermutation (filter is_class_file (map string_bytes names.now)) (map string_bytes sorted.items)) }
    ensures in_order { IfOk result (λ sorted. IsSorted (slice_cmp nat_cmp) (map string_bytes sorted.items)) }
{
    let mut found = chosen_names(alloc, names)?;
    found.sort()?;
    Ok(found)
}

fn chosen_names(alloc: Global, names: &[String]) -> Result<Vec<String>, AllocError>
    ensures { IfOk result (λ chosen. map string_bytes chosen.items ≡ filter is_class_file (map string_bytes names.now)) }
{
    let mut chosen = Vec::new(alloc);
    for name in names {
        if is_class_name(name.as_bytes()) {
            chosen.push(String::from_str(alloc, name.as_str())?)?;
        }
    }
    Ok(chosen)
}

/// Asks a folder for its names, and gives those of class files: they end in `.class` and are longer than that. They come in
/// the order of their bytes. Reads no file.
///
/// # Errors
/// `Failed` comes exactly where the folder's count of faults rose in this call.
pub fn class_names<D: ClassDir>(
    alloc: Global,
    classes: &mut D,
    dir: &str,
) -> Result<Vec<String>, DirFault>
    requires { D.asked classes.old ≡ None }
    ensures names { IfOk result (λ sorted. (names : List (List ℕ)) × (D.asked classes.new ≡ Some (record { dir = dir.now; names = names }))
        × AreClassNames names (map string_bytes sorted.items) × IfSome (D.contents classes.old) (λ files. IsPermutation (names_of files) names)) }
    ensures listed { IfOk result (λ sorted. All (λ name. IsListed (D.asked classes.new) dir.now (string_bytes name)) sorted.items) }
    ensures cause { result ≡ Err DirFault.Failed → D.faults classes.old < D.faults classes.new }
    ensures asked { IfSome (D.asked classes.new) (λ asked. asked.dir ≡ dir.now) }
    ensures ok_faults { OnOk result (D.faults classes.new ≡ D.faults classes.old) }
    ensures memory_faults { result ≡ Err DirFault.NoMemory → D.faults classes.new ≡ D.faults classes.old }
    ensures contents { D.contents classes.new ≡ D.contents classes.old }
    ensures read { D.read_names classes.new ≡ D.read_names classes.old }
{
    let names = classes.names(alloc, dir)?;
    let sorted = sorted_names(alloc, names.as_slice())?;
    Ok(sorted)
}

/// Reads files of the folder that was asked for, in the order of these names, all of them or up to the first that fails.
///
/// # Errors
/// `Failed` comes exactly where the folder's count of faults rose in this call. After an error the first of the files were
/// read.
pub fn read_files<D: ClassDir>(
    alloc: Global,
    classes: &mut D,
    dir: &str,
    names: &[String],
) -> Result<Vec<Vec<u8>>, DirFault>
    requires { All (λ name. IsListed (D.asked classes.old) dir.now (string_bytes name)) names.now }
    ensures read { IfOk result (λ files. AreRead (D.contents classes.old) (map string_bytes names.now) (map (λ f. f.items) files.items)) }
    ensures cause { result ≡ Err DirFault.Failed → D.faults classes.old < D.faults classes.new }
    ensures asked { D.asked classes.new ≡ D.asked classes.old }
    ensures ok_faults { OnOk result (D.faults classes.new ≡ D.faults classes.old) }
    ensures memory_faults { result ≡ Err DirFault.NoMemory → D.faults classes.new ≡ D.faults classes.old }
    ensures contents { D.contents classes.new ≡ D.contents classes.old }
    ensures whole { IfOk result (λ _. Gains (D.read_names classes.old) (D.read_names classes.new) (map string_bytes names.now)) }
    ensures front { ReadsFront (map string_bytes names.now) (D.read_names classes.old) (D.read_names classes.new) }
{
    let mut files = Vec::new(alloc);
    for name in names {
        files.push(classes.read(alloc, dir, name.as_str())?)?;
    }
    Ok(files)
}
