//! Tests of load: what it says of a folder of class files, and which files are refused.

use jrev_cases::{File, NO_FAULTS, ONE_FILE, SUM, Seen, owned_files, run_over};
use std::alloc::Global;
use std::test::Fail;
use std::thread::Threads;

/// A class whose main method returns.
const MAIN: File = File::Text(
    "Main.class",
    "class Main
method 9 main ([Ljava/lang/String;)V stack 0 locals 1
return
end
",
);

/// A class below one that isn't there.
const BELOW_GONE: File = File::Text("Low.class", "class Low\nsuper Gone\n");

/// A class whose second method returns nothing in place of an int.
const WRONG_RETURN: File = File::Text(
    "Low.class",
    "class Low
method 9 a ()V stack 0 locals 0
return
end
method 9 b ()I stack 0 locals 0
nop
return
end
",
);

/// `new B(c ? 1 : 2)`, with an object in two stack map frames that isn't initialized.
pub const CONDITIONAL: File = File::Text(
    "A.class",
    "class A
method 9 make (I)LB; stack 4 locals 1
n:
new B
dup
iload_0
ifeq zero
iconst_1
goto made
zero:
frame int / new:n new:n
iconst_2
made:
frame int / new:n new:n int
invokespecial B <init> (I)V
areturn
end
method 9 main ([Ljava/lang/String;)V stack 0 locals 1
return
end
",
);

/// The class of the objects that it makes.
pub const B: File = File::Text(
    "B.class",
    "class B
method 1 <init> (I)V stack 1 locals 2
aload_0
invokespecial java/lang/Object <init> ()V
return
end
",
);

/// A run of `load`, and what is wanted of it.
pub struct Load {
    pub main: &'static str,
    pub files: &'static [File],
    pub status: u8,
    pub out: &'static str,
    pub err: &'static str,
}

const LOADED: [Load; 13] = [
    Load {
        main: "One",
        files: &[SUM],
        status: 0,
        out: "accepted 1\n",
        err: "",
    },
    // A float and an invokedynamic that nothing uses.
    Load {
        main: "One",
        files: &[File::Pooled("One.class", &[177])],
        status: 0,
        out: "accepted 1\n",
        err: "",
    },
    Load {
        main: "A",
        files: &[B, CONDITIONAL],
        status: 0,
        out: "accepted 2\n",
        err: "",
    },
    // Names that aren't those of class files, and one that isn't its class's.
    Load {
        main: "One",
        files: &[
            File::Other("readme", b""),
            File::Other(".class", b"any"),
            File::One("other.class", &[177]),
        ],
        status: 0,
        out: "accepted 1\n",
        err: "",
    },
    Load {
        main: "One",
        files: &[File::Pooled("F.class", &[186, 0, 21, 0, 0, 177])],
        status: 3,
        out: "",
        err: "refused: code F.class 2 0 0\n",
    },
    Load {
        main: "One",
        files: &[],
        status: 4,
        out: "",
        err: "no main\n",
    },
    Load {
        main: "Two",
        files: &[SUM],
        status: 4,
        out: "",
        err: "no main\n",
    },
    Load {
        main: "B",
        files: &[B, CONDITIONAL],
        status: 4,
        out: "",
        err: "no main\n",
    },
    Load {
        main: "a.Main",
        files: &[MAIN],
        status: 4,
        out: "",
        err: "no main\n",
    },
    Load {
        main: "Main",
        files: &[BELOW_GONE, MAIN],
        status: 3,
        out: "",
        err: "refused: link Low.class 2 0 4\n",
    },
    Load {
        main: "Main",
        files: &[MAIN, WRONG_RETURN],
        status: 3,
        out: "",
        err: "refused: verify Low.class 9 1 1\n",
    },
    // All files are read before the code of any is decoded.
    Load {
        main: "One",
        files: &[
            File::Pooled("A.class", &[186, 0, 21, 0, 0, 177]),
            File::Other("b.class", b"any"),
            File::Other("C.class", b"any"),
        ],
        status: 3,
        out: "",
        err: "refused: read C.class 3 0 3\n",
    },
    // What is refused has no main method that is looked for.
    Load {
        main: "Two",
        files: &[File::Other("b.class", b"any")],
        status: 3,
        out: "",
        err: "refused: read b.class 3 0 3\n",
    },
];

/// Whether `load` says of the files what is wanted.
pub fn is_loaded<R: Threads + Sync>(rt: &R, alloc: Global, load: &Load) -> Result<bool, Fail> {
    let files = owned_files(rt, alloc, load.files)?;
    let seen = run_over(rt, alloc, &["load", "D", load.main], files, "", NO_FAULTS)?;
    Ok(
        seen.status == load.status
            && seen.out.as_slice() == load.out.as_bytes()
            && seen.err.as_slice() == load.err.as_bytes(),
    )
}

#[test]
fn what_load_says_of_a_folder(rt: HostRuntime) -> Result<(), Fail> {
    for load in &LOADED {
        assert!(rt; is_loaded(&rt, rt.alloc(), load)?);
    }
    Ok(())
}

/// Loads the class One of a file with these bytes.
fn load_bytes<R: Threads + Sync>(rt: &R, alloc: Global, bytes: Vec<u8>) -> Result<Seen, Fail> {
    let mut files = Vec::new(alloc);
    files.push((String::from_str(alloc, "One.class")?, bytes))?;
    run_over(rt, alloc, &["load", "D", "One"], files, "", NO_FAULTS)
}

fn is_refused(seen: &Seen, line: &str) -> bool {
    seen.status == 3 && seen.out.is_empty() && seen.err.as_slice() == line.as_bytes()
}

#[test]
fn a_file_that_is_cut_is_refused(rt: HostRuntime) -> Result<(), Fail> {
    for size in 0..ONE_FILE.len() {
        let bytes = Vec::from_slice(rt.alloc(), &ONE_FILE[..size])?;
        let seen = load_bytes(&rt, rt.alloc(), bytes)?;
        let line = format!(in rt.alloc(); "refused: read One.class 3 0 {size}\n")?;
        assert!(rt; is_refused(&seen, line.as_str()));
    }
    Ok(())
}

#[test]
fn a_byte_behind_the_last_attribute_is_refused(rt: HostRuntime) -> Result<(), Fail> {
    let size = ONE_FILE.len();
    let mut bytes = Vec::from_slice(rt.alloc(), &ONE_FILE[..size - 2])?;
    bytes.extend_from_slice(&[0, 1, 0, 7, 0, 0, 0, 1, 0, 0])?;
    let seen = load_bytes(&rt, rt.alloc(), bytes)?;
    let place = size + 7;
    let line = format!(in rt.alloc(); "refused: read One.class 8 0 {place}\n")?;
    assert!(rt; is_refused(&seen, line.as_str()));
    Ok(())
}

/// The files of a folder, which are no class files, with names from `1000.class` on.
fn many(alloc: Global, end: u32) -> Result<Vec<(String, Vec<u8>)>, Fail> {
    let mut files = Vec::new(alloc);
    for number in 1000..end {
        let name = format!(in alloc; "{number}.class")?;
        files.push((name, Vec::from_slice(alloc, b"any")?))?;
    }
    Ok(files)
}

/// 1,024 files are read; with more, the refusal names the last one that is read, and none is looked into.
const MANY: [(u32, &str); 3] = [
    (2024, "refused: read 1000.class 3 0 3\n"),
    (2025, "refused: link 2024.class 13 0 0\n"),
    (2026, "refused: link 2024.class 13 0 0\n"),
];

#[test]
fn too_many_files_are_refused(rt: HostRuntime) -> Result<(), Fail> {
    for (end, line) in &MANY {
        let files = many(rt.alloc(), *end)?;
        let seen = run_over(&rt, rt.alloc(), &["load", "D", "One"], files, "", NO_FAULTS)?;
        assert!(rt; is_refused(&seen, line));
    }
    Ok(())
}
