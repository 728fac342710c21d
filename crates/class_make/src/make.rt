//! The class of a text.

ghost use Rattle.std.specs.Prelude.{◌≡◌, ◌≤◌, ◌+◌, ℕ, List, Result, Ok, Err, IfOk, length};
ghost use Rattle.class_write.specs.Writable.{IsWritable};
ghost use Rattle.assembler_text.specs.TextLines.{most_bytes};
ghost use Rattle.assembler_bodies.specs.Making.{Finds};
ghost use Rattle.class_make.specs.Assembly.{Answers, assembled, finished, refusal_at, spelled};
ghost use Rattle.class_make.specs.States.{state_of};
ghost use Rattle.class_make.specs.Texts.{IsAssembled, front};
ghost use Rattle.class_make.specs.declared.refusal.MakeRefusal.TheVariants as refusals;

use crate::class::superclass;
use crate::refusal::MakeRefusal;
use crate::state::{State, step};
use assembler_bodies::BodyRefusal;
use assembler_pool::PoolMaker;
use assembler_text::{MOST_BYTES, Numbered, lines_of};
use class_walk::RawClass;
use class_write::write_class;
use rows::Rows;
use std::alloc::Global;

/// The newest version of class files (JVMS 4.1).
const MAJOR: u16 = 52;

/// The class at the end of a text.
fn finish(alloc: Global, mut pool: PoolMaker, state: State) -> Result<RawClass, BodyRefusal>
    ensures found { Finds (λ class. class) result (finished (state_of state) pool) }
    ensures written { IfOk result IsWritable }
{
    let State::Outside(class) = state else {
        return Err(BodyRefusal::Refused);
    };
    let super_class = superclass(&mut pool, class.super_class)?;
    Ok(RawClass {
        minor: 0,
        major: MAJOR,
        pool: pool.into_entries(),
        flags: class.flags,
        this_class: class.this_class,
        super_class,
        interfaces: class.interfaces,
        fields: class.fields,
        methods: class.methods,
        attributes: Rows::new(alloc),
    })
}

/// A line that is refused.
fn at_line(number: u32, refusal: BodyRefusal) -> MakeRefusal
    ensures { result ≡ refusal_at number refusal }
{
    match refusal {
        BodyRefusal::Refused => MakeRefusal::Line(number),
        BodyRefusal::NoMemory => MakeRefusal::NoMemory,
    }
}

/// The bytes of the class at the end of a text, given the number of the line after the last.
fn class_bytes(
    alloc: Global,
    pool: PoolMaker,
    state: State,
    behind: u32,
) -> Result<Vec<u8>, MakeRefusal>
    ensures { Answers result (λ bytes. bytes.items) (spelled behind (finished (state_of state) pool)) }
{
    match finish(alloc, pool, state) {
        Ok(class) => {
            let bytes = write_class(alloc, &class)?;
            Ok(bytes)
        }
        Err(refusal) => Err(at_line(behind, refusal)),
    }
}

/// The bytes of the class file of some lines, given the number of the line after the last.
fn class_of_lines(alloc: Global, lines: &[Numbered], behind: u32) -> Result<Vec<u8>, MakeRefusal>
    ensures { Answers result (λ bytes. bytes.items) (assembled behind lines.now) }
{
    let mut pool = PoolMaker::new(alloc)?;
    let mut state = State::BeforeClass;
    let mut rest = lines;
    while let Some((numbered, others)) = rest.split_first() {
        state = step(alloc, &mut pool, state, numbered, others).map_err(|refusal| at_line(
            numbered.number,
            refusal,
        ))?;
        rest = others;
    }
    class_bytes(alloc, pool, state, behind)
}

/// The bytes of a text that are looked at: one more than a text has at most.
fn front(text: &[u8]) -> &[u8]
    ensures value { result.now ≡ front text.now }
    ensures bound { length result.now ≤ most_bytes + 1 }
{
    if text.len() <= MOST_BYTES {
        return text;
    }
    let (front, _) = text.split_at(MOST_BYTES + 1);
    front
}

/// The class file (JVMS 4.1) that an assembler's text stands for, as bytes. The text is ASCII, one item a line. `Line`
/// comes exactly where the text stands for no class file: with the number of the first line that is not allowed there,
/// that names a label that is absent, that makes a number, the pool, the code or the text too large, or that has a byte
/// above 127; or with the number of the line after the last where the class or the end of a body is missing. `NoMemory`
/// comes when memory runs out.
pub fn assemble(alloc: Global, text: &[u8]) -> Result<Vec<u8>, MakeRefusal>
    ensures made { IfOk result (λ bytes. IsAssembled text.now (Ok bytes.items)) }
    ensures line { (number : ℕ) → result ≡ Err (refusals.Line number) → IsAssembled text.now (Err number) }
    // There is no other answer.
    ensures only { (answer : Result (List ℕ) ℕ) → IsAssembled text.now answer → Answers result (λ bytes. bytes.items) answer }
{
    let Ok(lines) = lines_of(alloc, front(text)) else {
        return Err(MakeRefusal::NoMemory);
    };
    class_of_lines(alloc, lines.lines.as_slice(), lines.behind)
}

/// What [`assemble`] makes of the bytes of a text.
pub fn make_class(alloc: Global, text: &str) -> Result<Vec<u8>, MakeRefusal>
    ensures made { IfOk result (λ bytes. IsAssembled text.now (Ok bytes.items)) }
    ensures line { (number : ℕ) → result ≡ Err (refusals.Line number) → IsAssembled text.now (Err number) }
    ensures only { (answer : Result (List ℕ) ℕ) → IsAssembled text.now answer → Answers result (λ bytes. bytes.items) answer }
{
    assemble(alloc, text.as_bytes())
}
