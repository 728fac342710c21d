//! Tests that were made before.

ghost use Rattle.std.specs.Prelude.{◌≡◌, ℕ, true, IfOk};
ghost use Rattle.link_rules.specs.Classes.{NamedMember, classes_of};
ghost use Rattle.link_rules.specs.Members.{signature_of};
ghost use Rattle.class_texts.specs.Texts.{ProgramTexts};
ghost use Rattle.member_lookup.specs.Found.{HaveNumbers};
ghost use Rattle.link_members.specs.Members.{is_answered};
ghost use Rattle.link_implementations.specs.Tested.{AreTested, IsTested};

use builtin_world::builtins;
use code_decode::ClassUnit;
use link_members::Asked;
use member_table::MemberRow;
use std::alloc::{AllocError, Global};

/// A class that answers the methods of a name and a descriptor as asked.
#[derive(Clone, Copy)]
pub struct Tested {
    pub asked: Asked,
    /// The number of the class.
    pub class: u32,
    /// The number of the name's text; 0 where nothing was tested.
    pub name: u32,
    /// The number of the descriptor's text.
    pub descriptor: u32,
}

/// The last test of each signature that went well, at the place of the first method that has it.
#[derive(Drop)]
pub struct Memo {
    /// For each class the place of its first method among those of all classes.
    starts: Vec<usize>,
    tested: Vec<Tested>,
}

/// No test.
fn none() -> Tested
    ensures { (p : ProgramTexts) → IsTested p result }
{
    Tested {
        asked: Asked::Public,
        class: 0,
        name: 0,
        descriptor: 0,
    }
}

fn is_same(asked: Asked, other: Asked) -> bool
    ensures { result ≡ true → asked ≡ other }
{
    match (asked, other) {
        (Asked::Implemented, Asked::Implemented) | (Asked::Public, Asked::Public) => true,
        _ => false,
    }
}

/// Whether a test was one of this class and the signature of this method.
fn is_test(tested: &Tested, asked: Asked, class: u32, method: &MemberRow) -> bool
    ensures { result ≡ true → tested.now ≡ record { asked = asked; class = class; name = method.now.name; descriptor = method.now.descriptor } }
{
    is_same(tested.asked, asked)
        && tested.class == class
        && tested.name == method.name
        && tested.descriptor == method.descriptor
}

/// For each class the place of its first method among those of all classes.
fn method_starts(alloc: Global, units: &[ClassUnit]) -> Result<(Vec<usize>, usize), AllocError> {
    let mut starts = Vec::new(alloc);
    let mut count = 0usize;
    starts.push(count)?;
    for class in builtins() {
        starts.push(count)?;
        count = count.saturating_add(class.methods.len());
    }
    for unit in units {
        starts.push(count)?;
        count = count.saturating_add(unit.file.methods.len());
    }
    Ok((starts, count))
}

fn no_tests(alloc: Global, count: usize) -> Result<Vec<Tested>, AllocError>
    ensures { IfOk result (λ tested. (p : ProgramTexts) → AreTested p tested.items) }
{
    let mut tested = Vec::new(alloc);
    for _ in 0..count {
        tested.push(none())?;
    }
    Ok(tested)
}

impl Memo {
    /// No tests.
    pub fn new(alloc: Global, units: &[ClassUnit]) -> Result<Self, AllocError>
        ensures { IfOk result (λ memo. (p : ProgramTexts) → AreTested p memo.tested.items) }
    {
        let (starts, count) = method_starts(alloc, units)?;
        let tested = no_tests(alloc, count)?;
        Ok(Memo { starts, tested })
    }

    /// The place of a method among those of all classes.
    fn place(&self, method: &MemberRow) -> usize {
        match self.starts.get(method.class as usize) {
            Some(start) => start.saturating_add(usize::from(method.place)),
            None => 0,
        }
    }

    /// Whether a class was tested with the signature of a method, which is the first that has it.
    pub fn knows(&self, asked: Asked, class: u32, method: &MemberRow) -> bool
        ensures { result ≡ true → (p : ProgramTexts) → AreTested p self.now.tested.items → IsTested p (record { asked = asked; class = class; name = method.now.name; descriptor = method.now.descriptor }) }
    {
        match self.tested.get(self.place(method)) {
            Some(tested) => is_test(tested, asked, class, method),
            None => false,
        }
    }

    /// Keeps a test that went well.
    pub fn keep(&mut self, tested: Tested, method: &MemberRow)
        ensures { (p : ProgramTexts) → AreTested p self.old.tested.items → IsTested p tested → AreTested p self.new.tested.items }
    {
        let place = self.place(method);
        if place < self.tested.len() {
            self.tested[place] = tested;
        }
    }
}
