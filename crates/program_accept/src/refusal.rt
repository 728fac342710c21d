//! Why a program isn't accepted.

ghost use Rattle.std.specs.Prelude.{◌≡◌};
ghost use Rattle.program_accept.specs.declared.refusal.AcceptRefusal.TheVariants as refusals;
ghost use Rattle.program_accept.specs.Refusals as told;

use class_pool::ReadRefusal;
use code_decode::{CodeAt, CodeRefusal};
use link_types::{LinkKind, LinkRefusal};
use std::alloc::{AllocError, AllocFailed};
use type_rules::VerifyRefusal;

/// The part of loading that refuses a program.
#[derive(Clone, Copy)]
pub enum Stage {
    /// A file is no class file (JVMS 4.1 to 4.9).
    Read,
    /// The code of a method isn't well formed (JVMS 4.9.1), or has an instruction that isn't executed here.
    Code,
    /// The classes don't fit together (JVMS 5.3 to 5.5).
    Link,
    /// A method isn't type safe (JVMS 4.10.1).
    Verify,
}

/// The first rule that a program breaks, by numbers.
#[derive(Clone, Copy)]
pub struct Refusal {
    pub stage: Stage,
    /// The place of the file among the files, from 0; 1,024 where there are too many.
    pub class: u32,
    /// The number of the kind of refusal, in its stage.
    pub number: u8,
    /// The place of the method among the methods of its class, from 0; 0 where the refusal is of no method.
    pub method: u16,
    /// Where in the file, in the constant pool or in the code it is, as the stage says; 0 where the stage gives no
    /// place.
    pub place: u32,
}

/// Why a program wasn't accepted.
#[derive(Clone, Copy)]
pub enum AcceptRefusal {
    /// There was no memory.
    NoMemory,
    /// A rule is broken.
    Refused(Refusal),
    /// The files keep all rules, and none of them is of the named class and declares a static method `main` with a
    /// parameter of type `String[]` and no result.
    NoMain,
}

impl From<AllocError> for AcceptRefusal {
    ghost from_gives = { λ _ e. e ≡ refusals.NoMemory };

    fn from(_error: AllocError) -> Self {
        AcceptRefusal::NoMemory
    }
}

impl<T: Drop> From<AllocFailed<T>> for AcceptRefusal {
    ghost from_gives = { λ _ e. e ≡ refusals.NoMemory };

    fn from(_error: AllocFailed<T>) -> Self {
        AcceptRefusal::NoMemory
    }
}

fn refused(stage: Stage, class: u32, number: u8, method: u16, place: u32) -> AcceptRefusal
    ensures { result ≡ told.refused stage class number method place }
{
    AcceptRefusal::Refused(Refusal {
        stage,
        class,
        number,
        method,
        place,
    })
}

/// There are more than 1,024 files.
pub(crate) fn too_many() -> AcceptRefusal
    ensures { result ≡ told.too_many }
{
    refused(Stage::Link, 1024, LinkKind::TooMany.number(), 0, 0)
}

/// The refusal of the file at a place, which is no class file.
pub(crate) fn read_refused(file: u32, refusal: ReadRefusal) -> AcceptRefusal
    ensures { result ≡ told.read_refused file refusal }
{
    match refusal {
        ReadRefusal::NoMemory => AcceptRefusal::NoMemory,
        _ => refused(Stage::Read, file, refusal.number(), 0, refusal.place()),
    }
}

/// The refusal of the code of the file at a place.
pub(crate) fn code_refused(file: u32, at: CodeAt) -> AcceptRefusal
    ensures { result ≡ told.code_refused file at }
{
    match at.refusal {
        CodeRefusal::NoMemory => AcceptRefusal::NoMemory,
        _ => refused(
            Stage::Code,
            file,
            at.refusal.number(),
            at.method,
            at.refusal.place(),
        ),
    }
}

pub(crate) fn link_refused(refusal: LinkRefusal) -> AcceptRefusal
    ensures { result ≡ told.link_refused refusal }
{
    match refusal {
        LinkRefusal::NoMemory => AcceptRefusal::NoMemory,
        LinkRefusal::At { kind, class, place } => {
            refused(Stage::Link, class, kind.number(), 0, u32::from(place))
        }
    }
}

pub(crate) fn verify_refused(refusal: VerifyRefusal) -> AcceptRefusal
    ensures { result ≡ told.verify_refused refusal }
{
    match refusal {
        VerifyRefusal::NoMemory => AcceptRefusal::NoMemory,
        VerifyRefusal::At {
            kind,
            class,
            method,
            place,
        } => refused(Stage::Verify, class, kind.number(), method, place),
    }
}
