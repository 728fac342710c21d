//! The walk through a class file (JVMS 4.1).

ghost use Rattle.std.specs.Prelude.{◌≡◌, Ok, Err, IfOk};
ghost use Rattle.class_walk.specs.declared.class.RawClass.{RawClass};
ghost use Rattle.class_walk.specs.declared.refusal.WalkFault.{WalkFault};
ghost use Rattle.class_walk.specs.Layout.{IsClassFile};
ghost use Rattle.class_walk.specs.Reading.{Gives, GivesAndLeaves, GivesExactly, PassesTo, magic_at, versions_at, head_at, rest_at, head_of, walk_of};

use crate::class::RawClass;
use crate::cursor::Cursor;
use crate::members::{attributes, interfaces, members};
use crate::pool::pool;
use crate::refusal::{WalkFault, WalkRefusal};
use std::alloc::Global;

/// The most bytes that a class file may have.
pub const MOST_BYTES: usize = 1_048_576;

/// The first four bytes of each class file.
const MAGIC: u32 = 0xCAFE_BABE;

#[tactic(auto, unfolding(crate::specs::Reading::magic_at))]
fn magic(cursor: &mut Cursor<'_>) -> Result<(), WalkRefusal>
    ensures { PassesTo result cursor.new (magic_at cursor.old) }
{
    if cursor.u32()? != MAGIC {
        return Err(WalkRefusal::Fault(WalkFault::Magic));
    }
    Ok(())
}

/// The minor version, and the major one.
#[tactic(auto, unfolding(crate::specs::Reading::versions_at))]
fn versions(cursor: &mut Cursor<'_>) -> Result<(u16, u16), WalkRefusal>
    ensures { GivesExactly result cursor.new (versions_at cursor.old) }
{
    let minor = cursor.u16()?;
    let major = cursor.u16()?;
    if major < 50 || major > 52 {
        return Err(WalkRefusal::Fault(WalkFault::Version));
    }
    Ok((minor, major))
}

/// The magic number and the versions.
#[tactic(auto, unfolding(crate::specs::Reading::head_at))]
fn head(cursor: &mut Cursor<'_>) -> Result<(u16, u16), WalkRefusal>
    ensures { GivesExactly result cursor.new (head_at cursor.old) }
{
    magic(cursor)?;
    versions(cursor)
}

/// What comes after the minor and the major version.
#[tactic(auto, unfolding(crate::specs::Reading::rest_at))]
fn rest(
    alloc: Global,
    versions: (u16, u16),
    cursor: &mut Cursor<'_>,
) -> Result<RawClass, WalkRefusal>
    ensures { GivesAndLeaves result cursor.new (rest_at versions cursor.old) }
{
    let (minor, major) = versions;
    let pool = pool(alloc, cursor)?;
    let flags = cursor.u16()?;
    let this_class = cursor.u16()?;
    let super_class = cursor.u16()?;
    let interfaces = interfaces(alloc, cursor)?;
    let fields = members(alloc, cursor)?;
    let methods = members(alloc, cursor)?;
    let attributes = attributes(alloc, cursor)?;
    Ok(RawClass {
        minor,
        major,
        pool,
        flags,
        this_class,
        super_class,
        interfaces,
        fields,
        methods,
        attributes,
    })
}

#[tactic(auto, unfolding(crate::specs::Reading::walk_of, crate::specs::Reading::class_at, crate::specs::Reading::ended, crate::specs::Reading::head_of))]
fn whole(alloc: Global, bytes: &[u8]) -> Result<RawClass, WalkRefusal>
    ensures exact { Gives result (walk_of bytes.now) }
    ensures head { (f : WalkFault) → head_of bytes.now ≡ Err f → result ≡ Err (WalkRefusal.Fault f) }
{
    if bytes.len() > MOST_BYTES {
        return Err(WalkRefusal::Fault(WalkFault::TooLong));
    }
    let mut cursor = Cursor::new(bytes);
    let versions = head(&mut cursor)?;
    let class = rest(alloc, versions, &mut cursor)?;
    cursor.end()?;
    Ok(class)
}

/// Takes a class file apart by its counts and lengths alone.
///
/// The fault is the first one from the front: each is met as soon as the bytes that show it are there.
/// `NoMemory` may come anywhere after the versions.
pub fn walk(alloc: Global, bytes: &[u8]) -> Result<RawClass, WalkRefusal>
    // What is read is spelled so, each byte of it.
    ensures found { IfOk result (λ c. IsClassFile bytes.now c) }
    // What is spelled so is read, unless memory runs out.
    ensures only { (c : RawClass) → IsClassFile bytes.now c → Gives result (Ok c) }
    // Which fault it is.
    ensures exact { Gives result (walk_of bytes.now) }
    // A fault of the length, the magic number or the versions is refused before memory is taken.
    ensures head { (f : WalkFault) → head_of bytes.now ≡ Err f → result ≡ Err (WalkRefusal.Fault f) }
{
    whole(alloc, bytes)
}
