//! The methods of a class as rows.

ghost use Rattle.std.specs.Prelude.{◌≡◌, IfOk, map};
ghost use Rattle.method_table.specs.Rows.{body_of_row, method_row};

use crate::natives::native_of;
use access_flags::{ABSTRACT, has};
use link_types::MethodBody;
use member_table::MemberRow;
use std::alloc::{AllocError, Global};

/// A method as its callers see it.
#[derive(Clone, Copy)]
pub struct MethodRow {
    /// The access flags (JVMS 4.6).
    pub flags: u16,
    /// The number of the descriptor's text.
    pub kind: u32,
    pub body: MethodBody,
}

/// What a call of a method executes.
fn body_of(member: &MemberRow) -> MethodBody
    ensures { result ≡ body_of_row member.now }
{
    if has(member.flags, ABSTRACT) {
        return MethodBody::Abstract;
    }
    match native_of(member.class, member.place) {
        Some(native) => MethodBody::Native(native),
        None => MethodBody::Code,
    }
}

/// The rows of some methods.
pub fn method_rows(alloc: Global, members: &[MemberRow]) -> Result<Vec<MethodRow>, AllocError>
    ensures { IfOk result (λ rows. rows.items ≡ map method_row members.now) }
{
    let mut rows = Vec::new(alloc);
    for member in members {
        rows.push(MethodRow {
            flags: member.flags,
            kind: member.descriptor,
            body: body_of(member),
        })?;
    }
    Ok(rows)
}
