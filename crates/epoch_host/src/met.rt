//! Limits that threads meet.

ghost use Rattle.std.specs.Prelude.{◌≡◌, ◌⊎◌, Some, IfSome};

use op_core::Limit;

/// A limit, and the number of the thread that has met it.
#[derive(Clone, Copy)]
pub(crate) struct MetLimit {
    pub(crate) thread: u8,
    pub(crate) limit: Limit,
}

/// The one of the thread with the lower number.
pub(crate) fn lower(one: Option<MetLimit>, other: Option<MetLimit>) -> Option<MetLimit>
    ensures { IfSome result (λ met. (one ≡ Some met) ⊎ (other ≡ Some met)) }
{
    match (one, other) {
        (Some(met), Some(also)) if met.thread <= also.thread => Some(met),
        (Some(met), None) => Some(met),
        _ => other,
    }
}
