//! Lists that grow.

ghost use Rattle.std.specs.Prelude.{◌≡◌, [], ◌∷◌, ◌++◌, OnOk};

use op_core::NoMemory;

/// Puts the item at the end of the list.
pub(crate) fn push<T: Drop>(list: &mut Vec<T>, item: T) -> Result<(), NoMemory>
    ensures { OnOk result (list.new.items ≡ list.old.items ++ item ∷ []) }
{
    list.reserve(1)?;
    list.push_reserved(item);
    Ok(())
}
