//! What a made pool is.

ghost use Rattle.std.specs.Prelude.{ℕ, List, [], ◌∷◌};
ghost use Rattle.class_walk.specs.declared.class.Constant.{Constant};
ghost use Rattle.class_walk.specs.declared.class.Constant.TheVariants.{Gap};
ghost use Rattle.class_walk.specs.Layout.{IsPool};
ghost use Rattle.assembler_pool.specs.Indexed.{IsMade, AreDifferent};
ghost use Rattle.assembler_pool.specs.Items.{Item, use_of, IsItemAt};
ghost use Rattle.assembler_pool.specs.Uses.{Extends, HasRoom};

/// A used item is at the index that the use gives, and its parts are at the indices that it names.
pub fn items_are_at_their_indices()
    ensures { (item : Item) (pool : List Constant) → IsItemAt (use_of item pool).0 (use_of item pool).1 item }
{}

/// Later uses leave it there.
pub fn items_stay_at_their_indices()
    ensures grows { (item : Item) (pool : List Constant) → Extends pool (use_of item pool).0 }
    ensures stays { (item : Item) (old new : List Constant) (index : ℕ) → Extends old new → IsItemAt old index item → IsItemAt new index item }
{}

/// The entries are different, and stay so.
pub fn entries_are_different()
    ensures { (item : Item) (pool : List Constant) → AreDifferent pool → AreDifferent (use_of item pool).0 }
{}

/// A pool that begins with no entry, and to which items are added for which a class file has room, is one that a
/// class file can hold.
pub fn made_pools_are_pools()
    ensures first { IsMade (Gap ∷ []) }
    ensures next { (item : Item) (pool : List Constant) → IsMade pool → HasRoom (use_of item pool).0 → IsMade (use_of item pool).0 }
    ensures pool { (pool : List Constant) → IsMade pool → IsPool pool }
{}
