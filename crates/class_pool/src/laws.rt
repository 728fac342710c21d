//! What is found at an index is what is there.

ghost use Rattle.std.specs.Prelude.{◌≡◌, ◌↔◌, ℕ, List, Some, slice_get};
ghost use Rattle.class_walk.specs.declared.class.Constant.{Constant};
ghost use Rattle.class_pool.specs.Pool.{IsUtf8At, IsClassAt, IsPairAt};
ghost use Rattle.class_pool.specs.Lookup.{utf8_of, class_name_of, name_and_type_of};

/// What is found by going from entry to entry is what is there, and what is there is found.
pub fn what_stands_there_is_found()
    ensures utf8 { (pool : List Constant) (index : ℕ) (text : List ℕ) →
        (utf8_of (slice_get pool index) ≡ Some text) ↔ IsUtf8At pool index text }
    ensures class { (pool : List Constant) (index : ℕ) (name : List ℕ) →
        (class_name_of pool (slice_get pool index) ≡ Some name) ↔ IsClassAt pool index name }
    ensures name_and_type { (pool : List Constant) (index : ℕ) (name descriptor : List ℕ) →
        (name_and_type_of pool (slice_get pool index) ≡ Some (name, descriptor)) ↔ IsPairAt pool index name descriptor }
{}
