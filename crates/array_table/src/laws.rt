//! What the numbers are to descriptors.

ghost use Rattle.std.specs.Prelude.{◌≡◌, ℕ, List, Some, map, length, slice_get, bytes_eq};
ghost use Rattle.std.specs.List.{position_from};
ghost use Rattle.array_order.specs.Order.{AreBases, array_text, arrays_in_order};
ghost use Rattle.array_table.specs.Places.{places_in_order, number_in};
ghost use Rattle.array_table.specs.Descriptors.{descriptor_at};

/// Arrays in order have the descriptors in order, and the number of an array is the place of its descriptor among
/// them.
pub fn numbers_are_places_of_descriptors()
    ensures descriptors { (bases : List (List ℕ)) (most : List ℕ) → length most ≡ length bases →
        arrays_in_order bases most ≡ map (descriptor_at bases) (places_in_order most) }
    ensures numbers { (bases : List (List ℕ)) (most : List ℕ) (base : List ℕ) (d i : ℕ) → AreBases bases → length most ≡ length bases →
        slice_get bases i ≡ Some base → position_from (bytes_eq (array_text d base)) 0 (arrays_in_order bases most) ≡ number_in (places_in_order most) d i }
{}
