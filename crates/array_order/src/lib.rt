//! The order in which array classes are numbered (JVMS SE 8, 4.3.2: descriptors).
#![tactic(auto)]

ghost use Rattle.std.specs.Prelude.{◌≡◌, ◌≤◌, ◌*◌, ℕ, List, flat_map, length};
ghost use Rattle.link_rules.specs.Arrays.{with_elements, in_order};
ghost use Rattle.array_order.specs.Order.{AreBases, AreMost, arrays_in_order};

/// Array descriptors in the order of their bytes, with those of their elements, are the arrays by dimensions and then
/// by their bases in order. There are at most 255 for each base.
pub fn arrays_stand_in_order()
    ensures order { (roots bases : List (List ℕ)) (most : List ℕ) → AreBases bases → AreMost roots bases most →
        in_order (flat_map with_elements roots) ≡ arrays_in_order bases most }
    ensures few { (bases : List (List ℕ)) (most : List ℕ) → length (arrays_in_order bases most) ≤ 255 * length bases }
{}
