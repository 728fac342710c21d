//! A relation of classes.

/// Says which class is below which one, by the numbers of classes.
pub trait ClassRelation {
    ghost use Rattle.std.specs.Prelude.{◌≡◌, ℕ, Bool};

    /// The relation.
    ghost is_below: { Self → ℕ → ℕ → Bool };

    /// Tests whether the first class is below the second one. Takes no memory.
    fn is_class_below(&self, low: u32, high: u32) -> bool
        ensures { result ≡ is_below self.now low high };
}
