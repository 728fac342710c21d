//! What the changes of lists are to the lists of which the rules speak. Each function does nothing: its contract is the
//! law.

ghost use Rattle.std.specs.Prelude.{◌≡◌, ◌+◌, ◌-◌, ◌<◌, ℕ, suc, ◌∷◌, drop, length, slice_index_or, slice_set};
ghost use Rattle.type_rules.specs.declared.types.VerificationType.{VerificationType};
ghost use Rattle.type_rules.specs.declared.types.VerificationType.TheVariants.{Top};
ghost use Rattle.type_rules.specs.Environment.{padded};
ghost use Rattle.type_rules.specs.FrameAfter.{replaced_types};
ghost use Rattle.type_lists.specs.Parts.{replaced_type, with_word};
ghost use Rattle.type_lists.specs.Shown.{first_words, stack_words, EndsBy};

/// Locals that are read, set, replaced and padded.
pub fn locals_are_words()
    ensures count { (f : ℕ → VerificationType) (count : ℕ) → length (first_words f count) ≡ count }
    ensures read { (f : ℕ → VerificationType) (count n : ℕ) → EndsBy f count → slice_index_or (first_words f count) n Top ≡ f n }
    ensures set { (f : ℕ → VerificationType) (count n : ℕ) (word : VerificationType)
        → first_words (with_word f n word) count ≡ slice_set (first_words f count) n word }
    ensures replaced { (f : ℕ → VerificationType) (count : ℕ) (old new : VerificationType)
        → first_words (λ n. replaced_type old new (f n)) count ≡ replaced_types old new (first_words f count) }
    ensures padded { (f : ℕ → VerificationType) (count size : ℕ) → EndsBy f count
        → padded size (first_words f count) ≡ first_words f size }
{}

/// Stacks that are read, on which words are put, and from which words are taken.
pub fn stacks_are_words()
    ensures depth { (f : ℕ → VerificationType) (depth : ℕ) → length (stack_words f depth) ≡ depth }
    ensures read { (f : ℕ → VerificationType) (depth n : ℕ) → n < depth
        → slice_index_or (stack_words f depth) n Top ≡ f (depth - suc n) }
    ensures put { (f : ℕ → VerificationType) (depth : ℕ) (word : VerificationType)
        → stack_words (with_word f depth word) (suc depth) ≡ word ∷ stack_words f depth }
    ensures taken { (f : ℕ → VerificationType) (depth n : ℕ) → drop n (stack_words f (n + depth)) ≡ stack_words f depth }
    ensures replaced { (f : ℕ → VerificationType) (depth : ℕ) (old new : VerificationType)
        → stack_words (λ n. replaced_type old new (f n)) depth ≡ replaced_types old new (stack_words f depth) }
{}
