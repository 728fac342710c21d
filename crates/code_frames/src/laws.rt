//! Laws of the definitions that contracts cite.

ghost use Rattle.std.specs.Prelude.{◌≡◌, ℕ, List, Some, length, map, slice_get};
ghost use Rattle.std.specs.List.Sorted.{IsStrictlyIncreasing};
ghost use Rattle.class_walk.specs.declared.class.Constant.{Constant};
ghost use Rattle.instructions.specs.declared.what.Instr.{Instr};
ghost use Rattle.instructions.specs.declared.what.Target.{Target};
ghost use Rattle.code_frames.specs.declared.types.VType.{VType};
ghost use Rattle.code_frames.specs.declared.types.MapFrame.{MapFrame};
ghost use Rattle.code_frames.specs.Locals.{entry_locals, locals_after};
ghost use Rattle.code_frames.specs.StackMap.{entry, behind, IsStackMap, IsFirstBadFrame};

/// The number of locals that reading keeps is that of the locals that the frames stand for, whatever the
/// types at the method's entry.
pub fn locals_are_counted()
    ensures entry { (widths : List ℕ) (first : ℕ) → length (entry_locals first widths) ≡ length widths }
    ensures frames { (locals : List VType) (frames : List MapFrame) →
        (behind (entry (length locals)) frames).locals ≡ length (locals_after locals frames) }
{}

/// The frames of a table are at ever later offsets, and no two are at the same instruction.
pub fn frames_rise()
    ensures offsets { (pool : List Constant) (steps : List (Instr Target)) (locals : ℕ)
        (maps : List ℕ) (frames : List MapFrame) →
        IsStackMap pool steps locals maps frames → IsStrictlyIncreasing (map (λ f. f.at) frames) }
    ensures steps { (pool : List Constant) (steps : List (Instr Target)) (locals : ℕ)
        (maps : List ℕ) (frames : List MapFrame) →
        IsStackMap pool steps locals maps frames → (i j : ℕ) (f g : MapFrame) →
        slice_get frames i ≡ Some f → slice_get frames j ≡ Some g → f.step ≡ g.step → i ≡ j }
{}

/// There is one answer for any bytes: one list of frames, or one first frame that is wrong.
pub fn one_answer()
    ensures frames { (pool : List Constant) (steps : List (Instr Target)) (locals : ℕ)
        (maps : List ℕ) (a b : List MapFrame) →
        IsStackMap pool steps locals maps a → IsStackMap pool steps locals maps b → a ≡ b }
    ensures number { (pool : List Constant) (steps : List (Instr Target)) (locals : ℕ)
        (maps : List ℕ) (m n : ℕ) →
        IsFirstBadFrame pool steps locals maps m → IsFirstBadFrame pool steps locals maps n → m ≡ n }
    ensures either { (pool : List Constant) (steps : List (Instr Target)) (locals : ℕ)
        (maps : List ℕ) (frames : List MapFrame) (number : ℕ) →
        IsStackMap pool steps locals maps frames → ¬ IsFirstBadFrame pool steps locals maps number }
{}
