//! Laws of stack map frames (JVMS 4.7.4).

ghost use Rattle.std.specs.Prelude.{◌≡◌, ℕ, List, Some, length, slice_get, take};
ghost use Rattle.std.specs.List.{AllByRecursion};
ghost use Rattle.class_walk.specs.declared.class.Constant.{Constant};
ghost use Rattle.class_walk.specs.Layout.{IsCounted};
ghost use Rattle.instructions.specs.declared.what.Instr.{Instr};
ghost use Rattle.instructions.specs.declared.what.Target.{Target};
ghost use Rattle.code_frames.specs.declared.types.VType.{VType};
ghost use Rattle.code_frames.specs.declared.types.MapFrame.{MapFrame};
ghost use Rattle.code_frames.specs.Locals.{locals_after};
ghost use Rattle.code_frames.specs.StackMap.{IsItem, IsChange, IsStackMap};
ghost use Rattle.code_laws.specs.Frames.{IsLocal};
ghost use Rattle.code_laws.specs.Steps.{StandsAt};

/// A frame is at an instruction of the code.
pub fn frames_stand_at_instructions()
    ensures { (pool : List Constant) (steps : List (Instr Target)) (locals : ℕ) (maps : List ℕ) (frames : List MapFrame) →
        IsStackMap pool steps locals maps frames →
        (k : ℕ) (f : MapFrame) → slice_get frames k ≡ Some f → StandsAt steps f.step f.at }
{}

/// The types on the stack of a frame are such as frames spell: one that names a class names a Class entry, and one
/// that isn't initialized names the offset of a `new`.
pub fn stacks_are_spelled()
    ensures { (pool : List Constant) (steps : List (Instr Target)) (locals : ℕ) (maps : List ℕ) (frames : List MapFrame) →
        IsStackMap pool steps locals maps frames →
        (k : ℕ) (f : MapFrame) → slice_get frames k ≡ Some f → IsCounted (IsItem pool steps) f.stack }
{}

/// The locals that frames stand for, whatever the types at the method's entry are: each is such a type, or one of those
/// that frames spell. A frame removes no more locals than there are.
pub fn locals_are_spelled()
    ensures locals { (pool : List Constant) (steps : List (Instr Target)) (types : List VType) (maps : List ℕ) (frames : List MapFrame) →
        IsStackMap pool steps (length types) maps frames →
        (k : ℕ) → AllByRecursion (IsLocal pool steps types) (locals_after types (take k frames)) }
    ensures changes { (pool : List Constant) (steps : List (Instr Target)) (types : List VType) (maps : List ℕ) (frames : List MapFrame) →
        IsStackMap pool steps (length types) maps frames →
        (k : ℕ) (f : MapFrame) → slice_get frames k ≡ Some f → IsChange pool steps (length (locals_after types (take k frames))) f.locals }
{}
