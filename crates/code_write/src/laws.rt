//! What is written is read again.

ghost use Rattle.std.specs.Prelude.{◌≡◌, ◌<◌, ◌≤◌, ◌^◌, ℕ, ℤ, List, length, map};
ghost use Rattle.std.specs.List.{AllByRecursion};
ghost use Rattle.class_walk.specs.declared.class.Constant.{Constant};
ghost use Rattle.instructions.specs.declared.what.Instr.{Instr};
ghost use Rattle.instructions.specs.declared.what.Target.{Target};
ghost use Rattle.instructions.specs.declared.what.What.{What};
ghost use Rattle.instructions.specs.What.{targets_of};
ghost use Rattle.code_steps.specs.CodeArray.{by_offsets, IsAmong, AreLaidOut, IsCodeArray};
ghost use Rattle.code_frames.specs.StackMap.{IsStackMap};
ghost use Rattle.code_write.specs.declared.operands.Written.{Written};
ghost use Rattle.code_write.specs.Instruction.{instruction_bytes, shape, size};
ghost use Rattle.code_write.specs.Meaning.{code_bytes, AreMeant};
ghost use Rattle.code_write.specs.Frame.{Placed, frame_of, map_bytes, ArePlaced};

/// An instruction has as many bytes as its shape says.
pub fn shapes_have_sizes()
    ensures { (at : ℕ) (w : Written ℕ) → length (instruction_bytes at w) ≡ size at (shape w.operands) }
{}

/// Instructions that are written one after the other are laid out as their reader wants, and are a code array
/// where the length of the code is allowed and the targets are among the instructions.
pub fn written_code_is_read()
    ensures laid { (pool : List Constant) (ws : List (Written ℕ)) (steps : List (Instr ℤ)) →
        AreMeant pool 0 ws steps → AreLaidOut pool (code_bytes 0 ws) 0 steps (length (code_bytes 0 ws)) }
    ensures array { (pool : List Constant) (ws : List (Written ℕ)) (steps : List (Instr Target)) →
        AreMeant pool 0 ws (map by_offsets steps) →
        0 < length (code_bytes 0 ws) → length (code_bytes 0 ws) ≤ 65535 →
        AllByRecursion (λ (i : Instr Target). AllByRecursion (IsAmong steps) (targets_of i.what)) steps →
        IsCodeArray pool (code_bytes 0 ws) steps }
{}

/// Full frames that are written one after the other, with their count before them, are the frames of that
/// StackMapTable.
pub fn written_frames_are_read()
    ensures { (pool : List Constant) (steps : List (Instr Target)) (locals : ℕ) (frames : List Placed) →
        length frames < 2 ^ 16 → ArePlaced pool steps 0 frames →
        IsStackMap pool steps locals (map_bytes frames) (map frame_of frames) }
{}
