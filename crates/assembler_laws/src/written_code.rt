//! What was written is all that is read.

ghost use Rattle.std.specs.Prelude.{◌<◌, ◌^◌, ℕ, ℤ, List, length};
ghost use Rattle.class_walk.specs.declared.class.Constant.{Constant};
ghost use Rattle.instructions.specs.declared.what.Instr.{Instr};
ghost use Rattle.instructions.specs.declared.what.Target.{Target};
ghost use Rattle.code_steps.specs.CodeArray.{AreLaidOut};
ghost use Rattle.code_frames.specs.declared.types.MapFrame.{MapFrame};
ghost use Rattle.code_frames.specs.StackMap.{IsStackMap};
ghost use Rattle.code_write.specs.declared.operands.Written.{Written};
ghost use Rattle.code_write.specs.Meaning.{code_bytes, AreMeant};
ghost use Rattle.code_write.specs.Frame.{Placed, map_bytes};
ghost use Rattle.assembler_laws.specs.WrittenCode.Suits.{AreSuited};
ghost use Rattle.assembler_laws.specs.WrittenCode.Frames.{AreAsPlaced, HaveWidths};

/// Where instructions are laid out in the bytes of written ones, they are those instructions.
#[tactic(auto, using(crate::proofs::WrittenCode::CodeLaws::only_written_code))]
pub fn only_written_code_is_read()
    ensures { (pool : List Constant) (ws : List (Written ℕ)) (steps : List (Instr ℤ)) → AreSuited 0 ws →
        AreLaidOut pool (code_bytes 0 ws) 0 steps (length (code_bytes 0 ws)) → AreMeant pool 0 ws steps }
{}

/// Where the table of written full frames is a stack map, its frames are those frames.
pub fn only_written_frames_are_read()
    ensures { (pool : List Constant) (steps : List (Instr Target)) (locals : ℕ) (written : List Placed) (frames : List MapFrame) →
        HaveWidths 0 written → length written < 2 ^ 16 →
        IsStackMap pool steps locals (map_bytes written) frames → AreAsPlaced pool steps written frames }
{}
