//! What the code of a body is.

ghost use Rattle.std.specs.Prelude.{◌≡◌, ℕ, List, ◌∷◌, ◌++◌, Some, false, length};
ghost use Rattle.std.specs.List.{AllByRecursion};
ghost use Rattle.class_walk.specs.declared.class.Constant.{Constant};
ghost use Rattle.assembler_lines.specs.declared.line.Line.TheVariants.{Label};
ghost use Rattle.assembler_lines.specs.declared.line.Room.{Room};
ghost use Rattle.assembler_lines.specs.declared.operation.Operation.{Operation};
ghost use Rattle.assembler_text.specs.declared.lines.Numbered.{Numbered};
ghost use Rattle.assembler_bodies.specs.Labels.{Marks, is_label, marks_in};
ghost use Rattle.assembler_bodies.specs.Body.{MadeBody, begun, steps, with_instruction};
ghost use Rattle.assembler_bodies.specs.Put.{IsMadeOf, Puts};

/// A line that is an instruction appends that instruction to the code.
pub fn instructions_are_put()
    ensures { (marks : Marks) (operation : Operation) (old new : MadeBody) (pool after : List Constant) →
        with_instruction marks operation old pool ≡ Some (after, new) → Puts operation old new }
{}

/// Where the lines before a label are right, the label's offset is how long the code is there.
pub fn labels_stand_at_their_code()
    ensures { (marks : Marks) (room : Room) (front rest : List Numbered) (numbered : Numbered) (name : List ℕ)
        (body : MadeBody) (pool after : List Constant) → steps marks front (begun room) pool ≡ Some (after, body) →
        AllByRecursion (λ (n : Numbered). is_label name n.line ≡ false) front → numbered.line ≡ Some (Label name) →
        marks_in (front ++ numbered ∷ rest) name ≡ Some (record { line = numbered.number; offset = length body.code }) }
{}

/// The code of a body is instructions one after another, each with its operands in range, and its stack map is full
/// frames.
pub fn bodies_are_instructions_and_frames()
    ensures { (marks : Marks) (room : Room) (lines : List Numbered) (body : MadeBody) (pool after : List Constant) →
        steps marks lines (begun room) pool ≡ Some (after, body) → IsMadeOf body }
{}
