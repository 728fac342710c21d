//! Bodies that are made, read again.

ghost use Rattle.std.specs.Prelude.{◌≡◌, ℕ, List, ◌∷◌, ◌++◌, Some, true};
ghost use Rattle.std.specs.List.{AllByRecursion};
ghost use Rattle.class_walk.specs.declared.class.Constant.{Constant};
ghost use Rattle.code_decode.specs.declared.code.Code.{Code};
ghost use Rattle.code_decode.specs.Code.{IsCode};
ghost use Rattle.assembler_lines.specs.declared.line.Room.{Room};
ghost use Rattle.assembler_text.specs.declared.lines.Numbered.{Numbered};
ghost use Rattle.assembler_pool.specs.Uses.{Extends};
ghost use Rattle.assembler_bodies.specs.Labels.{is_end, marks_in};
ghost use Rattle.assembler_bodies.specs.Body.{MadeBody, begun, steps};
ghost use Rattle.assembler_laws.specs.BodyMeaning.Parts.{IsSaidAt};
ghost use Rattle.assembler_laws.specs.BodyMeaning.Body.{IsBodyOf, attribute_of};

/// Where the code of a body is read, with a pool that the body's own has grown to, it is what the lines say.
pub fn bodies_are_read_again()
    ensures { (room : Room) (lines rest : List Numbered) (end : Numbered) (body : MadeBody) (pool after last : List Constant)
        (entry : ℕ) (code : Code) → AllByRecursion IsSaidAt lines → is_end end.line ≡ true →
        steps (marks_in (lines ++ end ∷ rest)) lines (begun room) pool ≡ Some (after, body) → Extends after last →
        IsCode last entry (attribute_of body) code → IsBodyOf last room lines code }
{}
