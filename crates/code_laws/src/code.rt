//! Laws of the code of methods (JVMS 4.7.3).

ghost use Rattle.std.specs.Prelude.{◌≡◌, ℕ, List, Option, Some, length, slice_get};
ghost use Rattle.class_walk.specs.declared.class.Constant.{Constant};
ghost use Rattle.class_walk.specs.declared.class.RawHandler.{RawHandler};
ghost use Rattle.class_read.specs.declared.class_file.ClassFile.{ClassFile};
ghost use Rattle.class_read.specs.declared.class_file.CodeAttribute.{CodeAttribute};
ghost use Rattle.instructions.specs.declared.what.Instr.{Instr};
ghost use Rattle.instructions.specs.declared.what.Target.{Target};
ghost use Rattle.code_steps.specs.CodeArray.{IsCodeArray};
ghost use Rattle.code_decode.specs.declared.code.Code.{Code};
ghost use Rattle.code_decode.specs.declared.code.Handler.{Handler};
ghost use Rattle.code_decode.specs.Handlers.{AreHandlers};
ghost use Rattle.code_decode.specs.Code.{IsCode};
ghost use Rattle.code_decode.specs.Method.{StandsForFile, IsCodeOf};
ghost use Rattle.code_decode.specs.Unit.{AreCodes};
ghost use Rattle.code_laws.specs.Accepted.{IsAcceptedCode};
ghost use Rattle.code_laws.specs.Code.{IsRightCode};
ghost use Rattle.code_laws.specs.Handlers.{IsHandlerInside};

/// A handler covers some instructions of the code, by number as by offset, begins at one, and catches everything or
/// a class.
pub fn handlers_are_inside()
    ensures { (pool : List Constant) (code : List ℕ) (steps : List (Instr Target)) (table : List RawHandler) (handlers : List Handler) →
        IsCodeArray pool code steps → AreHandlers pool steps (length code) table handlers →
        (k : ℕ) (h : Handler) → slice_get handlers k ≡ Some h → IsHandlerInside pool steps h }
{}

/// What holds of the parts of the code of a method, in one.
pub fn accepted_code_is_right()
    ensures { (pool : List Constant) (entry : ℕ) (a : CodeAttribute) (code : Code) → IsCode pool entry a code → IsRightCode pool entry code }
{}

/// What holds of the codes of a class file, method by method.
pub fn codes_of_a_file_are_accepted()
    ensures one { (file : ClassFile) (method : ℕ) (code : Code) → StandsForFile file → IsCodeOf file method code →
        IsAcceptedCode file method code }
    ensures all { (file : ClassFile) (codes : List (Option Code)) → StandsForFile file → AreCodes file codes →
        (method : ℕ) (code : Code) → slice_get codes method ≡ Some (Some code) → IsAcceptedCode file method code }
{}
