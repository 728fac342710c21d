//! Laws of the instructions of a code array (JVMS 4.7.3, 4.9.1).

ghost use Rattle.std.specs.Prelude.{◌≡◌, ◌<◌, ◌≤◌, ◌^◌, ℕ, List, Some, IfSome, length, slice_get};
ghost use Rattle.std.specs.List.{AllByRecursion};
ghost use Rattle.class_walk.specs.declared.class.Constant.{Constant};
ghost use Rattle.instructions.specs.declared.what.Instr.{Instr};
ghost use Rattle.instructions.specs.declared.what.Target.{Target};
ghost use Rattle.instructions.specs.What.{targets_of, operand_of};
ghost use Rattle.code_steps.specs.CodeArray.{IsCodeArray};
ghost use Rattle.code_laws.specs.Steps.{NamesRightly, LeadsInside, StandsInside};

/// What an instruction names in the constant pool is of the kind that it wants. Its index has two bytes.
pub fn operands_are_named()
    ensures names { (pool : List Constant) (code : List ℕ) (steps : List (Instr Target)) → IsCodeArray pool code steps →
        (k : ℕ) (i : Instr Target) → slice_get steps k ≡ Some i → NamesRightly pool i.what }
    ensures fits { (pool : List Constant) (code : List ℕ) (steps : List (Instr Target)) → IsCodeArray pool code steps →
        (k : ℕ) (i : Instr Target) → slice_get steps k ≡ Some i → IfSome (operand_of i.what) (λ index. index < 2 ^ 16) }
{}

/// Each target is an instruction of the code.
pub fn targets_are_inside()
    ensures { (pool : List Constant) (code : List ℕ) (steps : List (Instr Target)) → IsCodeArray pool code steps →
        (k : ℕ) (i : Instr Target) → slice_get steps k ≡ Some i → AllByRecursion (LeadsInside steps) (targets_of i.what) }
{}

/// Code has an instruction at its first byte, and no more instructions than 65,535.
pub fn code_begins_with_an_instruction()
    ensures first { (pool : List Constant) (code : List ℕ) (steps : List (Instr Target)) → IsCodeArray pool code steps →
        (i : Instr Target) × (slice_get steps 0 ≡ Some i) × (i.at ≡ 0) }
    ensures few { (pool : List Constant) (code : List ℕ) (steps : List (Instr Target)) → IsCodeArray pool code steps →
        length steps ≤ 65535 }
{}

/// Instructions come one after another, from the first byte of the code to its last.
pub fn instructions_stand_in_order()
    ensures places { (pool : List Constant) (code : List ℕ) (steps : List (Instr Target)) → IsCodeArray pool code steps →
        (k : ℕ) (i : Instr Target) → slice_get steps k ≡ Some i → StandsInside (length code) steps k i }
    ensures order { (pool : List Constant) (code : List ℕ) (steps : List (Instr Target)) → IsCodeArray pool code steps →
        (j k : ℕ) (i l : Instr Target) → slice_get steps j ≡ Some i → slice_get steps k ≡ Some l → j < k → i.at < l.at }
{}
