//! The words on the stack.

ghost use Rattle.std.specs.Prelude.{◌≡◌, None, Some, [], ◌∷◌};
ghost use Rattle.instructions.specs.declared.operation.Plain.TheVariants as plain;
ghost use Rattle.instructions.specs.declared.operation.StackOperation.TheVariants as stack;
ghost use Rattle.instructions.specs.declared.what.What.TheVariants as whats;
ghost use Rattle.type_rules.specs.declared.refusal.VerifyKind.TheVariants as faults;
ghost use Rattle.type_rules.specs.declared.types.VerificationType.TheVariants.{Int, Long, Second, Null, UninitThis};
ghost use Rattle.type_examples.specs.TinyMethods.{behind, fault_of, with_flag};

/// Words are moved where no long is split.
pub fn whole_words_are_moved()
    ensures pop { fault_of (whats.Plain (plain.Stack stack.Pop)) (Int ∷ []) ≡ None }
    ensures pop_moves { behind (whats.Plain (plain.Stack stack.Pop)) (Int ∷ []) ≡ with_flag (UninitThis ∷ []) [] }
    ensures pop2 { fault_of (whats.Plain (plain.Stack stack.Pop2)) (Second ∷ Long ∷ []) ≡ None }
    ensures pop2_moves { behind (whats.Plain (plain.Stack stack.Pop2)) (Second ∷ Long ∷ []) ≡ with_flag (UninitThis ∷ []) [] }
    ensures dup { fault_of (whats.Plain (plain.Stack stack.Dup)) (Int ∷ []) ≡ None }
    ensures dup_moves { behind (whats.Plain (plain.Stack stack.Dup)) (Int ∷ []) ≡ with_flag (UninitThis ∷ []) (Int ∷ Int ∷ []) }
    ensures dup_x1 { fault_of (whats.Plain (plain.Stack stack.DupX1)) (Int ∷ Null ∷ []) ≡ None }
    ensures dup_x1_moves { behind (whats.Plain (plain.Stack stack.DupX1)) (Int ∷ Null ∷ []) ≡ with_flag (UninitThis ∷ []) (Int ∷ Null ∷ Int ∷ []) }
    ensures dup_x2 { fault_of (whats.Plain (plain.Stack stack.DupX2)) (Int ∷ Second ∷ Long ∷ []) ≡ None }
    ensures dup_x2_moves { behind (whats.Plain (plain.Stack stack.DupX2)) (Int ∷ Second ∷ Long ∷ []) ≡ with_flag (UninitThis ∷ []) (Int ∷ Second ∷ Long ∷ Int ∷ []) }
    ensures dup2 { fault_of (whats.Plain (plain.Stack stack.Dup2)) (Second ∷ Long ∷ []) ≡ None }
    ensures dup2_moves { behind (whats.Plain (plain.Stack stack.Dup2)) (Second ∷ Long ∷ []) ≡ with_flag (UninitThis ∷ []) (Second ∷ Long ∷ Second ∷ Long ∷ []) }
    ensures dup2_x1 { fault_of (whats.Plain (plain.Stack stack.Dup2X1)) (Second ∷ Long ∷ Int ∷ []) ≡ None }
    ensures dup2_x1_moves { behind (whats.Plain (plain.Stack stack.Dup2X1)) (Second ∷ Long ∷ Int ∷ []) ≡ with_flag (UninitThis ∷ []) (Second ∷ Long ∷ Int ∷ Second ∷ Long ∷ []) }
    ensures dup2_x2 { fault_of (whats.Plain (plain.Stack stack.Dup2X2)) (Null ∷ Int ∷ Second ∷ Long ∷ []) ≡ None }
    ensures dup2_x2_moves { behind (whats.Plain (plain.Stack stack.Dup2X2)) (Null ∷ Int ∷ Second ∷ Long ∷ []) ≡ with_flag (UninitThis ∷ []) (Null ∷ Int ∷ Second ∷ Long ∷ Null ∷ Int ∷ []) }
    ensures swap { fault_of (whats.Plain (plain.Stack stack.Swap)) (Int ∷ Null ∷ []) ≡ None }
    ensures swap_moves { behind (whats.Plain (plain.Stack stack.Swap)) (Int ∷ Null ∷ []) ≡ with_flag (UninitThis ∷ []) (Null ∷ Int ∷ []) }
{}

/// No instruction splits a long.
pub fn no_long_is_split()
    ensures pop { fault_of (whats.Plain (plain.Stack stack.Pop)) (Second ∷ Long ∷ []) ≡ Some faults.TypeMismatch }
    ensures pop2 { fault_of (whats.Plain (plain.Stack stack.Pop2)) (Int ∷ Second ∷ Long ∷ []) ≡ Some faults.TypeMismatch }
    ensures dup { fault_of (whats.Plain (plain.Stack stack.Dup)) (Second ∷ Long ∷ []) ≡ Some faults.TypeMismatch }
    ensures dup_x1 { fault_of (whats.Plain (plain.Stack stack.DupX1)) (Int ∷ Second ∷ Long ∷ []) ≡ Some faults.TypeMismatch }
    ensures dup_x2 { fault_of (whats.Plain (plain.Stack stack.DupX2)) (Int ∷ Null ∷ Second ∷ Long ∷ []) ≡ Some faults.TypeMismatch }
    ensures dup2 { fault_of (whats.Plain (plain.Stack stack.Dup2)) (Int ∷ Second ∷ Long ∷ []) ≡ Some faults.TypeMismatch }
    ensures dup2_x1 { fault_of (whats.Plain (plain.Stack stack.Dup2X1)) (Int ∷ Null ∷ Second ∷ Long ∷ []) ≡ Some faults.TypeMismatch }
    ensures dup2_x2 { fault_of (whats.Plain (plain.Stack stack.Dup2X2)) (Int ∷ Int ∷ Null ∷ Second ∷ Long ∷ []) ≡ Some faults.TypeMismatch }
    ensures swap { fault_of (whats.Plain (plain.Stack stack.Swap)) (Int ∷ Second ∷ Long ∷ []) ≡ Some faults.TypeMismatch }
{}
