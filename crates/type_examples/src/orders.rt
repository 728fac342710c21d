//! Which cause comes first.

ghost use Rattle.std.specs.Prelude.{◌≡◌, true, false, None, Some, [], ◌∷◌};
ghost use Rattle.instructions.specs.declared.operation.LocalAccess.TheVariants.{Load, Store};
ghost use Rattle.instructions.specs.declared.operation.Plain.TheVariants as plain;
ghost use Rattle.instructions.specs.declared.operation.StackOperation.TheVariants as stack;
ghost use Rattle.instructions.specs.declared.operation.Test.TheVariants as tests;
ghost use Rattle.instructions.specs.declared.operation.ValueKind.TheVariants as values;
ghost use Rattle.instructions.specs.declared.what.What.TheVariants as whats;
ghost use Rattle.link_types.specs.declared.types.ObjectType.TheVariants.{Class};
ghost use Rattle.link_types.specs.declared.types.ValueType.TheVariants as types;
ghost use Rattle.type_rules.specs.declared.refusal.VerifyKind.TheVariants as faults;
ghost use Rattle.type_rules.specs.declared.types.VerificationType.TheVariants.{Top, Int, Long, Second, Null, UninitThis, Uninit, Object};
ghost use Rattle.type_rules.specs.Environment.{entry_frame};
ghost use Rattle.type_rules.specs.TypeFaults.{flow_to, frame_fault, frame_here, handler_fault, instruction_fault, own_fault};
ghost use Rattle.type_examples.specs.TinyMethods.{at_zero, fault_of, fault_of_return, falls_off, plain_frame, returns_uninitialized, static_method, stores_under_handler, target, thrown_handler, with_flag, with_map, working};

/// At one instruction a missing word comes before a word of another type, that before an object that isn't initialized,
/// and that before a local or a stack past its limit, whichever operand is at fault.
pub fn causes_have_an_order()
    ensures shape { fault_of (whats.Branch tests.Same (target 0)) (Int ∷ []) ≡ Some faults.StackShape }
    ensures type_above { fault_of (whats.Branch tests.Same (target 0)) (Int ∷ Uninit 7 ∷ []) ≡ Some faults.TypeMismatch }
    ensures type_below { fault_of (whats.Branch tests.Same (target 0)) (Uninit 7 ∷ Int ∷ []) ≡ Some faults.TypeMismatch }
    ensures uninit { fault_of (whats.Branch tests.Same (target 0)) (Null ∷ Uninit 7 ∷ []) ≡ Some faults.Uninit }
    ensures no_local { fault_of (whats.Local (Load values.Int) 1) [] ≡ Some faults.Limits }
    ensures last_local { fault_of (whats.Local (Load values.Long) 0) [] ≡ Some faults.TypeMismatch }
    ensures stored_long { fault_of (whats.Local (Store values.Long) 0) (Second ∷ Long ∷ []) ≡ Some faults.Limits }
    ensures stack { fault_of (whats.Local (Load values.Int) 0) (Top ∷ Top ∷ Top ∷ Top ∷ Top ∷ Top ∷ []) ≡ Some faults.Limits }
    ensures half { fault_of (whats.Plain (plain.Stack stack.Dup)) (Second ∷ Long ∷ []) ≡ Some faults.TypeMismatch }
    ensures top { fault_of (whats.Plain (plain.Stack stack.Pop)) (Top ∷ []) ≡ None }
{}

/// A return of another class than the result is ReturnType, of an int in its place TypeMismatch, and of an object that
/// isn't initialized Uninit. Before its object is initialized a constructor's return is Uninit.
pub fn returns_have_an_order()
    ensures class { fault_of_return (types.Object (Class 3)) (plain.Return (Some values.Reference)) (Object (Class 30) ∷ []) ≡ Some faults.ReturnType }
    ensures int { fault_of_return (types.Object (Class 3)) (plain.Return (Some values.Reference)) (Int ∷ []) ≡ Some faults.TypeMismatch }
    ensures uninit { fault_of_return (types.Object (Class 3)) (plain.Return (Some values.Reference)) (Uninit 7 ∷ []) ≡ Some faults.Uninit }
    ensures null { fault_of_return (types.Object (Class 3)) (plain.Return (Some values.Reference)) (Null ∷ []) ≡ None }
    ensures narrow { fault_of_return types.Boolean (plain.Return (Some values.Int)) (Int ∷ []) ≡ None }
    ensures long { fault_of_return types.Int (plain.Return (Some values.Long)) (Second ∷ Long ∷ []) ≡ Some faults.ReturnType }
    ensures int_of_long { fault_of_return types.Long (plain.Return (Some values.Int)) (Int ∷ []) ≡ Some faults.ReturnType }
    ensures int_of_object { fault_of_return (types.Object (Class 3)) (plain.Return (Some values.Int)) (Int ∷ []) ≡ Some faults.ReturnType }
    ensures object_of_int { fault_of_return types.Int (plain.Return (Some values.Reference)) (Null ∷ []) ≡ Some faults.ReturnType }
    ensures constructor { own_fault returns_uninitialized (at_zero (whats.Plain (plain.Return None))) (entry_frame returns_uninitialized) ≡ Some faults.Uninit }
{}

/// A map frame that has no room is reported before one that doesn't fit, and reported where it is: a branch to it finds
/// Top past the locals that there are.
pub fn frames_have_an_order()
    ensures limits { frame_fault (with_map 1 (plain_frame [] (Int ∷ Int ∷ Int ∷ [])) falls_off) 1 (Some (plain_frame [] [])) ≡ Some faults.Limits }
    ensures mismatch { frame_fault (with_map 1 (plain_frame [] (Int ∷ [])) falls_off) 1 (Some (plain_frame [] [])) ≡ Some faults.FrameMismatch }
    ensures missing { frame_fault falls_off 1 None ≡ Some faults.FrameMissing }
    ensures dead { frame_fault (with_map 1 (plain_frame [] (Int ∷ [])) falls_off) 1 None ≡ None }
    ensures lower { frame_fault (with_map 0 (plain_frame (Top ∷ []) []) (static_method (Int ∷ []) None [])) 0 (Some (entry_frame (static_method (Int ∷ []) None []))) ≡ Some faults.FrameMismatch }
    ensures same { frame_fault (with_map 0 (plain_frame (Int ∷ []) []) (static_method (Int ∷ []) None [])) 0 (Some (entry_frame (static_method (Int ∷ []) None []))) ≡ None }
    ensures wide { flow_to falls_off (plain_frame (Int ∷ []) []) (Some (plain_frame (Int ∷ Top ∷ Top ∷ []) [])) ≡ None }
    ensures wider { flow_to falls_off (plain_frame (Int ∷ []) []) (Some (plain_frame (Int ∷ Top ∷ Int ∷ []) [])) ≡ Some faults.FrameMismatch }
{}

/// At a map frame its types hold, and no more is known of what falls into it. An object that isn't initialized may be
/// in a map frame, and everything is assignable to Top.
pub fn map_frames_hold()
    ensures wider { frame_here falls_off (Some (plain_frame (Object (Class 1) ∷ []) [])) (Some (plain_frame (Object (Class 3) ∷ []) [])) ≡ Some (plain_frame (Object (Class 1) ∷ []) []) }
    ensures padded { frame_here falls_off (Some (plain_frame [] [])) (Some (plain_frame (Int ∷ []) [])) ≡ Some (plain_frame (Top ∷ []) []) }
    ensures uninit { flow_to falls_off (plain_frame (Uninit 7 ∷ []) (Uninit 7 ∷ [])) (Some (plain_frame (Uninit 7 ∷ []) (Uninit 7 ∷ []))) ≡ None }
    ensures other_uninit { flow_to falls_off (plain_frame (Uninit 7 ∷ []) []) (Some (plain_frame (Uninit 8 ∷ []) [])) ≡ Some faults.FrameMismatch }
    ensures top { flow_to falls_off (plain_frame (Int ∷ []) (Second ∷ Long ∷ [])) (Some (plain_frame (Top ∷ []) (Top ∷ Top ∷ []))) ≡ None }
    ensures shorter { flow_to falls_off (plain_frame [] (Int ∷ [])) (Some (plain_frame [] [])) ≡ Some faults.FrameMismatch }
    ensures flag { flow_to falls_off (with_flag [] []) (Some (plain_frame [] [])) ≡ Some faults.FrameMismatch }
{}

/// Of a handler: an object that isn't initialized, then its map frame, then what it catches. It begins with the locals
/// before the instruction.
pub fn handlers_have_an_order()
    ensures covered { handler_fault working (entry_frame working) (thrown_handler 3) ≡ Some faults.InitCovered }
    ensures missing { handler_fault working (plain_frame [] []) (thrown_handler 3) ≡ Some faults.FrameMissing }
    ensures mismatch { handler_fault (with_map 0 (plain_frame [] []) working) (plain_frame [] []) (thrown_handler 3) ≡ Some faults.FrameMismatch }
    ensures caught { handler_fault (with_map 0 (plain_frame [] (Object (Class 3) ∷ [])) working) (plain_frame [] []) (thrown_handler 3) ≡ Some faults.TypeMismatch }
    ensures before { instruction_fault stores_under_handler 0 (at_zero (whats.Local (Store values.Int) 0)) (plain_frame (Object (Class 3) ∷ []) (Int ∷ [])) ≡ None }
    ensures after { instruction_fault stores_under_handler 0 (at_zero (whats.Plain plain.Nop)) (plain_frame (Int ∷ []) []) ≡ Some faults.FrameMismatch }
    ensures right { handler_fault (with_map 0 (plain_frame [] (Object (Class 1) ∷ [])) working) (plain_frame [] []) (thrown_handler 8) ≡ None }
{}
