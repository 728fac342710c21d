//! Objects that are made, initialized and used.

ghost use Rattle.std.specs.Prelude.{◌≡◌, false, true, None, Some, [], ◌∷◌};
ghost use Rattle.instructions.specs.declared.operation.Call.TheVariants.{Special};
ghost use Rattle.instructions.specs.declared.operation.ClassUse.TheVariants as uses;
ghost use Rattle.instructions.specs.declared.operation.ElementKind.TheVariants as kinds;
ghost use Rattle.instructions.specs.declared.operation.FieldAccess.TheVariants.{PutField};
ghost use Rattle.instructions.specs.declared.operation.LocalAccess.TheVariants.{Store};
ghost use Rattle.instructions.specs.declared.operation.Plain.TheVariants as plain;
ghost use Rattle.instructions.specs.declared.operation.ValueKind.TheVariants as values;
ghost use Rattle.instructions.specs.declared.what.What.TheVariants as whats;
ghost use Rattle.link_types.specs.declared.types.ElementType.TheVariants as elements;
ghost use Rattle.link_types.specs.declared.types.ObjectType.TheVariants.{Array, Class};
ghost use Rattle.type_rules.specs.declared.refusal.VerifyKind.TheVariants as faults;
ghost use Rattle.type_rules.specs.declared.types.VerificationType.TheVariants.{Top, Int, Null, UninitThis, Uninit, Object};
ghost use Rattle.type_rules.specs.Environment.{TypeFrame};
ghost use Rattle.type_examples.specs.TinyMethods.{behind, fault_of, plain_frame, with_flag};

/// The object of a constructor is initialized by its class or the superclass, and what `new` made by its own class
/// alone; what is initialized isn't initialized again. After the initialization each copy is initialized. `new` finds
/// nothing on the stack that it made before, and makes locals Top that have it.
pub fn constructors_initialize_once()
    ensures this { fault_of (whats.Call Special 3) (UninitThis ∷ []) ≡ None }
    ensures super_class { fault_of (whats.Call Special 4) (UninitThis ∷ []) ≡ None }
    ensures third { fault_of (whats.Call Special 5) (UninitThis ∷ []) ≡ Some faults.TypeMismatch }
    ensures made { fault_of (whats.Call Special 3) (Uninit 7 ∷ []) ≡ None }
    ensures made_super { fault_of (whats.Call Special 4) (Uninit 7 ∷ []) ≡ Some faults.TypeMismatch }
    ensures twice { fault_of (whats.Call Special 3) (Object (Class 30) ∷ []) ≡ Some faults.TypeMismatch }
    ensures null { fault_of (whats.Call Special 3) (Null ∷ []) ≡ Some faults.TypeMismatch }
    ensures copies { behind (whats.Call Special 4) (UninitThis ∷ UninitThis ∷ Int ∷ []) ≡ plain_frame (Object (Class 30) ∷ []) (Object (Class 30) ∷ Int ∷ []) }
    ensures others { behind (whats.Call Special 3) (Uninit 7 ∷ Uninit 7 ∷ []) ≡ with_flag (UninitThis ∷ []) (Object (Class 30) ∷ []) }
    ensures again { fault_of (whats.Class uses.New 6) (Uninit 0 ∷ []) ≡ Some faults.Uninit }
    ensures elsewhere { fault_of (whats.Class uses.New 6) (Uninit 7 ∷ []) ≡ None }
{}

/// A constructor sets the fields that its class declares before its object is initialized, and no other ones.
pub fn fields_are_set_early()
    ensures own { fault_of (whats.Field PutField 1) (Int ∷ UninitThis ∷ []) ≡ None }
    ensures inherited { fault_of (whats.Field PutField 2) (Int ∷ UninitThis ∷ []) ≡ Some faults.Uninit }
    ensures made { fault_of (whats.Field PutField 1) (Int ∷ Uninit 7 ∷ []) ≡ Some faults.Uninit }
    ensures value { fault_of (whats.Field PutField 2) (Null ∷ UninitThis ∷ []) ≡ Some faults.TypeMismatch }
{}

/// Stores into locals move objects that aren't initialized; monitors, arrays and tests of null don't take them.
pub fn references_are_moved()
    ensures stored { fault_of (whats.Local (Store values.Reference) 0) (Uninit 7 ∷ []) ≡ None }
    ensures word { fault_of (whats.Local (Store values.Reference) 0) (Int ∷ []) ≡ Some faults.TypeMismatch }
    ensures monitor { fault_of (whats.Plain plain.MonitorEnter) (Uninit 7 ∷ []) ≡ Some faults.Uninit }
    ensures thrown { fault_of (whats.Plain plain.Throw) (Object (Class 3) ∷ []) ≡ Some faults.TypeMismatch }
{}

/// baload reads arrays of byte and of boolean, arraylength each array, and aaload gives null for a null array. aastore
/// takes any reference and any array of references.
pub fn arrays_are_read_and_written()
    ensures bytes { fault_of (whats.Plain (plain.ArrayLoad kinds.ByteOrBoolean)) (Int ∷ Object (Array 1 elements.Byte) ∷ []) ≡ None }
    ensures booleans { fault_of (whats.Plain (plain.ArrayLoad kinds.ByteOrBoolean)) (Int ∷ Object (Array 1 elements.Boolean) ∷ []) ≡ None }
    ensures chars { fault_of (whats.Plain (plain.ArrayLoad kinds.ByteOrBoolean)) (Int ∷ Object (Array 1 elements.Char) ∷ []) ≡ Some faults.TypeMismatch }
    ensures length { fault_of (whats.Plain plain.ArrayLength) (Object (Array 2 elements.Float) ∷ []) ≡ None }
    ensures null { behind (whats.Plain (plain.ArrayLoad kinds.Reference)) (Int ∷ Null ∷ []) ≡ with_flag (UninitThis ∷ []) (Null ∷ []) }
    ensures element { behind (whats.Plain (plain.ArrayLoad kinds.Reference)) (Int ∷ Object (Array 2 elements.Int) ∷ []) ≡ with_flag (UninitThis ∷ []) (Object (Array 1 elements.Int) ∷ []) }
    ensures stored { fault_of (whats.Plain (plain.ArrayStore kinds.Reference)) (Object (Class 30) ∷ Int ∷ Object (Array 1 (elements.Class 3)) ∷ []) ≡ None }
    ensures numbers { fault_of (whats.Plain (plain.ArrayStore kinds.Reference)) (Null ∷ Int ∷ Object (Array 1 elements.Int) ∷ []) ≡ Some faults.TypeMismatch }
{}
