//! Methods that are type safe, and methods that are refused.

ghost use Rattle.type_rules.specs.declared.refusal.VerifyKind.TheVariants as faults;
ghost use Rattle.type_rules.specs.TypeSafe.{IsTypeSafe};
ghost use Rattle.type_examples.specs.TinyMethods.{IsRefusedAs, choice, covers_uninitialized, falls_off, has_no_room, leads_to_another_frame, leads_to_no_frame, loads_wrongly, pops_nothing, returns_nothing, returns_uninitialized};

/// `x == 0 ? 1 : x` is type safe.
pub fn a_method_with_a_branch_is_type_safe()
    ensures { IsTypeSafe choice }
{}

/// A method for each kind.
pub fn each_kind_is_refused()
    ensures stack_shape { IsRefusedAs pops_nothing 0 faults.StackShape }
    ensures type_mismatch { IsRefusedAs loads_wrongly 0 faults.TypeMismatch }
    ensures frame_missing { IsRefusedAs leads_to_no_frame 0 faults.FrameMissing }
    ensures frame_mismatch { IsRefusedAs leads_to_another_frame 0 faults.FrameMismatch }
    ensures falls_off { IsRefusedAs falls_off 0 faults.FallsOff }
    ensures limits { IsRefusedAs has_no_room 0 faults.Limits }
    ensures uninit { IsRefusedAs returns_uninitialized 0 faults.Uninit }
    ensures init_covered { IsRefusedAs covers_uninitialized 0 faults.InitCovered }
    ensures return_type { IsRefusedAs returns_nothing 0 faults.ReturnType }
{}
