//! Map frames.

ghost use Rattle.std.specs.Prelude.{◌≡◌, false, None, Some, [], ◌∷◌};
ghost use Rattle.type_rules.specs.declared.types.VerificationType.TheVariants.{Top, Int, Long, Double, Second, UninitThis};
ghost use Rattle.link_types.specs.declared.types.ObjectType.TheVariants.{Class};
ghost use Rattle.type_rules.specs.Environments.{caught_type, type_made_at};
ghost use Rattle.type_examples.specs.TinyProgram.{frame_at, frame_in, makes};
ghost use Rattle.type_examples.specs.TinyMethods.{plain_frame, tiny_operand, with_flag};

/// The first map frame begins with what is there at the method's entry, each later one with what the one before has. An
/// append and a chop count values, and a long or a double is two words; on the stack its second word is on top. A frame
/// without the object that isn't initialized doesn't say that it isn't, and no frame of another method than a constructor
/// does.
pub fn map_frames_change_each_other()
    ensures same { frame_at 2 ≡ Some (with_flag (UninitThis ∷ Long ∷ Second ∷ Int ∷ []) []) }
    ensures append { frame_at 5 ≡ Some (with_flag (UninitThis ∷ Long ∷ Second ∷ Int ∷ Double ∷ Second ∷ []) []) }
    ensures chop { frame_at 7 ≡ Some (with_flag (UninitThis ∷ Long ∷ Second ∷ []) (Second ∷ Long ∷ Int ∷ [])) }
    ensures full { frame_at 8 ≡ Some (plain_frame (Top ∷ []) []) }
    ensures method { frame_in false 2 ≡ Some (plain_frame (UninitThis ∷ Long ∷ Second ∷ Int ∷ []) []) }
    ensures none { frame_at 3 ≡ None }
{}

/// A handler of no class catches each Throwable, and the `new` at an offset makes the class that it names.
pub fn classes_are_named()
    ensures everything { caught_type tiny_operand 0 ≡ Class 8 }
    ensures caught { caught_type tiny_operand 6 ≡ Class 30 }
    ensures made { type_made_at tiny_operand makes 1 ≡ Class 30 }
{}
