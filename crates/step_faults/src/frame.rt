//! Frames that are read.

use type_rules::VerificationType;

/// Reads a frame of the rules (JVMS 4.10.1.6). No call takes memory.
pub trait FrameWords {
    ghost use Rattle.std.specs.Prelude.{◌≡◌, length};
    ghost use Rattle.std.specs.List.{list_any};
    ghost use Rattle.type_rules.specs.Environment.{TypeFrame};
    ghost use Rattle.type_rules.specs.Assignable.{is_same_type};
    ghost use Rattle.type_rules.specs.FrameAfter.{local_at, stack_at};
    ghost use Rattle.type_rules.specs.declared.types.VerificationType.TheVariants.{Uninit};

    /// The frame.
    ghost frame: { Self → TypeFrame };

    /// How many words the stack has.
    fn height(&self) -> u32
        ensures { length (frame self.now).stack ≡ result };

    /// The word of the stack under `under` others; Top under the lowest one.
    fn stack_word(&self, under: u32) -> VerificationType
        ensures { stack_at (frame self.now) under ≡ result };

    /// Tests whether the stack has what the `new` at an offset made.
    fn stack_has_made(&self, offset: u32) -> bool
        ensures { list_any (is_same_type (Uninit offset)) (frame self.now).stack ≡ result };

    /// The word of a local; Top past the last one.
    fn local(&self, at: u32) -> VerificationType
        ensures { local_at (frame self.now) at ≡ result };

    /// Whether the object of a constructor isn't initialized yet (JVMS 4.10.1.4: flagThisUninit).
    fn flag_this_uninit(&self) -> bool
        ensures { (frame self.now).flag_this_uninit ≡ result };
}
