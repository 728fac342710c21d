//! Laws of methods of linked programs.

ghost use Rattle.std.specs.Prelude.{◌≡◌, ℕ, Some, slice_get};
ghost use Rattle.instructions.specs.declared.what.Instr.{Instr};
ghost use Rattle.instructions.specs.declared.what.Target.{Target};
ghost use Rattle.step_frames.specs.Arrays.{MakesArray};
ghost use Rattle.linked_methods.specs.Methods.{environment_of_method};

use crate::method::LinkedMethod;

impl<'a> LinkedMethod<'a> {
    /// An instruction that makes an array of references names a type of at most 254 dimensions (JVMS 4.9.1,
    /// anewarray). Does nothing.
    pub fn arrays_have_room(&self)
        ensures { (k : ℕ) (i : Instr Target) → slice_get (environment_of_method self.now).steps k ≡ Some i
            → MakesArray (environment_of_method self.now) i.what }
    {
        self.classes.world.is_linked();
    }
}
