//! Laws of class files that were read (JVMS 4.1 to 4.7).

ghost use Rattle.std.specs.Prelude.{◌≡◌, ℕ, List, Some, slice_get};
ghost use Rattle.access_flags.specs.declared.TheConstants.{INTERFACE};
ghost use Rattle.access_flags.specs.Flags.{has};
ghost use Rattle.class_walk.specs.declared.class.Constant.{Constant};
ghost use Rattle.class_read.specs.declared.class_file.ClassFile.{ClassFile};
ghost use Rattle.class_read.specs.declared.class_file.Member.{Member};
ghost use Rattle.instructions.specs.declared.what.Instr.{Instr};
ghost use Rattle.instructions.specs.declared.what.Target.{Target};
ghost use Rattle.code_steps.specs.CodeArray.{IsCodeArray};
ghost use Rattle.code_decode.specs.Method.{StandsForFile};
ghost use Rattle.code_laws.specs.File.{IsRightEntry, IsRightField, IsRightMethod, AreDistinct, HasRightHeader, IsSmall};
ghost use Rattle.code_laws.specs.Uses.{UsesRightly};

/// What an entry of the constant pool names is there, and is what it is named as: a Class entry names a class or an
/// array class, a NameAndType entry a member name and a descriptor (JVMS 4.4).
pub fn entries_are_right()
    ensures { (file : ClassFile) → StandsForFile file → (i : ℕ) (c : Constant) → slice_get file.pool i ≡ Some c → IsRightEntry file.pool i c }
{}

/// Members have names and types of their kind, flags that go together, and a constant of their type (JVMS 4.5, 4.6).
pub fn members_are_right()
    ensures fields { (file : ClassFile) → StandsForFile file → (i : ℕ) (m : Member) → slice_get file.fields i ≡ Some m →
        IsRightField file.pool (has file.flags INTERFACE) m }
    ensures methods { (file : ClassFile) → StandsForFile file → (i : ℕ) (m : Member) → slice_get file.methods i ≡ Some m →
        IsRightMethod file.pool m }
{}

/// No two members of a kind have one name and one descriptor (JVMS 4.5, 4.6).
pub fn members_are_distinct()
    ensures fields { (file : ClassFile) → StandsForFile file → AreDistinct file.pool file.fields }
    ensures methods { (file : ClassFile) → StandsForFile file → AreDistinct file.pool file.methods }
{}

/// The class, its superclass and its interfaces have class names, and its counts have two bytes (JVMS 4.1).
pub fn headers_are_right()
    ensures names { (file : ClassFile) → StandsForFile file → HasRightHeader file }
    ensures counts { (file : ClassFile) → StandsForFile file → IsSmall file }
{}

/// What the instructions of a class file name is there, and is what it is named as (JVMS 4.4, 4.9.1).
pub fn uses_are_right()
    ensures { (file : ClassFile) → StandsForFile file → (code : List ℕ) (steps : List (Instr Target)) → IsCodeArray file.pool code steps →
        (k : ℕ) (i : Instr Target) → slice_get steps k ≡ Some i → UsesRightly file.pool i.what }
{}
