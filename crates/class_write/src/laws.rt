//! What is written is read again.

ghost use Rattle.std.specs.Prelude.{◌≤◌, ◌<◌, ◌^◌, length};
ghost use Rattle.class_walk.specs.declared.class.RawClass.{RawClass};
ghost use Rattle.class_walk.specs.declared.class.RawCode.{RawCode};
ghost use Rattle.class_walk.specs.Layout.{spelling, code_spelling, IsClass, IsClassFile, IsCode, IsCodeContent};
ghost use Rattle.class_write.specs.Placed.{placed, placed_code, IsClassButPlaces, IsCodeButPlaces};
ghost use Rattle.class_write.specs.Writable.{IsWritable, IsWritableCode};

/// The bytes of a class are the file of that class, with its parts at their places.
pub fn written_class_is_read()
    ensures { (c : RawClass) → IsClassButPlaces c → length (spelling c) ≤ 1048576 → IsClassFile (spelling c) (placed c) }
{}

/// The bytes of a code are the content of that code, with its attributes at their places.
pub fn written_code_is_read()
    ensures { (c : RawCode) → IsCodeButPlaces c → length (code_spelling c) < 2 ^ 32 → IsCodeContent (code_spelling c) (placed_code c) }
{}

/// What is a class but for its places can be written.
pub fn classes_can_be_written()
    ensures class { (c : RawClass) → IsClassButPlaces c → IsWritable c }
    ensures code { (c : RawCode) → IsCodeButPlaces c → IsWritableCode c }
{}

/// What was read can be written.
pub fn read_classes_can_be_written()
    ensures class { (c : RawClass) → IsClass c → IsWritable c }
    ensures code { (c : RawCode) → IsCode c → IsWritableCode c }
{}
