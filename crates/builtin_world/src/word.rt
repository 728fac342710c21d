//! The places of the words that objects of built-in classes have. No class file can name them.
ghost use Rattle.std.specs.Prelude.{◌≡◌, Some, codes};
ghost use Rattle.builtin_world.specs.Laws.{word_place};

/// A Thread's priority, 1 to 10.
pub const THREAD_PRIORITY: u32 = 0;
/// Whether a Thread was started, and as which thread.
pub const THREAD_START: u32 = 1;
/// The Runnable that a Thread was made with, or null.
pub const THREAD_TARGET: u32 = 2;
/// The message of a Throwable, or null.
pub const THROWABLE_MESSAGE: u32 = 0;
/// The char array with the units of a String's text, or null where it is a literal.
pub const STRING_UNITS: u32 = 0;
/// The String with the text of a StringBuilder, or null where it is empty.
pub const BUILDER_TEXT: u32 = 0;

/// Each constant above is the place of the word that it names.
pub fn constants_are_places()
    ensures priority { word_place (codes "java/lang/Thread") (codes "priority") ≡ Some THREAD_PRIORITY }
    ensures start { word_place (codes "java/lang/Thread") (codes "start") ≡ Some THREAD_START }
    ensures target { word_place (codes "java/lang/Thread") (codes "target") ≡ Some THREAD_TARGET }
    ensures message { word_place (codes "java/lang/Throwable") (codes "message") ≡ Some THROWABLE_MESSAGE }
    ensures units { word_place (codes "java/lang/String") (codes "units") ≡ Some STRING_UNITS }
    ensures text { word_place (codes "java/lang/StringBuilder") (codes "text") ≡ Some BUILDER_TEXT }
{}
