//! Numbers in class files, and methods with code.

ghost use Rattle.std.specs.Prelude.{List, Option};
ghost use Rattle.class_read.specs.declared.class_file.ClassFile.{ClassFile};
ghost use Rattle.code_decode.specs.declared.code.Code.{Code};
ghost use Rattle.code_decode.specs.Method.{StandsForFile};
ghost use Rattle.code_decode.specs.Unit.{AreCodes};
ghost use Rattle.code_facts.specs.Facts.{CodesPushWords, HasWords, MethodsHaveCode};

/// The ints that instructions of decoded code push have one word, the longs two (JVMS 6.5, iconst, lconst, bipush, sipush).
pub fn codes_push_words()
    ensures { (file : ClassFile) (codes : List (Option Code)) → StandsForFile file → AreCodes file codes → CodesPushWords codes }
{}

/// The ints of a constant pool have one word, the longs two (JVMS 4.4.4, 4.4.5).
pub fn pools_have_words()
    ensures { (file : ClassFile) → StandsForFile file → HasWords file.pool }
{}

/// A method of a class file that is neither abstract nor native has code (JVMS 4.7.3).
pub fn methods_have_code()
    ensures { (file : ClassFile) (codes : List (Option Code)) → StandsForFile file → AreCodes file codes → MethodsHaveCode file codes }
{}
