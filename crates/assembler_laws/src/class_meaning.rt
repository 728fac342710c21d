//! Class files that are made, read again.

ghost use Rattle.std.specs.Prelude.{◌≡◌, List, ℕ, Ok, slice_get};
ghost use Rattle.class_read.specs.declared.class_file.ClassFile.{ClassFile};
ghost use Rattle.class_read.specs.ClassFile.{IsFile};
ghost use Rattle.code_decode.specs.declared.code.Code.{Code};
ghost use Rattle.code_decode.specs.Method.{IsCodeOf};
ghost use Rattle.assembler_text.specs.declared.lines.Numbered.{Numbered};
ghost use Rattle.assembler_text.specs.declared.lines.TextLines.{TextLines};
ghost use Rattle.assembler_text.specs.TextLines.{AreLinesOf};
ghost use Rattle.class_make.specs.Texts.{IsAssembled, front};
ghost use Rattle.assembler_laws.specs.ClassMeaning.Class.{IsClassOf, IsCodeOfMethod};
ghost use Rattle.assembler_laws.specs.ClassMeaning.Parts.{methods_in};

/// Where the bytes that a text is assembled to are read, the class file is what the text's lines say.
pub fn made_classes_are_read_again()
    ensures { (text bytes : List ℕ) (lines : TextLines) (file : ClassFile) → IsAssembled text (Ok bytes) → AreLinesOf (front text) lines →
        IsFile bytes file → IsClassOf lines.lines file }
{}

/// What is decoded of a method of such a class file is the body that its lines say.
pub fn made_bodies_are_decoded_again()
    ensures { (lines : List Numbered) (file : ClassFile) (method : ℕ) (code : Code) → IsClassOf lines file → IsCodeOf file method code →
        IsCodeOfMethod file.pool (slice_get (methods_in lines) method) code }
{}
