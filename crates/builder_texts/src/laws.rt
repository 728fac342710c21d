//! The texts of StringBuilders.

ghost use Rattle.builder_texts.specs.BuilderTexts.{AppendsAdd, AppendsJoin, BuildersTell};

/// Of a thread that goes on alone: `append` makes the text of the builder longer by the text of what is appended, and answers
/// the builder.
pub fn appends_add()
    ensures { AppendsAdd }
{}

/// After one append and another the text of the builder is the one at first and the texts of what was appended, in order.
pub fn appends_join()
    ensures { AppendsJoin }
{}

/// Of a thread that goes on alone: `toString` answers a new String that has the text of the builder.
pub fn builders_tell()
    ensures { BuildersTell }
{}
