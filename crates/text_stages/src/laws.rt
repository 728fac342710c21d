//! The stages are the plans of the methods.

ghost use Rattle.text_stages.specs.Laws.{TextsBegin, RepliesLead, SilentStepsLead, StagesStand, TextsEndNoFrame};
ghost use Rattle.text_stages.specs.Reading.{TextsAreRead};
ghost use Rattle.text_stages.specs.Making.{TextsAreMade, MadeTextsAreTexts};

/// The stage at which a method begins is its plan.
pub fn texts_begin()
    ensures { TextsBegin }
{}

/// A reply leads from stage to stage as the plan says.
pub fn replies_lead()
    ensures { RepliesLead }
{}

/// A silent step leads from stage to stage as the plan says.
pub fn silent_steps_lead()
    ensures { SilentStepsLead }
{}

/// Where no word of it is written meanwhile, the text of a String is read unit by unit.
pub fn texts_are_read()
    ensures { TextsAreRead }
{}

/// A thread that comes to a stage of a text stays there.
pub fn stages_stand()
    ensures { StagesStand }
{}

/// No silent step of a text ends a frame.
pub fn texts_end_no_frame()
    ensures { TextsEndNoFrame }
{}

/// A text is made by its operations.
pub fn texts_are_made()
    ensures { TextsAreMade }
{}

/// A text that was made is the text of the new String.
pub fn made_texts_are_texts()
    ensures { MadeTextsAreTexts }
{}
