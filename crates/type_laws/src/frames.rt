//! Laws of the frames of a type safe method. Each function does nothing: its contract is the law.

ghost use Rattle.std.specs.Prelude.{◌≡◌, ℕ, ◌<◌, length};
ghost use Rattle.type_rules.specs.Environment.{Environment, TypeFrame, entry_frame};
ghost use Rattle.type_rules.specs.TypeSafe.{IsAssignment};
ghost use Rattle.type_laws.specs.Frames.{GoesOn, HandlersAreEntered, HasRoom, HasWanted, OfEach, UsesRightTypes};

/// Each instruction finds on the stack what it wants: enough words, and each of them right.
pub fn what_is_wanted_is_there()
    ensures { (env : Environment) (frames : ℕ → TypeFrame) → IsAssignment env frames → OfEach env frames (λ k i f. HasWanted env i f) }
{}

/// Each instruction reads a local of the type that it wants, names no local past those of the method, and returns what
/// the method returns; a constructor returns after the initialization of its object.
pub fn right_types_are_used()
    ensures { (env : Environment) (frames : ℕ → TypeFrame) → IsAssignment env frames → OfEach env frames (λ k i f. UsesRightTypes env i f) }
{}

/// Each frame has as many locals as the method, and no more words on the stack than it may have.
pub fn frames_have_room()
    ensures { (env : Environment) (frames : ℕ → TypeFrame) → IsAssignment env frames → OfEach env frames (λ k i f. HasRoom env f) }
{}

/// The first instruction has the frame with which the method begins.
pub fn first_frames_are_entries()
    ensures { (env : Environment) (frames : ℕ → TypeFrame) → IsAssignment env frames → 0 < length env.steps → frames 0 ≡ entry_frame env }
{}

/// Where an instruction leads, the frame there takes what the instruction leaves; the last one isn't followed by the
/// next.
pub fn frames_go_on()
    ensures { (env : Environment) (frames : ℕ → TypeFrame) → IsAssignment env frames → OfEach env frames (GoesOn env frames) }
{}

/// Where a handler covers an instruction, the frame at its entry takes the locals there and what is caught.
pub fn handlers_are_entered()
    ensures { (env : Environment) (frames : ℕ → TypeFrame) → IsAssignment env frames → OfEach env frames (λ k i f. HandlersAreEntered env frames k f) }
{}
