//! What a word is where it is wanted.

ghost use Rattle.std.specs.Prelude.{◌≡◌, [], ◌∷◌};
ghost use Rattle.type_rules.specs.Wants as wants;
ghost use Rattle.word_types.specs.Verdicts.{verdict_meant};
ghost use Rattle.step_wants.specs.Wanted.{want_meant};
ghost use Rattle.type_rules.specs.declared.types.VerificationType.TheVariants as words;
ghost use Rattle.std.specs.Prelude.{ℕ};

use crate::want::Want;
use crate::world::MethodWorld;
use link_types::ObjectType;
use type_rules::VerificationType;
use word_types::{
    Verdict, array_of_kind_verdict, array_of_references_verdict, array_verdict, initializes,
    is_int, is_reference, is_whole, receiver_here_verdict, receiver_to_set_verdict,
    reference_to_verdict, reference_verdict,
};

/// What the `new` makes that made a word. Where no `new` made it, the class of the method, and nothing is said.
pub fn type_made<W: MethodWorld>(world: &W, word: VerificationType) -> ObjectType
    ensures { (p : ℕ) → word ≡ words.Uninit p → (W.environment world.now).made_at p ≡ result }
{
    match word {
        VerificationType::Uninit(offset) => world.made_at(offset),
        _ => ObjectType::Class(world.class()),
    }
}

/// The verdict where all that is asked is a test.
pub fn right_if(is_right: bool) -> Verdict
    ensures { verdict_meant result ≡ wants.right_if is_right }
{
    if is_right {
        Verdict::Right
    } else {
        Verdict::Wrong
    }
}

fn to_initialize_verdict<W: MethodWorld>(
    world: &W,
    named: ObjectType,
    word: VerificationType,
) -> Verdict
    ensures { verdict_meant result ≡ wants.verdict (W.environment world.now) (wants.to_initialize named) word }
{
    right_if(initializes(
        world.class(),
        world.direct_super(),
        type_made(world, word),
        named,
        word,
    ))
}

/// What one word is to a want. A long is two words, so no single word is right for one.
pub fn want_verdict<W: MethodWorld>(world: &W, want: Want, word: VerificationType) -> Verdict
    ensures { verdict_meant result ≡ wants.verdict (W.environment world.now) (want_meant want) word }
{
    match want {
        Want::Word => Verdict::Right,
        Want::Whole => right_if(is_whole(word)),
        Want::Int => right_if(is_int(word)),
        Want::Long => Verdict::Wrong,
        Want::StoredReference => right_if(is_reference(word)),
        Want::Reference => reference_verdict(word),
        Want::ReferenceTo(named) => reference_to_verdict(world.classes(), named, word),
        Want::ArrayOf(kind) => array_of_kind_verdict(kind, word),
        Want::Array => array_verdict(word),
        Want::ArrayOfReferences => array_of_references_verdict(word),
        Want::ReceiverToSet(named) => receiver_to_set_verdict(world.classes(), named, word),
        Want::ReceiverHere(named) => {
            receiver_here_verdict(world.classes(), world.class(), named, word)
        }
        Want::ToInitialize(named) => to_initialize_verdict(world, named, word),
    }
}
