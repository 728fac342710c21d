//! The words that an instruction takes off the stack.

ghost use Rattle.std.specs.Prelude.{◌≡◌, ◌+◌, ◌^◌, ◌≤◌, ◌<◌, List, ◌∷◌, drop, length, false, nat_le, MatchOption};
ghost use Rattle.type_rules.specs.Wants as wants;
ghost use Rattle.type_rules.specs.Environment.{Environment};
ghost use Rattle.word_types.specs.Verdicts.{verdict_meant};
ghost use Rattle.step_wants.specs.Wanted.{want_meant, words_listed};
ghost use Rattle.step_faults.specs.Worst.{worse, worst};

use crate::frame::FrameWords;
use step_wants::{MethodWorld, Want, WantedWords, right_if, want_verdict};
use word_types::{Verdict, is_long};

/// What the words on top of a stack are to an instruction that takes them.
#[derive(Clone, Copy)]
pub struct TakenWords {
    /// The worst of the verdicts on them: wrong, or else uninitialized, or else right.
    pub verdict: Verdict,
    /// How many words stay under them.
    pub left: u32,
}

// The worse of two verdicts.
fn worse_of(a: Verdict, b: Verdict) -> Verdict
    ensures { verdict_meant result ≡ worse (verdict_meant a) (verdict_meant b) }
{
    match (a, b) {
        (Verdict::Wrong, _) | (_, Verdict::Wrong) => Verdict::Wrong,
        (Verdict::Uninitialized, _) | (_, Verdict::Uninitialized) => Verdict::Uninitialized,
        (Verdict::Right, Verdict::Right) => Verdict::Right,
    }
}

fn long_verdict<F: FrameWords>(frame: &F, under: u32) -> Verdict
    requires there { under + 2 ≤ length (F.frame frame.now).stack }
    requires fits { length (F.frame frame.now).stack < 2 ^ 32 }
    ensures { (env : Environment) (ws : List wants.Want)
        → wants.verdicts env (wants.a_long ∷ ws) (drop under (F.frame frame.now).stack)
        ≡ verdict_meant result ∷ wants.verdicts env ws (drop (under + 2) (F.frame frame.now).stack) }
{
    right_if(is_long(frame.stack_word(under), frame.stack_word(under + 1)))
}

// What the words under `under` others are to a want.
fn verdict_under<W: MethodWorld, F: FrameWords>(
    world: &W,
    frame: &F,
    want: Want,
    under: u32,
) -> Verdict
    requires there { under + wants.want_size (want_meant want) ≤ length (F.frame frame.now).stack }
    requires fits { length (F.frame frame.now).stack < 2 ^ 32 }
    ensures { (ws : List wants.Want)
        → wants.verdicts (W.environment world.now) (want_meant want ∷ ws) (drop under (F.frame frame.now).stack)
        ≡ verdict_meant result
        ∷ wants.verdicts (W.environment world.now) ws
        (drop (under + wants.want_size (want_meant want)) (F.frame frame.now).stack) }
{
    match want {
        Want::Long => long_verdict(frame, under),
        _ => want_verdict(world, want, frame.stack_word(under)),
    }
}

/// What the words on top of a stack are to wants; `None` exactly where the stack has fewer words than they want.
pub fn take_wanted<W: MethodWorld, F: FrameWords>(
    world: &W,
    frame: &F,
    wanted: WantedWords<'_>,
) -> Option<TakenWords>
    ensures { MatchOption result
        (nat_le (wants.words_wanted (words_listed wanted.entry)) (length (F.frame frame.now).stack) ≡ false)
        (λ taken. (taken.left + wants.words_wanted (words_listed wanted.entry) ≡ length (F.frame frame.now).stack)
        × (verdict_meant taken.verdict
        ≡ worst (wants.verdicts (W.environment world.now) (words_listed wanted.entry) (F.frame frame.now).stack))) }
{
    let height = frame.height();
    let mut left = height;
    let mut verdict = Verdict::Right;
    let mut rest = wanted;
    while let Some((want, others)) = rest.split_first() {
        let words = want.words();
        if left < words {
            return None;
        }
        verdict = worse_of(verdict, verdict_under(world, frame, want, height - left));
        left -= words;
        rest = others;
    }
    Some(TakenWords { verdict, left })
}
