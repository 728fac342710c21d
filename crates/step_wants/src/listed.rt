//! Lists of wants.

ghost use Rattle.std.specs.Prelude.{◌≡◌, [], ◌∷◌, MatchOption};
ghost use Rattle.step_wants.specs.Wanted.{want_meant, few_wanted, words_listed};

use crate::want::{Want, type_wanted};
use link_types::ValueType;

/// A list of up to four wants.
#[derive(Clone, Copy)]
pub enum FewWants {
    Nothing,
    One(Want),
    Two(Want, Want),
    Three(Want, Want, Want),
    Four(Want, Want, Want, Want),
}

/// The wants of an instruction, from the top of the stack on: the arguments of a call, the last one first, and what
/// is under them.
#[derive(Clone, Copy)]
pub struct WantedWords<'a> {
    /// The types of the arguments, the first one first.
    pub arguments: &'a [ValueType],
    /// What is under the arguments.
    pub others: FewWants,
}

impl FewWants {
    // The first of these wants, and the others after it.
    fn split_first(self) -> Option<(Want, FewWants)>
        ensures { MatchOption result (few_wanted self ≡ [])
            (λ p. few_wanted self ≡ want_meant p.0 ∷ few_wanted p.1) }
    {
        match self {
            FewWants::Nothing => None,
            FewWants::One(a) => Some((a, FewWants::Nothing)),
            FewWants::Two(a, b) => Some((a, FewWants::One(b))),
            FewWants::Three(a, b, c) => Some((a, FewWants::Two(b, c))),
            FewWants::Four(a, b, c, d) => Some((a, FewWants::Three(b, c, d))),
        }
    }
}

impl<'a> WantedWords<'a> {
    /// The first want, and the others after it; `None` where nothing is wanted.
    pub fn split_first(self) -> Option<(Want, WantedWords<'a>)>
        ensures { MatchOption result (words_listed self.entry ≡ [])
            (λ p. words_listed self.entry ≡ want_meant p.0 ∷ words_listed p.1) }
    {
        if let Some((last, arguments)) = self.arguments.split_last() {
            let others = WantedWords {
                arguments,
                others: self.others,
            };
            return Some((type_wanted(*last), others));
        }
        let (first, others) = self.others.split_first()?;
        Some((
            first,
            WantedWords {
                arguments: &[],
                others,
            },
        ))
    }
}
