//! How many words an instruction takes.

ghost use Rattle.std.specs.Prelude.{◌≡◌, ◌≤◌};
ghost use Rattle.type_rules.specs.Wants.{words_wanted};
ghost use Rattle.step_wants.specs.Wanted.{words_listed};

use step_wants::WantedWords;

/// How many words are wanted, where a stack of `height` words has them.
pub(crate) fn words_taken(wanted: WantedWords<'_>, height: u32) -> u32
    requires { words_wanted (words_listed wanted) ≤ height }
    ensures { result ≡ words_wanted (words_listed wanted.entry) }
{
    let mut left = height;
    let mut rest = wanted;
    while let Some((want, others)) = rest.split_first() {
        left -= want.words();
        rest = others;
    }
    height - left
}
