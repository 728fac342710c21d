//! Words of a line.

ghost use Rattle.std.specs.Prelude.{◌≡◌, MatchOption, Some, None};
ghost use Rattle.trace_journal.specs.Parsing as spec;

/// A line up to its first space, and what comes after that space; nothing comes where there is no space.
#[derive(Clone, Copy)]
pub struct Cut<'a> {
    pub word: &'a [u8],
    pub rest: Option<&'a [u8]>,
}

/// Cuts a line at its first space.
pub fn cut_word(line: &[u8]) -> Cut<'_>
    ensures word { result.word.now ≡ (spec.cut line.now).word }
    ensures rest { MatchOption result.rest ((spec.cut line.now).rest ≡ None) (λ rest. (spec.cut line.now).rest ≡ Some rest.now) }
{
    for place in 0..line.len() {
        if line[place] == b' ' {
            let (word, _) = line.split_at(place);
            let (_, rest) = line.split_at(place + 1);
            return Cut {
                word,
                rest: Some(rest),
            };
        }
    }
    Cut {
        word: line,
        rest: None,
    }
}
