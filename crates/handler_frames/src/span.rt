//! Instructions that handlers cover which take the same locals.

ghost use Rattle.std.specs.Prelude.{◌≡◌, ◌≤◌};

use type_lists::Words;

// Instructions from the first one on, before the end, and locals to which those of their frames have to go.
#[derive(Clone, Copy)]
pub(crate) struct Span {
    pub(crate) first: u32,
    pub(crate) end: u32,
    pub(crate) locals: Words,
}

impl Span {
    ghost use Rattle.std.specs.Prelude.{true};
    ghost use Rattle.handler_frames.specs.Spans.{IsWithin};

    // Tests whether this span and one that doesn't begin before it are one.
    pub(crate) fn meets(self, next: Self) -> bool
        ensures { result ≡ true → self.locals ≡ next.locals }
    {
        self.locals.number() == next.locals.number() && next.first <= self.end
    }

    // The span of both.
    pub(crate) fn joined(self, next: Self) -> Self
        requires { self.locals ≡ next.locals }
        ensures left { IsWithin self result }
        ensures right { IsWithin next result }
    {
        Span {
            first: self.first.min(next.first),
            end: self.end.max(next.end),
            locals: self.locals,
        }
    }
}
