//! Spans that are joined.

ghost use Rattle.std.specs.Prelude.{◌≡◌, ◌∷◌, [], IfOk};
ghost use Rattle.std.specs.List.Sorted.{IsPermutation, IsNonDecreasingBy};
ghost use Rattle.typing_frames.specs.declared.stores.FrameStores.{FrameStores};
ghost use Rattle.map_frames.specs.Mapped.{AreLocals};
ghost use Rattle.handler_frames.specs.Spans.{AreListed, AreWithin};

use crate::span::Span;
use std::alloc::{AllocError, Global};

// Puts spans of the same locals side by side, by their first instructions.
fn sort_by_locals(spans: &mut Vec<Span>)
    ensures { IsPermutation spans.old.items spans.new.items }
{
    spans.sort_unstable_by_key(|span| (span.locals.number(), span.first));
}

fn sort_by_first(spans: &mut Vec<Span>)
    ensures same { IsPermutation spans.old.items spans.new.items }
    ensures sorted { IsNonDecreasingBy (λ span. span.first) spans.new.items }
{
    spans.sort_unstable_by_key(|span| span.first);
}

// Appends a span to the others, or joins it with the last one.
fn add_span(spans: &mut Vec<Span>, span: Span) -> Result<(), AllocError>
    ensures others { IfOk result (λ _. AreWithin spans.old.items spans.new.items) }
    ensures added { IfOk result (λ _. AreWithin (span ∷ []) spans.new.items) }
    ensures kept { (stores : FrameStores) → AreListed stores spans.old.items → AreLocals stores span.locals → IfOk result (λ _. AreListed stores spans.new.items) }
{
    let Some(last) = spans.pop() else {
        spans.push(span)?;
        return Ok(());
    };
    if last.meets(span) {
        spans.push(last.joined(span))?;
        return Ok(());
    }
    spans.push(last)?;
    spans.push(span)?;
    Ok(())
}

// Spans in which all of these lie, by their first instructions. No two that have the same locals meet.
pub(crate) fn join_spans(alloc: Global, mut spans: Vec<Span>) -> Result<Vec<Span>, AllocError>
    ensures within { IfOk result (λ joined. AreWithin spans.items joined.items) }
    ensures kept { (stores : FrameStores) → AreListed stores spans.items → IfOk result (λ joined. AreListed stores joined.items) }
    ensures sorted { IfOk result (λ joined. IsNonDecreasingBy (λ span. span.first) joined.items) }
{
    sort_by_locals(&mut spans);
    let mut joined = Vec::new(alloc);
    for span in &spans {
        add_span(&mut joined, *span)?;
    }
    sort_by_first(&mut joined);
    Ok(joined)
}
