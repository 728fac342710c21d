//! The spans of a method's handlers.

ghost use Rattle.std.specs.Prelude.{◌≡◌, IfOk, IfSome};
ghost use Rattle.type_rules.specs.Environment.{Environment};
ghost use Rattle.type_rules.specs.Environments as environments;
ghost use Rattle.typing_frames.specs.declared.stores.FrameStores.{FrameStores};
ghost use Rattle.map_frames.specs.Mapped.{AreLocals};
ghost use Rattle.handler_frames.specs.Methods.{AreHandlersOf, AreMade};
ghost use Rattle.handler_frames.specs.Spans.{AreListed, FindsSpans, StandsFor};

use crate::method::MethodHandlers;
use crate::ordered::{caught_type, is_thrown, takes_caught};
use crate::span::Span;
use code_decode::Handler;
use map_frames::PoolOperands;
use std::alloc::{AllocError, Global};
use word_types::ClassHierarchy;

// The span of a handler; `None` where it takes no frame.
fn span_of<H: ClassHierarchy, P: PoolOperands>(
    hierarchy: &H,
    pool: &P,
    method: MethodHandlers<'_>,
    handler: &Handler,
) -> Option<Span>
    ensures kept { (stores : FrameStores) → AreMade stores method.entry → IfSome result (λ s. AreLocals stores s.locals) }
    ensures stands { (stores : FrameStores) (env : Environment) → env.hierarchy ≡ H.hierarchy hierarchy.now → AreHandlersOf env stores (P.operands pool.now) method.entry
        → IfSome result (StandsFor env stores (environments.typed_handler (P.operands pool.now) handler.now)) }
{
    let map = method.maps.at(method.frames, handler.entry)?;
    let caught = caught_type(pool, handler.kind);
    if map.passes || !takes_caught(hierarchy, map, caught) || !is_thrown(hierarchy, caught) {
        return None;
    }
    Some(Span {
        first: handler.first,
        end: handler.end,
        locals: map.locals,
    })
}

// The spans of handlers.
#[derive(Drop)]
pub(crate) struct FoundSpans {
    pub(crate) spans: Vec<Span>,
    // The first instruction that a handler covers that takes no frame.
    pub(crate) limit: u32,
}

impl FoundSpans {
    ghost use Rattle.std.specs.Prelude.{◌∷◌, ◌++◌, [], List};
    ghost use Rattle.type_rules.specs.Environment.{TypedHandler};

    // No spans. Takes no memory.
    fn new(alloc: Global) -> Self
        ensures { result.spans.items ≡ [] }
    {
        FoundSpans {
            spans: Vec::new(alloc),
            limit: u32::MAX,
        }
    }

    // Adds what is found of the next handler, which covers instructions from the first one on.
    fn add(&mut self, span: Option<Span>, first: u32) -> Result<(), AllocError>
        ensures kept { (stores : FrameStores) → AreListed stores self.old.spans.items → IfSome span (λ s. AreLocals stores s.locals)
            → IfOk result (λ _. AreListed stores self.new.spans.items) }
        ensures finds { (env : Environment) (stores : FrameStores) (handlers : List TypedHandler) (h : TypedHandler) → FindsSpans env stores handlers self.old.limit self.old.spans.items
            → h.first ≡ first → IfSome span (StandsFor env stores h) → IfOk result (λ _. FindsSpans env stores (handlers ++ h ∷ []) self.new.limit self.new.spans.items) }
    {
        let Some(span) = span else {
            self.limit = self.limit.min(first);
            return Ok(());
        };
        self.spans.push(span)?;
        Ok(())
    }
}

// The spans of all handlers that take a frame.
pub(crate) fn find_spans<H: ClassHierarchy, P: PoolOperands>(
    alloc: Global,
    hierarchy: &H,
    pool: &P,
    method: MethodHandlers<'_>,
) -> Result<FoundSpans, AllocError>
    ensures kept { (stores : FrameStores) → AreMade stores method.entry → IfOk result (λ found. AreListed stores found.spans.items) }
    ensures finds { (stores : FrameStores) (env : Environment) → env.hierarchy ≡ H.hierarchy hierarchy.now → AreHandlersOf env stores (P.operands pool.now) method.entry
        → IfOk result (λ found. FindsSpans env stores env.handlers found.limit found.spans.items) }
{
    let mut found = FoundSpans::new(alloc);
    for handler in method.handlers {
        found.add(span_of(hierarchy, pool, method, handler), handler.first)?;
    }
    Ok(found)
}
