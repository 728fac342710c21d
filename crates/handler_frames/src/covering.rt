//! The handlers of a method, as a walk over its instructions comes to them.

ghost use Rattle.std.specs.Prelude.{◌≡◌, ◌+◌, IfOk};
ghost use Rattle.type_rules.specs.Assignable.{Hierarchy};
ghost use Rattle.type_rules.specs.Environment.{Environment};
ghost use Rattle.type_rules.specs.TypeFaults as faults;
ghost use Rattle.typing_frames.specs.Frames.{shown, IsFrame, LeavesFrames, StoresRemember};
ghost use Rattle.typing_frames.specs.Told.{Tells};
ghost use Rattle.handler_frames.specs.Methods.{AreHandlersOf, AreMade};

use crate::find::find_spans;
use crate::join::join_spans;
use crate::method::MethodHandlers;
use crate::ordered::check_in_order;
use crate::span::Span;
use map_frames::PoolOperands;
use std::alloc::{AllocError, Global};
use type_lists::Words;
use typing_frames::{CheckStop, CurrentFrame, FrameStores};
use word_types::{ClassHierarchy, is_assignable};

/// Locals that differ from those before at fewer places are compared with those of spans at these places alone. A store
/// changes up to three, an append or a chop of map frames up to six.
const FEW: u32 = 8;

/// What a walk over a method's instructions knows of its handlers. Handlers whose entries have the same list of locals
/// are one span where they meet. The locals of a frame are compared with those of each span that covers the instruction,
/// and only where they are others than before, or the span is new.
#[derive(Drop)]
pub struct CoveringHandlers {
    // By their first instructions.
    spans: Vec<Span>,
    // How many of them have begun.
    begun: usize,
    // Those that have begun, but for some that have ended.
    active: Vec<Span>,
    // The locals that are known to go to those of active spans ..
    locals: Words,
    // .. and to how many, from the first one on ..
    held: usize,
    // .. as long as lists aren't given back more often than this.
    since: u64,
    // The first instruction that a handler covers that takes no frame.
    limit: u32,
}

impl CoveringHandlers {
    ghost use Rattle.std.specs.Prelude.{◌≤◌, true, false, slice_get, length};
    ghost use Rattle.std.specs.List.{All};
    ghost use Rattle.std.specs.List.Sorted.{IsNonDecreasingBy};
    ghost use Rattle.type_lists.specs.Shown.{EndsBy};
    ghost use Rattle.type_lists.specs.Store.{word_at};
    ghost use Rattle.handler_frames.specs.Known.{AreStill, FitsStores, GoesAt, GoesOn, GoToFirst, GoTo, HasBegun, HasSameSpans, KnowsHandlers, TakesFrame};

    /// What is known of a method's handlers before its first instruction.
    pub fn new<H: ClassHierarchy, P: PoolOperands>(
        alloc: Global,
        stores: &FrameStores,
        hierarchy: &H,
        pool: &P,
        method: MethodHandlers<'_>,
    ) -> Result<Self, AllocError>
        requires made { AreMade stores.now method }
        ensures fits { IfOk result (λ made. FitsStores (H.hierarchy hierarchy.now) stores.now made) }
        ensures knows { (env : Environment) → env.hierarchy ≡ H.hierarchy hierarchy.now → AreHandlersOf env stores.now (P.operands pool.now) method.entry
            → IfOk result (λ made. KnowsHandlers stores.now made env 0) }
    {
        let found = find_spans(alloc, hierarchy, pool, method)?;
        let spans = join_spans(alloc, found.spans)?;
        Ok(CoveringHandlers {
            spans,
            begun: 0,
            active: Vec::new(alloc),
            locals: stores.locals.tops(),
            held: 0,
            since: stores.locals.given_back(),
            limit: found.limit,
        })
    }

    // The next span that has yet to begin.
    fn next(&self) -> Option<Span>
        ensures { result ≡ slice_get self.now.spans.items self.now.begun }
    {
        self.spans.get(self.begun).copied()
    }

    // Lets the next span begin, if it begins by an instruction, and returns whether it does.
    fn begin_next(&mut self, step: u32) -> Result<bool, AllocError>
        ensures goes { IfOk result (λ _. GoesOn self.old self.new step) }
        ensures more { IfOk result (λ b. b ≡ true → (self.new.spans.items ≡ self.old.spans.items) × (self.new.begun ≡ self.old.begun + 1) × (self.new.begun ≤ length self.old.spans.items)) }
        ensures begun { IsNonDecreasingBy (λ s. s.first) self.old.spans.items → IfOk result (λ b. b ≡ false → HasBegun self.new step) }
    {
        let Some(span) = self.next() else {
            return Ok(false);
        };
        if step < span.first {
            return Ok(false);
        }
        self.active.push(span)?;
        self.begun += 1;
        Ok(true)
    }

    // Lets the spans begin that begin by an instruction.
    fn begin(&mut self, step: u32) -> Result<(), AllocError>
        ensures goes { IfOk result (λ _. GoesOn self.old self.new step) }
        ensures begun { IsNonDecreasingBy (λ s. s.first) self.old.spans.items → IfOk result (λ _. HasBegun self.new step) }
    {
        while self.begin_next(step)? {}
        Ok(())
    }

    // Forgets the spans that have ended before an instruction.
    fn forget_ended(&mut self, step: u32)
        ensures goes { GoesOn self.old self.new step }
    {
        let all = self.held == self.active.len();
        self.active.retain(|span| step < span.end);
        self.held = if all { self.active.len() } else { 0 };
    }

    // The same, where the frame isn't like the one before.
    fn forget_for(&mut self, step: u32, frame: CurrentFrame)
        ensures goes { GoesOn self.old self.new step }
    {
        if frame.unset || frame.locals.number() != self.locals.number() {
            self.forget_ended(step);
        }
    }

    // Tests whether the word of locals at a place goes to those of the spans to which the held ones go.
    fn go_at<H: ClassHierarchy>(
        &self,
        stores: &FrameStores,
        hierarchy: &H,
        locals: Words,
        at: u32,
    ) -> bool
        requires inside { self.now.held ≤ length self.now.active.items }
        ensures told { result ≡ true → GoesAt (H.hierarchy hierarchy.now) stores.now self.now locals at }
    {
        let word = stores.locals.word(locals, at);
        for span in &self.active[..self.held] {
            if !is_assignable(hierarchy, word, stores.locals.word(span.locals, at)) {
                return false;
            }
        }
        true
    }

    // How many of the active spans, from the first one on, other locals go to for sure: as many as the held ones go to,
    // or none. It looks at words where both differ, if they differ at few places.
    fn held_by<H: ClassHierarchy>(
        &self,
        stores: &FrameStores,
        hierarchy: &H,
        locals: Words,
    ) -> usize
        requires fits { FitsStores (H.hierarchy hierarchy.now) stores.now self.now }
        requires still { AreStill stores.now self.now }
        requires end { EndsBy (word_at stores.now.locals locals) stores.now.locals.most }
        ensures inside { result ≤ self.now.held }
        ensures go { GoToFirst (H.hierarchy hierarchy.now) stores.now locals self.now.active.items result }
    {
        let mut from = 0;
        for _ in 0..FEW {
            let Some(at) = stores.locals.next_difference(self.locals, locals, from) else {
                return self.held;
            };
            if !self.go_at(stores, hierarchy, locals, at) {
                return 0;
            }
            from = at + 1;
        }
        0
    }

    // The same, or none where the held locals are given back.
    fn still_held_by<H: ClassHierarchy>(
        &self,
        stores: &FrameStores,
        hierarchy: &H,
        locals: Words,
    ) -> usize
        requires fits { FitsStores (H.hierarchy hierarchy.now) stores.now self.now }
        requires end { EndsBy (word_at stores.now.locals locals) stores.now.locals.most }
        ensures inside { result ≤ length self.now.active.items }
        ensures go { GoToFirst (H.hierarchy hierarchy.now) stores.now locals self.now.active.items result }
    {
        if self.since != stores.locals.given_back() {
            return 0;
        }
        self.held_by(stores, hierarchy, locals)
    }

    // Holds these locals.
    fn hold<H: ClassHierarchy>(
        &mut self,
        stores: &mut FrameStores,
        hierarchy: &H,
        frame: CurrentFrame,
    )
        requires fits { FitsStores (H.hierarchy hierarchy.now) stores.old self.old }
        requires frame { IsFrame stores.old frame }
        ensures leaves { LeavesFrames stores.old stores.new }
        ensures remembered { (h : Hierarchy) → StoresRemember h stores.old → StoresRemember h stores.new }
        ensures fits { FitsStores (H.hierarchy hierarchy.now) stores.new self.new }
        ensures still { AreStill stores.new self.new }
        ensures same { HasSameSpans self.old self.new }
        ensures held { self.new.locals ≡ frame.locals }
    {
        let given_back = stores.locals.given_back();
        if frame.locals.number() == self.locals.number() && self.since == given_back {
            return;
        }
        stores.locals.fix();
        self.held = self.still_held_by(stores, hierarchy, frame.locals);
        self.locals = frame.locals;
        self.since = given_back;
    }

    // Tests whether the locals that are held go to those of the next active span; true where there is none.
    fn go_to_next<H: ClassHierarchy>(
        &mut self,
        stores: &mut FrameStores,
        hierarchy: &H,
        span: Span,
    ) -> Result<bool, AllocError>
        requires fits { FitsStores (H.hierarchy hierarchy.now) stores.old self.old }
        requires still { AreStill stores.old self.old }
        requires remembered { StoresRemember (H.hierarchy hierarchy.now) stores.old }
        requires next { slice_get self.old.active.items self.old.held ≡ Some span }
        ensures leaves { LeavesFrames stores.old stores.new }
        ensures remembered { StoresRemember (H.hierarchy hierarchy.now) stores.new }
        ensures fits { IfOk result (λ _. FitsStores (H.hierarchy hierarchy.now) stores.new self.new) }
        ensures still { IfOk result (λ _. AreStill stores.new self.new) }
        ensures same { HasSameSpans self.old self.new }
        ensures locals { self.new.locals ≡ self.old.locals }
        ensures more { IfOk result (λ b. b ≡ true → self.new.held ≡ self.old.held + 1) }
    {
        if !stores
            .locals
            .are_assignable(hierarchy, self.locals, span.locals)?
        {
            return Ok(false);
        }
        self.held += 1;
        Ok(true)
    }

    // Tests whether the locals that are held go to those of all active spans.
    fn go_to_active<H: ClassHierarchy>(
        &mut self,
        stores: &mut FrameStores,
        hierarchy: &H,
    ) -> Result<bool, AllocError>
        requires fits { FitsStores (H.hierarchy hierarchy.now) stores.old self.old }
        requires still { AreStill stores.old self.old }
        requires remembered { StoresRemember (H.hierarchy hierarchy.now) stores.old }
        ensures leaves { LeavesFrames stores.old stores.new }
        ensures remembered { StoresRemember (H.hierarchy hierarchy.now) stores.new }
        ensures fits { IfOk result (λ _. FitsStores (H.hierarchy hierarchy.now) stores.new self.new) }
        ensures same { HasSameSpans self.old self.new }
        ensures told { IfOk result (λ b. b ≡ true → All (λ s. GoTo (H.hierarchy hierarchy.now) stores.new self.old.locals s.locals) self.new.active.items) }
    {
        while let Some(span) = self.active.get(self.held).copied() {
            if !self.go_to_next(stores, hierarchy, span)? {
                return Ok(false);
            }
        }
        Ok(true)
    }

    // Tests whether a frame breaks no rule of the active spans.
    fn takes<H: ClassHierarchy>(
        &mut self,
        stores: &mut FrameStores,
        hierarchy: &H,
        frame: CurrentFrame,
    ) -> Result<bool, AllocError>
        requires fits { FitsStores (H.hierarchy hierarchy.now) stores.old self.old }
        requires frame { IsFrame stores.old frame }
        requires remembered { StoresRemember (H.hierarchy hierarchy.now) stores.old }
        ensures leaves { LeavesFrames stores.old stores.new }
        ensures remembered { StoresRemember (H.hierarchy hierarchy.now) stores.new }
        ensures fits { IfOk result (λ _. FitsStores (H.hierarchy hierarchy.now) stores.new self.new) }
        ensures same { HasSameSpans self.old self.new }
        ensures told { IfOk result (λ b. b ≡ true → TakesFrame (H.hierarchy hierarchy.now) stores.new frame self.new.active.items) }
    {
        if self.active.is_empty() {
            return Ok(true);
        }
        if frame.unset {
            return Ok(false);
        }
        self.hold(stores, hierarchy, frame);
        self.go_to_active(stores, hierarchy)
    }

    // Tests whether a frame breaks no rule of the handlers that cover its instruction. It is, where the answer is true.
    fn passes<H: ClassHierarchy>(
        &mut self,
        stores: &mut FrameStores,
        hierarchy: &H,
        step: u32,
        frame: CurrentFrame,
    ) -> Result<bool, AllocError>
        requires fits { FitsStores (H.hierarchy hierarchy.now) stores.old self.old }
        requires frame { IsFrame stores.old frame }
        requires remembered { StoresRemember (H.hierarchy hierarchy.now) stores.old }
        ensures leaves { LeavesFrames stores.old stores.new }
        ensures remembered { StoresRemember (H.hierarchy hierarchy.now) stores.new }
        ensures fits { IfOk result (λ _. FitsStores (H.hierarchy hierarchy.now) stores.new self.new) }
        ensures knows { (env : Environment) → KnowsHandlers stores.old self.old env step → IfOk result (λ _. KnowsHandlers stores.new self.new env step) }
        ensures told { (env : Environment) → env.hierarchy ≡ H.hierarchy hierarchy.now → KnowsHandlers stores.old self.old env step
            → IfOk result (λ b. b ≡ true → faults.handlers_fault env step (shown stores.old frame) env.handlers ≡ None) }
    {
        if self.limit <= step {
            return Ok(false);
        }
        self.forget_for(step, frame);
        self.begin(step)?;
        self.takes(stores, hierarchy, frame)
    }

    /// Checks that each handler that covers an instruction takes the frame there: the object of a constructor is
    /// initialized, there is a map frame at the handler's entry, the locals and what is caught are assignable to it,
    /// and what is caught is a Throwable (JVMS 4.10.1.6). The check is made once at each instruction, from the first
    /// one on. All frames stay as they are, also after an error.
    ///
    /// # Errors
    ///
    /// The first rule that is broken, of the first handler that breaks one.
    pub fn check<H: ClassHierarchy, P: PoolOperands>(
        &mut self,
        stores: &mut FrameStores,
        hierarchy: &H,
        pool: &P,
        method: MethodHandlers<'_>,
        step: u32,
        frame: CurrentFrame,
    ) -> Result<(), CheckStop>
        requires made { AreMade stores.old method }
        requires fits { FitsStores (H.hierarchy hierarchy.now) stores.old self.old }
        requires frame { IsFrame stores.old frame }
        requires remembered { StoresRemember (H.hierarchy hierarchy.now) stores.old }
        ensures leaves { LeavesFrames stores.old stores.new }
        ensures remembered { StoresRemember (H.hierarchy hierarchy.now) stores.new }
        ensures fits { IfOk result (λ _. FitsStores (H.hierarchy hierarchy.now) stores.new self.new) }
        ensures told { (env : Environment) → env.hierarchy ≡ H.hierarchy hierarchy.now → AreHandlersOf env stores.old (P.operands pool.now) method.entry
            → KnowsHandlers stores.old self.old env step → Tells result (faults.handlers_fault env step (shown stores.old frame) env.handlers) }
        ensures knows { (env : Environment) → KnowsHandlers stores.old self.old env step → IfOk result (λ _. KnowsHandlers stores.new self.new env (step + 1)) }
    {
        if self.passes(stores, hierarchy, step, frame)? {
            return Ok(());
        }
        check_in_order(stores, hierarchy, pool, method, step, frame)
    }
}
