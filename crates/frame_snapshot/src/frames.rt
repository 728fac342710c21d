//! Frames and their words.

ghost use Rattle.std.specs.Prelude.{◌≡◌, ◌≤◌, ◌<◌, false, IsTrue, ◌↔◌, length, slice_get, Some, Err, IfOk, OnOk, OnErr, [], reverse};
ghost use Rattle.frame_snapshot.specs.declared.frames.PushRefusal.{PushRefusal as refusals};
ghost use Rattle.frame_snapshot.specs.FrameStack.{with_step, with_stage, with_local, with_word, without_word, without_words, frame_count, with_call, nearest_room, without_call, with_save, without_save, restored, was_saved, unsaved, launch_frame};

use crate::activation::{Activation, Save};
use crate::row::{append_cut, make_room, move_down, put_back};
use crate::stage::FrameStage;
use link_types::MethodId;
use std::alloc::{AllocError, Global};
use std::marker::Model;
use std::mem;

/// The frames of a thread. Contracts see the top frame, those below it, and the saves.
#[derive(Drop)]
pub struct Frames {
    words: Vec<u32>,
    here: Activation,
    below: Vec<Activation>,
    saves: Vec<Save>,
    kept: Vec<u32>,
}

impl Model for Frames {
    ghost use Rattle.frame_snapshot.specs.FrameStack.{FrameStack};

    ghost Value = { FrameStack };

    ghost use Rattle.frame_snapshot.specs.Layout.{frames_of, AreLaidOut};

    ghost view = { frames_of };

    ghost invariant = { AreLaidOut };
}

/// A frame that a call makes.
#[derive(Clone, Copy)]
pub struct NewFrame {
    pub method: MethodId,
    /// The object whose monitor was entered for the call, or 0.
    pub monitor: u32,
    /// How many words of the caller's stack are its first locals.
    pub arguments: usize,
    /// The words of the local variables.
    pub max_locals: u16,
    /// The most words that the operand stack may have.
    pub max_stack: u16,
    /// Where the caller is in its instruction while the call goes on.
    pub caller: FrameStage,
}

/// Why a frame wasn't made.
#[derive(Clone, Copy)]
pub enum PushRefusal {
    /// There are 1,024 frames (`StackOverflowError` in Java).
    Full,
    /// There was no memory.
    NoMemory,
}

impl From<AllocError> for PushRefusal {
    ghost use Rattle.frame_snapshot.specs.declared.frames.PushRefusal.{PushRefusal};

    ghost from_gives = { λ _ refusal. refusal ≡ PushRefusal.NoMemory };

    fn from(_error: AllocError) -> Self {
        PushRefusal::NoMemory
    }
}

/// How many frames can lie below the top one.
const MOST_BELOW: usize = 1023;

/// For how many words a thread has room from the beginning: 256 bytes, so that the words of two threads rarely share a line of a
/// processor's memory, on which two host threads would have to wait for each other.
const FIRST_ROOM: usize = 64;

impl Frames {
    /// The lowest frame of a thread, which executes no code: the method that it launches, and how many words its stack
    /// may have.
    pub fn launch(
        alloc: Global,
        method: MethodId,
        stage: FrameStage,
        room: u16,
    ) -> Result<Frames, AllocError>
        ensures { IfOk result (λ frames. frames ≡ launch_frame method stage room) }
    {
        let mut words = Vec::with_capacity(alloc, FIRST_ROOM)?;
        words.resize(usize::from(room), 0)?;
        let here = Activation {
            method,
            step: 0,
            stage,
            monitor: 0,
            base: 0,
            floor: 0,
            top: 0,
            limit: usize::from(room),
        };
        Ok(Frames {
            words,
            here,
            below: Vec::new(alloc),
            saves: Vec::new(alloc),
            kept: Vec::new(alloc),
        })
    }

    /// The same frames with nothing saved.
    pub fn copy(&self, alloc: Global) -> Result<Frames, AllocError>
        ensures { IfOk result (λ frames. frames ≡ unsaved self.now) }
    {
        let words = Vec::from_slice(alloc, &self.words)?;
        let below = Vec::from_slice(alloc, &self.below)?;
        Ok(Frames {
            words,
            here: self.here,
            below,
            saves: Vec::new(alloc),
            kept: Vec::new(alloc),
        })
    }

    /// Takes the frames out, and leaves one with no words in their place. Takes no memory.
    pub fn take(&mut self) -> Frames
        ensures taken { result ≡ self.old }
        ensures left { self.new ≡ launch_frame self.old.here.method self.old.here.stage 0 }
    {
        let alloc = *self.words.allocator();
        let here = Activation {
            method: self.here.method,
            step: 0,
            stage: self.here.stage,
            monitor: 0,
            base: 0,
            floor: 0,
            top: 0,
            limit: 0,
        };
        let left = Frames {
            words: Vec::new(alloc),
            here,
            below: Vec::new(alloc),
            saves: Vec::new(alloc),
            kept: Vec::new(alloc),
        };
        mem::replace(self, left)
    }

    /// The method that the top frame executes.
    pub fn method(&self) -> MethodId
        ensures { result ≡ self.now.here.method }
    {
        self.here.method
    }

    /// The number of the top frame's instruction.
    #[inline(always)]
    pub fn step(&self) -> usize
        ensures { result ≡ self.now.here.step }
    {
        self.here.step
    }

    /// Where the top frame is inside its instruction.
    #[inline(always)]
    pub fn stage(&self) -> FrameStage
        ensures { result ≡ self.now.here.stage }
    {
        self.here.stage
    }

    /// The same, where the top frame keeps it.
    #[inline(always)]
    pub fn stage_here(&self) -> &FrameStage
        ensures { result.now ≡ self.now.here.stage }
    {
        &self.here.stage
    }

    /// The object that the top frame entered as it began, or 0.
    pub fn monitor(&self) -> u32
        ensures { result ≡ self.now.here.monitor }
    {
        self.here.monitor
    }

    /// Whether the operand stack has at least `count` words.
    #[inline(always)]
    pub fn has(&self, count: usize) -> bool
        ensures { IsTrue result ↔ (count ≤ length self.now.here.stack) }
    {
        count <= self.here.top - self.here.floor
    }

    /// How many words the operand stack has.
    #[inline(always)]
    pub fn stack_len(&self) -> usize
        ensures { result ≡ length self.now.here.stack }
    {
        self.here.top - self.here.floor
    }

    /// Whether the operand stack has room for `count` more words.
    #[inline(always)]
    pub fn has_room(&self, count: usize) -> bool
        ensures { IsTrue result ↔ (count ≤ self.now.here.free) }
    {
        count <= self.here.limit - self.here.top
    }

    /// Whether there is a local variable of this number.
    #[inline(always)]
    pub fn has_local(&self, local: usize) -> bool
        ensures { IsTrue result ↔ (local < length self.now.here.locals) }
    {
        local < self.here.floor - self.here.base
    }

    /// The word that lies `depth` words below the top of the stack.
    #[inline(always)]
    pub fn word(&self, depth: usize) -> u32
        requires { depth < length self.now.here.stack }
        ensures { slice_get self.now.here.stack depth ≡ Some result }
    {
        self.words[self.here.top - 1 - depth]
    }

    /// The word of a local variable.
    #[inline(always)]
    pub fn local(&self, local: usize) -> u32
        requires { local < length self.now.here.locals }
        ensures { slice_get self.now.here.locals local ≡ Some result }
    {
        self.words[self.here.base + local]
    }

    /// Gives a local variable another word.
    #[inline(always)]
    #[tactic(auto, using(crate::proofs::WordLemmas::cut_set_inside, crate::proofs::WordLemmas::cut_set_below))]
    pub fn set_local(&mut self, local: usize, word: u32)
        requires { local < length self.old.here.locals }
        ensures { self.new ≡ with_local self.old local word }
    {
        let at = self.here.base + local;
        self.words[at] = word;
    }

    /// Pushes a word, for which there must be room.
    #[inline(always)]
    #[tactic(auto, using(crate::proofs::WordLemmas::cut_set_above, crate::proofs::WordLemmas::stack_pushed))]
    pub fn push_word(&mut self, word: u32)
        requires { 0 < self.old.here.free }
        ensures { self.new ≡ with_word self.old word }
    {
        let at = self.here.top;
        self.words[at] = word;
        self.here.top = at + 1;
    }

    /// Takes the top word off the stack, which must have one.
    #[inline(always)]
    #[tactic(auto, using(crate::proofs::WordLemmas::stack_popped))]
    pub fn pop_word(&mut self) -> u32
        requires { 0 < length self.old.here.stack }
        ensures word { slice_get self.old.here.stack 0 ≡ Some result }
        ensures rest { self.new ≡ without_word self.old }
    {
        let at = self.here.top - 1;
        self.here.top = at;
        self.words[at]
    }

    /// Takes `count` words off the stack, which must have them.
    #[inline(always)]
    pub fn drop_words(&mut self, count: usize)
        requires { count ≤ length self.old.here.stack }
        ensures { self.new ≡ without_words self.old count }
    {
        self.here.top -= count;
    }

    /// Puts the top frame at another instruction.
    #[inline(always)]
    pub fn set_step(&mut self, step: usize)
        ensures { self.new ≡ with_step self.old step }
    {
        self.here.step = step;
    }

    /// Puts the top frame elsewhere inside its instruction.
    #[inline(always)]
    pub fn set_stage(&mut self, stage: FrameStage)
        ensures { self.new ≡ with_stage self.old stage }
    {
        self.here.stage = stage;
    }

    /// Makes the frame of a method on top: the words of the arguments are taken off the caller's stack, and are the
    /// first locals. Afterwards the top frame is at its first instruction.
    ///
    /// `Full` comes exactly where there are 1,024 frames. After an error the frames are as before.
    pub fn push(&mut self, call: NewFrame) -> Result<(), PushRefusal>
        requires arguments { call.arguments ≤ length self.old.here.stack }
        requires locals { call.arguments ≤ call.max_locals }
        ensures ok { OnOk result (self.new ≡ with_call self.old call) }
        ensures full { (result ≡ Err refusals.Full) ↔ (1024 ≤ frame_count self.old) }
        ensures err { OnErr result (self.new ≡ self.old) }
    {
        if self.below.len() >= MOST_BELOW {
            return Err(PushRefusal::Full);
        }
        let mut caller = self.here;
        let base = caller.top - call.arguments;
        let floor = base + usize::from(call.max_locals);
        let limit = floor + usize::from(call.max_stack);
        self.below.reserve(1)?;
        make_room(&mut self.words, caller.top, floor, limit)?;
        caller.top = base;
        caller.stage = call.caller;
        self.below.push_reserved(caller);
        self.here = Activation {
            method: call.method,
            step: 0,
            stage: FrameStage::Begun,
            monitor: call.monitor,
            base,
            floor,
            top: floor,
            limit,
        };
        Ok(())
    }

    /// How many words there is room for on the stack of the nearest frame below, 0 where there is none.
    pub fn caller_room(&self) -> usize
        ensures { result ≡ nearest_room self.now.below }
    {
        match self.below.last() {
            Some(caller) => caller.limit - caller.top,
            None => 0,
        }
    }

    /// There are at most 1,024 frames. Does nothing.
    pub fn has_few(&self)
        ensures { frame_count self.now ≤ 1024 }
    {
        let _below = self.below.as_slice();
    }

    /// Whether there is a frame below the top one.
    pub fn has_caller(&self) -> bool
        ensures { IsTrue result ↔ (0 < length self.now.below) }
    {
        !self.below.is_empty()
    }

    /// Ends the top frame, which has a caller and was on top at no save. The top `words` words of its stack go onto the
    /// caller's stack, which has room for them. Takes no memory.
    pub fn pop(&mut self, words: usize)
        requires caller { 0 < length self.old.below }
        requires words { words ≤ length self.old.here.stack }
        requires room { words ≤ nearest_room self.old.below }
        requires unsaved { was_saved self.old ≡ false }
        ensures { self.new ≡ without_call self.old words }
    {
        let from = self.here.top - words;
        if let Some(caller) = self.below.pop() {
            move_down(&mut self.words, from, caller.top, words);
            self.here = caller;
            self.here.top = caller.top + words;
        }
    }

    /// Whether the top frame was on top at one of the saves.
    pub fn was_saved(&self) -> bool
        ensures { result ≡ was_saved self.now }
    {
        let depth = self.below.len();
        match self.saves.last() {
            Some(save) => save.depth == depth,
            None => false,
        }
    }

    /// Whether something is saved.
    pub fn has_saves(&self) -> bool
        ensures { IsTrue result ↔ (0 < length self.now.saves) }
    {
        !self.saves.is_empty()
    }

    /// Saves the frames, on top of the saves. After an error they are as before.
    pub fn save(&mut self) -> Result<(), AllocError>
        ensures ok { OnOk result (self.new ≡ with_save self.old) }
        ensures err { OnErr result (self.new ≡ self.old) }
    {
        let save = Save {
            here: self.here,
            from: self.kept.len(),
            depth: self.below.len(),
        };
        self.saves.reserve(1)?;
        append_cut(&mut self.kept, &self.words, save.here.base, save.here.top)?;
        self.saves.push_reserved(save);
        Ok(())
    }

    /// Goes back to the frames of the last save, which is taken off. There must be one. Takes no memory.
    pub fn restore(&mut self)
        requires { 0 < length self.old.saves }
        ensures { self.new ≡ restored self.old }
    {
        if let Some(save) = self.saves.pop() {
            let length = save.here.top - save.here.base;
            put_back(
                &mut self.words,
                save.here.base,
                &self.kept,
                save.from,
                length,
            );
            self.kept.truncate(save.from);
            self.below.truncate(save.depth);
            self.here = save.here;
        }
    }

    /// Takes the last save off. There must be one. Takes no memory.
    pub fn drop_save(&mut self)
        requires { 0 < length self.old.saves }
        ensures { self.new ≡ without_save self.old }
    {
        if let Some(save) = self.saves.pop() {
            self.kept.truncate(save.from);
        }
    }
}
