//! The code of a method, made line by line.

ghost use Rattle.std.specs.Prelude.{◌≡◌, ◌<◌, ◌≤◌, ◌^◌, ◌++◌, length, flat_map, Some, None, Err, if◌then◌else◌, IfOk, OnOk, OnErr};
ghost use Rattle.std.specs.Option.{option_copied};
ghost use Rattle.class_walk.specs.Layout.{attribute, IsCounted};
ghost use Rattle.class_write.specs.Writable.{IsWritableAttribute};
ghost use Rattle.code_write.specs.Frame.{full_frame};
ghost use Rattle.assembler_pool.specs.Uses.{Extends};
ghost use Rattle.assembler_bodies.specs.Making.{Finds, Gives};
ghost use Rattle.assembler_bodies.specs.Marks.{marks_of};
ghost use Rattle.assembler_bodies.specs.Body.{caught, code_with, is_first_at, maps_of};
ghost use Rattle.assembler_bodies.specs.declared.refusal.BodyRefusal.TheVariants as refusals;

use crate::frames::{map_name, types_of};
use crate::labels::Labels;
use crate::offsets::short_offset_of;
use crate::operands::operands_of;
use crate::pool::{Entry, index_of};
use crate::refusal::BodyRefusal;
use assembler_lines::{FrameItem, Line, Operation, Room};
use assembler_pool::PoolMaker;
use assembler_text::Numbered;
use class_walk::{RawAttribute, RawCode, RawHandler};
use class_write::write_code;
use code_write::{PutRefusal, VerificationType, Written, put_full_frame, put_instruction};
use instructions::row;
use rows::{Bytes, Rows};
use std::alloc::{AllocError, Global};
use std::marker::Model;

/// How many bytes the code has at most (JVMS 4.7.3).
const MOST_BYTES: usize = 65_535;

/// How many handlers, frames and types of a frame there are at most: their counts have two bytes.
const MOST: usize = 65_535;

/// How many bytes the content of an attribute has at most (JVMS 4.7).
const MOST_CONTENT: usize = 0xFFFF_FFFF;

/// The code of one method as far as it is made (JVMS 4.7.3).
#[derive(Drop)]
pub struct Body {
    room: Room,
    code: Vec<u8>,
    handlers: Vec<RawHandler>,
    /// The index of the name StackMapTable, from the first frame on.
    map_name: Option<u16>,
    /// The frames one after another.
    frames: Vec<u8>,
    frame_count: u16,
    /// The least offset that the next frame may have.
    least: u32,
    alloc: Global,
}

impl Model for Body {
    ghost use Rattle.std.specs.Prelude.{◌<◌, ◌≤◌, ◌^◌, length};
    ghost use Rattle.assembler_bodies.specs.Body.{MadeBody};

    ghost Value = { MadeBody };

    ghost view = { λ b. record {
      stack = b.room.stack;
      locals = b.room.locals;
      code = b.code.items;
      handlers = b.handlers.items;
      map_name = b.map_name;
      frames = b.frames.items;
      frame_count = b.frame_count;
      least = b.least;
    } };

    ghost invariant = { λ b. (length b.code.items < 2 ^ 16) × (length b.handlers.items < 2 ^ 16) × (b.least ≤ 2 ^ 16) };
}

/// Appends an instruction. An error leaves the code as it was.
#[tactic(auto, unfolding(crate::specs::Body::code_with))]
fn put_code(code: &mut Vec<u8>, written: &Written<u32>) -> Result<(), BodyRefusal>
    requires { length code.old.items < 2 ^ 16 }
    ensures gives { Finds (λ _. code.new.items) result (code_with written.now code.old.items) }
    ensures room { length code.new.items < 2 ^ 16 }
    ensures err { OnErr result (code.new.items ≡ code.old.items) }
{
    let at = code.len();
    match put_instruction(code, at as u32, written) {
        Ok(()) if code.len() > MOST_BYTES => {
            code.truncate(at);
            Err(BodyRefusal::Refused)
        }
        Ok(()) => Ok(()),
        Err(PutRefusal::OutOfRange) => Err(BodyRefusal::Refused),
        Err(PutRefusal::NoMemory) => {
            code.truncate(at);
            Err(BodyRefusal::NoMemory)
        }
    }
}

/// Appends a frame. An error leaves the frames as they were.
fn put_whole_frame(
    frames: &mut Vec<u8>,
    delta: u16,
    locals: &[VerificationType],
    stack: &[VerificationType],
) -> Result<(), AllocError>
    requires locals { length locals.now < 2 ^ 16 }
    requires stack { length stack.now < 2 ^ 16 }
    ensures ok { OnOk result (frames.new.items ≡ frames.old.items ++ full_frame delta locals.now stack.now) }
    ensures err { OnErr result (frames.new.items ≡ frames.old.items) }
{
    let before = frames.len();
    let put = put_full_frame(frames, delta, locals, stack);
    if put.is_err() {
        frames.truncate(before);
    }
    put
}

/// The stack map as attributes of the code. Refused are frames that have no room in an attribute.
fn maps_of(
    alloc: Global,
    name: Option<u16>,
    count: u16,
    frames: &[u8],
) -> Result<Rows<RawAttribute>, BodyRefusal>
    ensures maps { IfOk result (λ maps. maps ≡ maps_of name count frames.now) }
    ensures written { IfOk result (IsCounted IsWritableAttribute) }
    ensures refused { result ≡ Err refusals.Refused → 2 ^ 32 ≤ length (flat_map attribute (maps_of name count frames.now)) }
{
    let mut maps = Rows::new(alloc);
    let Some(name) = name else {
        return Ok(maps);
    };
    if frames.len() > MOST_CONTENT - 2 {
        return Err(BodyRefusal::Refused);
    }
    let mut content = Vec::from_slice(alloc, &count.to_be_bytes())?;
    content.extend_from_slice(frames)?;
    maps.push(RawAttribute {
        at: 0,
        name,
        content: Bytes::from_vec(content),
    })?;
    Ok(maps)
}

/// The index of the class that a handler catches, or 0 for any.
#[tactic(auto, using(assembler_pool::proofs::UseLaws::extends_itself), unfolding(crate::specs::Body::caught))]
fn caught(pool: &mut PoolMaker, class: Option<&[u8]>) -> Result<u16, BodyRefusal>
    ensures gives { Gives (λ index. index) result pool.old pool.new (caught (option_copied class.entry)) }
    ensures kept { Extends pool.old pool.new }
{
    match class {
        Some(name) => index_of(pool, Entry::Class(name)),
        None => Ok(0),
    }
}

/// Whether this line is the first one of a label.
fn is_first(labels: &Labels, number: u32, name: &[u8]) -> bool
    ensures { result ≡ is_first_at number (marks_of labels.now name.now) }
{
    match labels.mark(name) {
        Some(mark) => mark.line == number,
        None => false,
    }
}

impl Body {
    ghost use Rattle.assembler_bodies.specs.Body.{begun, with_instruction, put_handler, with_handler, put_frame, with_frame, step, content};

    /// The body without a line. Takes no memory.
    pub fn new(alloc: Global, room: Room) -> Self
        ensures { result ≡ begun room }
    {
        Body {
            room,
            code: Vec::new(alloc),
            handlers: Vec::new(alloc),
            map_name: None,
            frames: Vec::new(alloc),
            frame_count: 0,
            least: 0,
            alloc,
        }
    }

    #[tactic(auto, using(assembler_pool::proofs::UseLaws::extends_itself), unfolding(crate::specs::Body::with_instruction))]
    fn instruction(
        &mut self,
        pool: &mut PoolMaker,
        labels: &Labels,
        operation: &Operation,
    ) -> Result<(), BodyRefusal>
        ensures gives { Gives (λ _. self.new) result pool.old pool.new (with_instruction (marks_of labels.now) operation.now self.old) }
        ensures kept { Extends pool.old pool.new }
        ensures err { OnErr result (self.new ≡ self.old) }
    {
        let Some(row) = row(operation.number) else {
            return Err(BodyRefusal::Refused);
        };
        let operands = operands_of(
            self.alloc,
            pool,
            labels,
            row.form,
            operation.is_wide,
            &operation.operands,
        )?;
        let written = Written {
            number: operation.number,
            operands,
        };
        put_code(&mut self.code, &written)?;
        Ok(())
    }

    #[tactic(auto, unfolding(crate::specs::Body::put_handler))]
    fn put_handler(&mut self, handler: RawHandler) -> Result<(), BodyRefusal>
        ensures gives { Finds (λ _. self.new) result (put_handler handler self.old) }
        ensures err { OnErr result (self.new ≡ self.old) }
    {
        if self.handlers.len() >= MOST {
            return Err(BodyRefusal::Refused);
        }
        self.handlers.push(handler)?;
        Ok(())
    }

    #[tactic(auto, using(assembler_pool::proofs::UseLaws::extends_itself), unfolding(crate::specs::Body::with_handler))]
    fn handler(
        &mut self,
        pool: &mut PoolMaker,
        labels: &Labels,
        from: &[u8],
        to: &[u8],
        at: &[u8],
        class: Option<&[u8]>,
    ) -> Result<(), BodyRefusal>
        ensures gives { Gives (λ _. self.new) result pool.old pool.new (with_handler (marks_of labels.now) from.now to.now at.now (option_copied class.entry) self.old) }
        ensures kept { Extends pool.old pool.new }
        ensures err { OnErr result (self.new ≡ self.old) }
    {
        let from = short_offset_of(labels, from)?;
        let to = short_offset_of(labels, to)?;
        let at = short_offset_of(labels, at)?;
        let kind = caught(pool, class)?;
        self.put_handler(RawHandler { from, to, at, kind })
    }

    /// Appends a frame at the present offset.
    #[tactic(auto, unfolding(crate::specs::Body::put_frame))]
    fn put_frame(
        &mut self,
        name: u16,
        locals: &[VerificationType],
        stack: &[VerificationType],
    ) -> Result<(), BodyRefusal>
        ensures gives { Finds (λ _. self.new) result (put_frame name locals.now stack.now self.old) }
        ensures err { OnErr result (self.new ≡ self.old) }
    {
        let at = self.code.len() as u32;
        if at < self.least || self.frame_count == 0xFFFF {
            return Err(BodyRefusal::Refused);
        }
        if locals.len() > MOST || stack.len() > MOST {
            return Err(BodyRefusal::Refused);
        }
        let delta = (at - self.least) as u16;
        put_whole_frame(&mut self.frames, delta, locals, stack)?;
        self.map_name = Some(name);
        self.frame_count += 1;
        self.least = at + 1;
        Ok(())
    }

    #[tactic(auto, using(assembler_pool::proofs::UseLaws::extends_itself, assembler_pool::proofs::UseLaws::extends_further), unfolding(crate::specs::Body::with_frame))]
    fn frame(
        &mut self,
        pool: &mut PoolMaker,
        labels: &Labels,
        locals: &[FrameItem],
        stack: &[FrameItem],
    ) -> Result<(), BodyRefusal>
        ensures gives { Gives (λ _. self.new) result pool.old pool.new (with_frame (marks_of labels.now) locals.now stack.now self.old) }
        ensures kept { Extends pool.old pool.new }
        ensures err { OnErr result (self.new ≡ self.old) }
    {
        let name = map_name(pool, self.map_name)?;
        let locals = types_of(self.alloc, pool, labels, locals)?;
        let stack = types_of(self.alloc, pool, labels, stack)?;
        self.put_frame(name, locals.as_slice(), stack.as_slice())
    }

    /// Makes one line of the body, given the labels of the body: a label, an instruction, a handler or a frame.
    /// `Refused` comes exactly where the line is not allowed there, as no other line is, nor a label after the first of
    /// its name; where a label that it names is absent, or a distance doesn't fit; and where a class file has no room
    /// for what it makes. An error leaves the body as it was, and may leave more entries in the pool.
    pub fn line(
        &mut self,
        pool: &mut PoolMaker,
        labels: &Labels,
        numbered: &Numbered,
    ) -> Result<(), BodyRefusal>
        ensures gives { Gives (λ _. self.new) result pool.old pool.new (step (marks_of labels.now) numbered.now self.old) }
        ensures kept { Extends pool.old pool.new }
        ensures err { OnErr result (self.new ≡ self.old) }
    {
        match &numbered.line {
            Some(Line::Label(name)) => {
                if !is_first(labels, numbered.number, name.as_slice()) {
                    return Err(BodyRefusal::Refused);
                }
                Ok(())
            }
            Some(Line::Instruction(operation)) => self.instruction(pool, labels, operation),
            Some(
                Line::Handler {
                    from,
                    to,
                    at,
                    class,
                },
            ) => self.handler(
                pool,
                labels,
                from.as_slice(),
                to.as_slice(),
                at.as_slice(),
                class.as_ref().map(Bytes::as_slice),
            ),
            Some(Line::Frame { locals, stack }) => {
                self.frame(pool, labels, locals.as_slice(), stack.as_slice())
            }
            _ => Err(BodyRefusal::Refused),
        }
    }
    /// The content of the attribute Code (JVMS 4.7.3), with the attribute StackMapTable where there are frames.
    /// `Refused` comes exactly where it has 2^32 bytes or more.
    pub fn finish(self) -> Result<Vec<u8>, BodyRefusal>
        ensures { Finds (λ bytes. bytes.items) result (content self) }
    {
        let Body {
            room,
            code,
            handlers,
            map_name,
            frames,
            frame_count,
            alloc,
            ..
        } = self;
        let attributes = maps_of(alloc, map_name, frame_count, &frames)?;
        let code = RawCode {
            max_stack: room.stack,
            max_locals: room.locals,
            bytes: Bytes::from_vec(code),
            handlers: Rows::from_vec(handlers),
            attributes,
        };
        let content = write_code(alloc, &code)?;
        if content.len() > MOST_CONTENT {
            return Err(BodyRefusal::Refused);
        }
        Ok(content)
    }
}
