//! What the methods of the built-in classes do (the Java SE 8 API).

ghost use Rattle.std.specs.Prelude.{◌≡◌, ◌≤◌, ◌∷◌, [], length, drop};
ghost use Rattle.frame_snapshot.specs.declared.todo.Todo.{Todo};
ghost use Rattle.frame_snapshot.specs.declared.todo.Then.{Then};
ghost use Rattle.frame_snapshot.specs.declared.text.TextJob.{TextJob};
ghost use Rattle.op_core.specs.declared.Op.{Op};
ghost use Rattle.java_rows.specs.Natives as spec;
ghost use Rattle.java_rows.specs.Texts as texts;
ghost use Rattle.interp_plans.specs.Todos.{plan_of};
ghost use Rattle.interp_plans.specs.Uses.{arguments_at, frame_of, use_at};

use crate::here::Here;
use crate::operands::Arguments;
use crate::program::JavaProgram;
use builtin_world::Native;
use builtin_world::number::{ILLEGAL_ARGUMENT_EXCEPTION, NULL_POINTER_EXCEPTION};
use builtin_world::word::{STRING_UNITS, THREAD_PRIORITY, THREAD_TARGET, THROWABLE_MESSAGE};
use frame_snapshot::{Appended, CallSite, TextJob, Then, Todo, Value};
use interp_local::long;
use op_core::{Line, Op};

fn print(line: Line, site: CallSite) -> Todo
    ensures { result ≡ Todo.Wants (Op.Print line) (Then.Done site) }
{
    Todo::Wants(Op::Print(line), Then::Done(site))
}

fn append(site: CallSite, builder: u32, appended: Appended) -> Todo
    ensures { result ≡ Todo.Texts site (TextJob.Extends builder appended) }
{
    Todo::Texts(site, TextJob::Extends { builder, appended })
}

impl<'a, P: JavaProgram> Here<'a, P> {
    fn native_of_none(&self, native: Native, site: CallSite) -> Todo
        requires { arguments_at (frame_of self.now.frames.now.here) site ≡ [] }
        ensures { spec.native (P.units self.now.program.now) self.now.thread native (arguments_at (frame_of self.now.frames.now.here) site) (use_at (frame_of self.now.frames.now.here) site)
            ≡ plan_of (P.units self.now.program.now) self.now.thread (frame_of self.now.frames.now.here) result }
    {
        match native {
            Native::ThreadCurrentThread => Todo::Completes(site, Value::Word(self.thread)),
            Native::ThreadYield => Todo::Completes(site, Value::None),
            _ => Todo::Stuck,
        }
    }

    fn native_of_one(&self, native: Native, site: CallSite, a: u32) -> Todo
        requires one { arguments_at (frame_of self.now.frames.now.here) site ≡ a ∷ [] }
        requires site { site.operands ≡ 1 }
        requires stack { self.now.frames.now.here.stack ≡ a ∷ drop 1 self.now.frames.now.here.stack }
        ensures { spec.native (P.units self.now.program.now) self.now.thread native (arguments_at (frame_of self.now.frames.now.here) site) (use_at (frame_of self.now.frames.now.here) site)
            ≡ plan_of (P.units self.now.program.now) self.now.thread (frame_of self.now.frames.now.here) result }
    {
        match native {
            Native::ObjectInit | Native::ThrowableInit | Native::BuilderInit => {
                Todo::Completes(site, Value::None)
            }
            Native::ObjectWait => Todo::Wants(Op::Wait(a), Then::Waited { site, object: a }),
            Native::ObjectNotify => Todo::Wants(Op::Notify(a), Then::Notified(site)),
            Native::ObjectNotifyAll => Todo::Wants(Op::Notify(a), Then::NotifiedAll(site.caller)),
            Native::PrintlnEmpty => print(Line::Empty, site),
            Native::ThreadInit => {
                let then = Then::Inherits {
                    site,
                    thread: a,
                    target: None,
                };
                Todo::Wants(Op::Read(self.thread, THREAD_PRIORITY), then)
            }
            Native::ThreadStart => {
                let then = Then::StartsWith { site, thread: a };
                Todo::Wants(Op::Read(a, THREAD_PRIORITY), then)
            }
            Native::ThreadRun => {
                Todo::Wants(Op::Read(a, THREAD_TARGET), Then::RunsTarget(site.caller))
            }
            Native::ThreadJoin => Todo::Wants(Op::Join(a), Then::Done(site)),
            Native::ThreadGetPriority => {
                Todo::Wants(Op::Read(a, THREAD_PRIORITY), Then::Read(site))
            }
            Native::ThrowableGetMessage => {
                Todo::Wants(Op::Read(a, THROWABLE_MESSAGE), Then::Read(site))
            }
            Native::StringLength => Todo::Texts(site, TextJob::Lengthens(a)),
            Native::BuilderLength => Todo::Texts(site, TextJob::Measures(a)),
            Native::BuilderToString => Todo::Texts(site, TextJob::Tells(a)),
            _ => Todo::Stuck,
        }
    }

    fn print_string(&self, site: CallSite, string: u32) -> Todo
        ensures { spec.prints_string string (use_at (frame_of self.now.frames.now.here) site)
            ≡ plan_of (P.units self.now.program.now) self.now.thread (frame_of self.now.frames.now.here) result }
    {
        if string == 0 {
            return print(Line::Null, site);
        }
        let then = Then::PrintsWord { site, string };
        Todo::Wants(Op::Read(string, STRING_UNITS), then)
    }

    fn set_priority(&self, site: CallSite, thread: u32, priority: u32) -> Todo
        ensures { spec.sets_priority thread priority (use_at (frame_of self.now.frames.now.here) site)
            ≡ plan_of (P.units self.now.program.now) self.now.thread (frame_of self.now.frames.now.here) result }
    {
        if 1 <= priority && priority <= 10 {
            return Todo::Wants(
                Op::Write(thread, THREAD_PRIORITY, priority),
                Then::Done(site),
            );
        }
        self.raise(site, ILLEGAL_ARGUMENT_EXCEPTION)
    }

    fn compare_strings(&self, site: CallSite, string: u32, other: u32) -> Todo
        ensures { texts.compares (P.units self.now.program.now) string other (use_at (frame_of self.now.frames.now.here) site)
            ≡ plan_of (P.units self.now.program.now) self.now.thread (frame_of self.now.frames.now.here) result }
    {
        if other == 0 {
            return Todo::Completes(site, Value::Word(0));
        }
        Todo::Texts(site, TextJob::Matches { string, other })
    }

    fn join_strings(&self, site: CallSite, string: u32, other: u32) -> Todo
        ensures { texts.joins (P.units self.now.program.now) string other (use_at (frame_of self.now.frames.now.here) site)
            ≡ plan_of (P.units self.now.program.now) self.now.thread (frame_of self.now.frames.now.here) result }
    {
        if other == 0 {
            return self.raise(site, NULL_POINTER_EXCEPTION);
        }
        Todo::Texts(site, TextJob::Joins { string, other })
    }

    // A builder begins with the text of a String.
    fn copy_text(&self, site: CallSite, builder: u32, string: u32) -> Todo
        ensures { texts.copies_text (P.units self.now.program.now) builder string (use_at (frame_of self.now.frames.now.here) site)
            ≡ plan_of (P.units self.now.program.now) self.now.thread (frame_of self.now.frames.now.here) result }
    {
        if string == 0 {
            return self.raise(site, NULL_POINTER_EXCEPTION);
        }
        Todo::Texts(site, TextJob::Copies { builder, string })
    }

    fn native_of_two(&self, native: Native, site: CallSite, a: u32, b: u32) -> Todo
        requires { arguments_at (frame_of self.now.frames.now.here) site ≡ a ∷ b ∷ [] }
        ensures { spec.native (P.units self.now.program.now) self.now.thread native (arguments_at (frame_of self.now.frames.now.here) site) (use_at (frame_of self.now.frames.now.here) site)
            ≡ plan_of (P.units self.now.program.now) self.now.thread (frame_of self.now.frames.now.here) result }
    {
        match native {
            Native::ObjectEquals => Todo::Completes(site, Value::Word(u32::from(a == b))),
            Native::PrintlnInt => print(Line::Int(b.cast_signed()), site),
            Native::PrintlnChar => print(Line::Char((b % 0x1_0000) as u16), site),
            Native::PrintlnBoolean => print(Line::Bool(b % 2 == 1), site),
            Native::PrintlnString => self.print_string(site, b),
            Native::ThreadInitTarget => {
                let then = Then::Inherits {
                    site,
                    thread: a,
                    target: Some(b),
                };
                Todo::Wants(Op::Read(self.thread, THREAD_PRIORITY), then)
            }
            Native::ThreadSetPriority => self.set_priority(site, a, b),
            Native::ThrowableInitMessage => {
                Todo::Wants(Op::Write(a, THROWABLE_MESSAGE, b), Then::Done(site))
            }
            Native::StringCharAt => {
                let job = TextJob::Picks {
                    string: a,
                    index: b,
                };
                Todo::Texts(site, job)
            }
            Native::StringEquals => self.compare_strings(site, a, b),
            Native::StringConcat => self.join_strings(site, a, b),
            Native::BuilderInitText => self.copy_text(site, a, b),
            Native::AppendInt => append(site, a, Appended::Int(b)),
            Native::AppendChar => append(site, a, Appended::Char(b)),
            Native::AppendBoolean => append(site, a, Appended::Boolean(b)),
            Native::AppendString => append(site, a, Appended::Text(b)),
            _ => Todo::Stuck,
        }
    }

    fn native_of_three(&self, native: Native, site: CallSite, a: u32, low: u32, high: u32) -> Todo
        requires { arguments_at (frame_of self.now.frames.now.here) site ≡ a ∷ low ∷ high ∷ [] }
        ensures { spec.native (P.units self.now.program.now) self.now.thread native (arguments_at (frame_of self.now.frames.now.here) site) (use_at (frame_of self.now.frames.now.here) site)
            ≡ plan_of (P.units self.now.program.now) self.now.thread (frame_of self.now.frames.now.here) result }
    {
        match native {
            Native::PrintlnLong => print(Line::Long(long(low, high).cast_signed()), site),
            Native::AppendLong => append(site, a, Appended::Long { low, high }),
            _ => Todo::Stuck,
        }
    }

    /// A built-in method is called, whose arguments are the operands, which must be on the stack.
    pub fn native(&self, native: Native, site: CallSite) -> Todo
        requires { site.operands ≤ length self.now.frames.now.here.stack }
        ensures { spec.native (P.units self.now.program.now) self.now.thread native (arguments_at (frame_of self.now.frames.now.here) site) (use_at (frame_of self.now.frames.now.here) site)
            ≡ plan_of (P.units self.now.program.now) self.now.thread (frame_of self.now.frames.now.here) result }
    {
        match self.arguments(site) {
            Arguments::None => self.native_of_none(native, site),
            Arguments::One(a) => self.native_of_one(native, site, a),
            Arguments::Two(a, b) => self.native_of_two(native, site, a, b),
            Arguments::Three(a, low, high) => self.native_of_three(native, site, a, low, high),
            Arguments::Many => Todo::Stuck,
        }
    }
}
