//! Fields and elements that are read and written while a host answers.

ghost use Rattle.std.specs.Prelude.{◌≡◌, ◌≢◌, ◌++◌, ℕ, true, false, List, None, drop, IfSome, IfNone};
ghost use Rattle.code_decode.specs.declared.code.ClassUnit.{ClassUnit};
ghost use Rattle.frame_snapshot.specs.declared.stage.FrameStage.{FrameStage};
ghost use Rattle.frame_snapshot.specs.declared.todo.Todo.{Todo};
ghost use Rattle.op_core.specs.declared.Op.{Op};
ghost use Rattle.op_core.specs.Hosted.{IsLedTo, MayBeAsked};
ghost use Rattle.op_core.specs.Replies.{Fits};
ghost use Rattle.java_rows.specs.Plan.{completes};
ghost use Rattle.java_rows.specs.Program.{steps_of};
ghost use Rattle.java_rows.specs.Thread.{java_code, settled};
ghost use Rattle.interp_local.specs.Quick.{quicks_of};
ghost use Rattle.interp_plans.specs.Uses.{frame_of, value_words};
ghost use Rattle.interp_calls.specs.declared.hosted.Halt.{Halt as halts};
ghost use Rattle.interp_calls.specs.Hosted.{halted_local, AskedTo, GoneTo, HostedTo, StaysBegun};
ghost use Rattle.interp_calls.specs.Local.{local_of, saved_locals, waiting_below};

use crate::apply::{apply, go_on, leave, value_len};
use crate::behind::{go_on_behind_any, reached_by};
use frame_snapshot::{Frames, Then, Todo, Value};
use instructions::{FieldAccess, Instr, Plain, Target, What};
use interp_local::{Quick, run_here};
use interp_plans::{Here, JavaProgram, Reached};
use op_core::{Op, OpHost, Reply};
use std::marker::PhantomData;

/// How far the top frame came in an instruction that isn't complete.
#[derive(Clone, Copy)]
pub enum Halt {
    /// It is at the instruction's beginning.
    Begins,
    /// This is to be done. If it is an operation, the host may have declined it.
    Goes(Todo),
    /// An operation was answered with this reply; the `Then` says what follows.
    Replied(Then, Reply),
    /// A reply has led to this.
    Leads(Reached),
}

// The instructions that are executed here, as types.
struct GetField;

struct PutField;

struct ArrayLoad;

struct ArrayStore;

struct ArrayLength;

// An operation of an instruction that is executed here, as a type. Each function that asks is for one such operation, and has one
// caller. So the compiler puts it into its caller, and leaves out of it what is for other operations.
trait AskedOperation {
    // Whether this is the operation, with what follows it.
    fn is_asked(op: &Op, then: &Then) -> bool;
}

// The header of an array.
struct Header<I>(PhantomData<I>);

// The word of a value, or the low one of its two words.
struct LowRead<I>(PhantomData<I>);

struct HighRead<I>(PhantomData<I>);

struct LowWrite<I>(PhantomData<I>);

struct HighWrite<I>(PhantomData<I>);

impl<I> AskedOperation for Header<I> {
    #[inline(always)]
    fn is_asked(op: &Op, then: &Then) -> bool {
        matches!(op, Op::ClassOf(_))
            && matches!(then, Then::Loads(_) | Then::Stores(_) | Then::Length(_))
    }
}

impl<I> AskedOperation for LowRead<I> {
    #[inline(always)]
    fn is_asked(op: &Op, then: &Then) -> bool {
        matches!(op, Op::Read(_, _)) && matches!(then, Then::Read(_) | Then::LowRead { .. })
    }
}

impl<I> AskedOperation for HighRead<I> {
    #[inline(always)]
    fn is_asked(op: &Op, then: &Then) -> bool {
        matches!(op, Op::Read(_, _)) && matches!(then, Then::HighRead { .. })
    }
}

impl<I> AskedOperation for LowWrite<I> {
    #[inline(always)]
    fn is_asked(op: &Op, then: &Then) -> bool {
        matches!(op, Op::Write(_, _, _)) && matches!(then, Then::Done(_) | Then::LowWritten { .. })
    }
}

impl<I> AskedOperation for HighWrite<I> {
    #[inline(always)]
    fn is_asked(op: &Op, then: &Then) -> bool {
        matches!(op, Op::Write(_, _, _)) && matches!(then, Then::Done(_))
    }
}

/// What asking the host an operation of an instruction came to.
#[derive(Clone, Copy)]
pub enum AfterAsking {
    /// The instruction is complete, and the frame is at the next one.
    Complete,
    /// The host has answered, and this is to be done next.
    Goes(Todo),
    /// No more is asked here: the instruction goes on from this.
    Halts(Halt),
}

// The instruction is complete: words are taken off the stack, those of a value are pushed, and the next one begins. `false`, and
// nothing is changed, where the stack has too few words or no room.
#[inline(always)]
fn complete(frames: &mut Frames, operands: u16, value: Value) -> bool
    requires { frames.old.here.stage ≡ FrameStage.Begun }
    ensures state { (us : List ClassUnit) (me : ℕ) → result ≡ true → local_of us me frames.new
        ≡ settled us me (completes (frame_of frames.old.here) (value_words value ++ drop operands frames.old.here.stack)) (waiting_below us me frames.old.below) }
    ensures stays { result ≡ true → StaysBegun frames.old frames.new }
    ensures kept { result ≡ false → frames.new ≡ frames.old }
{
    let Some(next) = frames.step().checked_add(1) else {
        return false;
    };
    let taken = usize::from(operands);
    let count = value_len(value);
    if !frames.has(taken) || (count > taken && !frames.has_room(count - taken)) {
        return false;
    }
    leave(frames, taken, value, next);
    true
}

// Asks the host for a word of an object. It is a function of its own, as are the next three: the operation is known here, so the
// compiler leaves out what the host does for others, and the callers, into which it is not put, stay small.
#[inline(never)]
fn ask_read<H: OpHost>(host: &mut H, object: u32, place: u32) -> Option<Reply>
    requires { H.may host.old (Op.Read object place) }
    ensures some { IfSome result (λ reply. Fits (Op.Read object place) reply × H.answers host.old (Op.Read object place) reply host.new) }
    ensures none { IfNone result (H.declines host.old (Op.Read object place) host.new) }
{
    host.ask(Op::Read(object, place))
}

// Asks the host to write a word of an object.
#[inline(never)]
fn ask_write<H: OpHost>(host: &mut H, object: u32, place: u32, word: u32) -> Option<Reply>
    requires { H.may host.old (Op.Write object place word) }
    ensures some { IfSome result (λ reply. Fits (Op.Write object place word) reply × H.answers host.old (Op.Write object place word) reply host.new) }
    ensures none { IfNone result (H.declines host.old (Op.Write object place word) host.new) }
{
    host.ask(Op::Write(object, place, word))
}

// Asks the host for the class and the length of an object.
#[inline(never)]
fn ask_class<H: OpHost>(host: &mut H, object: u32) -> Option<Reply>
    requires { H.may host.old (Op.ClassOf object) }
    ensures some { IfSome result (λ reply. Fits (Op.ClassOf object) reply × H.answers host.old (Op.ClassOf object) reply host.new) }
    ensures none { IfNone result (H.declines host.old (Op.ClassOf object) host.new) }
{
    host.ask(Op::ClassOf(object))
}

// Asks the host any other operation.
#[inline(never)]
fn ask_other<H: OpHost>(host: &mut H, op: Op) -> Option<Reply>
    requires { H.may host.old op }
    ensures some { IfSome result (λ reply. Fits op reply × H.answers host.old op reply host.new) }
    ensures none { IfNone result (H.declines host.old op host.new) }
{
    host.ask(op)
}

// Asks the host an operation.
#[inline(always)]
fn ask_host<H: OpHost>(host: &mut H, op: Op) -> Option<Reply>
    requires { H.may host.old op }
    ensures some { IfSome result (λ reply. Fits op reply × H.answers host.old op reply host.new) }
    ensures none { IfNone result (H.declines host.old op host.new) }
{
    match op {
        Op::Read(object, place) => ask_read(host, object, place),
        Op::Write(object, place, word) => ask_write(host, object, place, word),
        Op::ClassOf(object) => ask_class(host, object),
        _ => ask_other(host, op),
    }
}

// Asks the host the operation `A`, if the instruction wants it, and goes on with the reply.
#[inline(always)]
fn ask<P: JavaProgram, H: OpHost, A: AskedOperation>(
    program: &P,
    thread: u32,
    frames: &mut Frames,
    host: &mut H,
    todo: Todo,
) -> AfterAsking
    requires begun { frames.old.here.stage ≡ FrameStage.Begun }
    requires may { MayBeAsked java_code (saved_locals (P.units program.now) thread frames.old) H.passes H.answers H.may
        (halted_local (P.units program.now) thread frames.old (halts.Goes todo)) host.old }
    ensures { AskedTo (P.units program.now) thread (saved_locals (P.units program.now) thread frames.old) H.passes H.answers H.declines
        (halted_local (P.units program.now) thread frames.old (halts.Goes todo)) host.old frames.old result frames.new host.new }
{
    let Todo::Wants(op, then) = todo else {
        return AfterAsking::Halts(Halt::Goes(todo));
    };
    if !A::is_asked(&op, &then) {
        return AfterAsking::Halts(Halt::Goes(todo));
    }
    let Some(reply) = ask_host(host, op) else {
        return AfterAsking::Halts(Halt::Goes(todo));
    };
    let here = Here {
        program,
        thread,
        frames,
    };
    let Some(reached) = reached_by(&here, then, reply) else {
        return AfterAsking::Halts(Halt::Replied(then, reply));
    };
    match reached {
        Reached::Goes(next) => AfterAsking::Goes(next),
        Reached::Completed { operands, value } => {
            if complete(frames, operands, value) {
                AfterAsking::Complete
            } else {
                AfterAsking::Halts(Halt::Leads(reached))
            }
        }
        _ => AfterAsking::Halts(Halt::Leads(reached)),
    }
}

// Asks at most one operation of the instruction.
#[inline(always)]
fn ask_one<P: JavaProgram, H: OpHost, A: AskedOperation>(
    program: &P,
    thread: u32,
    frames: &mut Frames,
    host: &mut H,
    todo: Todo,
) -> Option<Halt>
    requires begun { frames.old.here.stage ≡ FrameStage.Begun }
    requires may { MayBeAsked java_code (saved_locals (P.units program.now) thread frames.old) H.passes H.answers H.may
        (halted_local (P.units program.now) thread frames.old (halts.Goes todo)) host.old }
    ensures { GoneTo (P.units program.now) thread (saved_locals (P.units program.now) thread frames.old) H.passes H.answers H.declines
        (halted_local (P.units program.now) thread frames.old (halts.Goes todo)) host.old frames.old result frames.new host.new }
{
    match ask::<P, H, A>(program, thread, frames, host, todo) {
        AfterAsking::Complete => None,
        AfterAsking::Goes(next) => Some(Halt::Goes(next)),
        AfterAsking::Halts(halt) => Some(halt),
    }
}

// Asks at most two operations of the instruction. It is a function of its own, not a loop, so that the operations stay in
// registers.
#[inline(always)]
fn ask_two<P: JavaProgram, H: OpHost, A: AskedOperation, B: AskedOperation>(
    program: &P,
    thread: u32,
    frames: &mut Frames,
    host: &mut H,
    todo: Todo,
) -> Option<Halt>
    requires begun { frames.old.here.stage ≡ FrameStage.Begun }
    requires may { MayBeAsked java_code (saved_locals (P.units program.now) thread frames.old) H.passes H.answers H.may
        (halted_local (P.units program.now) thread frames.old (halts.Goes todo)) host.old }
    ensures { GoneTo (P.units program.now) thread (saved_locals (P.units program.now) thread frames.old) H.passes H.answers H.declines
        (halted_local (P.units program.now) thread frames.old (halts.Goes todo)) host.old frames.old result frames.new host.new }
{
    match ask::<P, H, A>(program, thread, frames, host, todo) {
        AfterAsking::Complete => None,
        AfterAsking::Goes(next) => ask_one::<P, H, B>(program, thread, frames, host, next),
        AfterAsking::Halts(halt) => Some(halt),
    }
}

// Asks at most three operations of the instruction: for the header of an array, and for both halves of a long.
#[inline(always)]
fn ask_three<P: JavaProgram, H: OpHost, A: AskedOperation, B: AskedOperation, C: AskedOperation>(
    program: &P,
    thread: u32,
    frames: &mut Frames,
    host: &mut H,
    todo: Todo,
) -> Option<Halt>
    requires begun { frames.old.here.stage ≡ FrameStage.Begun }
    requires may { MayBeAsked java_code (saved_locals (P.units program.now) thread frames.old) H.passes H.answers H.may
        (halted_local (P.units program.now) thread frames.old (halts.Goes todo)) host.old }
    ensures { GoneTo (P.units program.now) thread (saved_locals (P.units program.now) thread frames.old) H.passes H.answers H.declines
        (halted_local (P.units program.now) thread frames.old (halts.Goes todo)) host.old frames.old result frames.new host.new }
{
    match ask::<P, H, A>(program, thread, frames, host, todo) {
        AfterAsking::Complete => None,
        AfterAsking::Goes(next) => ask_two::<P, H, B, C>(program, thread, frames, host, next),
        AfterAsking::Halts(halt) => Some(halt),
    }
}

// Executes getfield, putfield, a load from an array, a store to one, or arraylength, as far as the host answers. At any other
// instruction it does nothing, and says `Begins`.
#[inline(always)]
fn ask_access<P: JavaProgram, H: OpHost>(
    program: &P,
    thread: u32,
    steps: &[Instr<Target>],
    frames: &mut Frames,
    host: &mut H,
) -> Option<Halt>
    requires steps { steps.now ≡ steps_of (P.units program.now) frames.old.here.method }
    requires begun { frames.old.here.stage ≡ FrameStage.Begun }
    requires may { MayBeAsked java_code (saved_locals (P.units program.now) thread frames.old) H.passes H.answers H.may
        (local_of (P.units program.now) thread frames.old) host.old }
    ensures { GoneTo (P.units program.now) thread (saved_locals (P.units program.now) thread frames.old) H.passes H.answers H.declines
        (local_of (P.units program.now) thread frames.old) host.old frames.old result frames.new host.new }
{
    let here = Here {
        program,
        thread,
        frames,
    };
    let Some(instruction) = here.instruction_among(steps) else {
        return Some(Halt::Begins);
    };
    match &instruction.what {
        What::Field(FieldAccess::GetField, index) => {
            let todo = here.get_field(*index);
            ask_two::<P, H, LowRead<GetField>, HighRead<GetField>>(
                program, thread, frames, host, todo,
            )
        }
        What::Field(FieldAccess::PutField, index) => {
            let todo = here.put_field(*index);
            ask_two::<P, H, LowWrite<PutField>, HighWrite<PutField>>(
                program, thread, frames, host, todo,
            )
        }
        What::Plain(Plain::ArrayLoad(kind)) => {
            let todo = here.load(*kind);
            ask_three::<P, H, Header<ArrayLoad>, LowRead<ArrayLoad>, HighRead<ArrayLoad>>(
                program, thread, frames, host, todo,
            )
        }
        What::Plain(Plain::ArrayStore(kind)) => {
            let todo = here.store(*kind);
            ask_three::<P, H, Header<ArrayStore>, LowWrite<ArrayStore>, HighWrite<ArrayStore>>(
                program, thread, frames, host, todo,
            )
        }
        What::Plain(Plain::ArrayLength) => {
            let todo = here.array_length();
            ask_one::<P, H, Header<ArrayLength>>(program, thread, frames, host, todo)
        }
        _ => Some(Halt::Begins),
    }
}

// Goes on from the beginning of an instruction, through at most `most` instructions that the host answers. The frames are nowhere
// else meanwhile, so the place of the top frame stays in registers.
#[inline(never)]
fn run_among<P: JavaProgram, H: OpHost>(
    program: &P,
    thread: u32,
    steps: &[Instr<Target>],
    quicks: &[Quick],
    mut frames: Frames,
    host: &mut H,
    most: u64,
) -> (Frames, Halt)
    requires steps { steps.now ≡ steps_of (P.units program.now) frames.here.method }
    requires quicks { quicks.now ≡ quicks_of steps.now }
    requires begun { frames.here.stage ≡ FrameStage.Begun }
    requires may { MayBeAsked java_code (saved_locals (P.units program.now) thread frames) H.passes H.answers H.may
        (local_of (P.units program.now) thread frames) host.old }
    ensures led { IsLedTo java_code (saved_locals (P.units program.now) thread frames) H.passes H.answers H.declines
        (local_of (P.units program.now) thread frames) host.old (halted_local (P.units program.now) thread result.0 result.1) host.new }
    ensures on { ((todo : Todo) → result.1 ≢ halts.Goes todo) → HostedTo (saved_locals (P.units program.now) thread frames) H.passes H.answers
        (local_of (P.units program.now) thread frames) host.old (halted_local (P.units program.now) thread result.0 result.1) host.new }
    ensures stays { StaysBegun frames result.0 }
{
    for _asked in 0..most {
        frames.has_few();
        let made = run_here::<P, H>(program, steps, quicks, &mut frames, host.room());
        host.pass(made);
        match ask_access(program, thread, steps, &mut frames, host) {
            Some(halt) => return (frames, halt),
            None => {}
        }
    }
    (frames, Halt::Begins)
}

// Writes to the top frame how far it came. `true` only where the host has declined nothing.
fn keep_halt<P: JavaProgram>(program: &P, thread: u32, frames: &mut Frames, halt: Halt) -> bool
    requires { frames.old.here.stage ≡ FrameStage.Begun }
    ensures state { local_of (P.units program.now) thread frames.new ≡ halted_local (P.units program.now) thread frames.old halt }
    ensures saves { frames.new.saves ≡ frames.old.saves }
    ensures declined { result ≡ true → (todo : Todo) → halt ≢ halts.Goes todo }
{
    match halt {
        Halt::Begins => {}
        Halt::Goes(todo) => {
            go_on(frames, todo);
            return false;
        }
        Halt::Replied(then, reply) => go_on_behind_any(program, thread, frames, then, reply),
        Halt::Leads(reached) => apply(program, thread, frames, reached),
    }
    true
}

/// Goes on from the beginning of an instruction, by steps that need no operation and through at most `most` instructions that read
/// or write a field of an object or an element, or read the length of an array, each of which asks the host up to three operations.
/// `false` where the host may have declined what the thread wants. Takes no memory but what the host takes.
pub fn run_answered<P: JavaProgram, H: OpHost>(
    program: &P,
    thread: u32,
    frames: &mut Frames,
    host: &mut H,
    most: u64,
) -> bool
    requires begun { frames.old.here.stage ≡ FrameStage.Begun }
    requires may { MayBeAsked java_code (saved_locals (P.units program.now) thread frames.old) H.passes H.answers H.may
        (local_of (P.units program.now) thread frames.old) host.old }
    ensures led { IsLedTo java_code (saved_locals (P.units program.now) thread frames.old) H.passes H.answers H.declines
        (local_of (P.units program.now) thread frames.old) host.old (local_of (P.units program.now) thread frames.new) host.new }
    ensures on { result ≡ true → HostedTo (saved_locals (P.units program.now) thread frames.old) H.passes H.answers
        (local_of (P.units program.now) thread frames.old) host.old (local_of (P.units program.now) thread frames.new) host.new }
    ensures saves { frames.new.saves ≡ frames.old.saves }
{
    let method = frames.method();
    let Some(code) = program.code(method) else {
        return true;
    };
    let quicks = program.quicks(method);
    let steps = code.steps.as_slice();
    let taken = frames.take();
    let (after, halt) = run_among(program, thread, steps, quicks, taken, host, most);
    *frames = after;
    keep_halt(program, thread, frames, halt)
}
