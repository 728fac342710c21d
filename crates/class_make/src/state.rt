//! The lines of a text, one after another.

ghost use Rattle.std.specs.Prelude.{◌≡◌};
ghost use Rattle.assembler_bodies.specs.Making.{Gives};
ghost use Rattle.assembler_bodies.specs.Marks.{marks_of};
ghost use Rattle.assembler_bodies.specs.Labels.{marks_in};
ghost use Rattle.class_make.specs.Class.{body_line, closed, inside_line, part_line, outside_line, step};
ghost use Rattle.class_make.specs.States.{method_of, state_of};

use crate::class::{ClassParts, one_attribute, super_line, superclass};
use assembler_bodies::{Body, BodyRefusal, Entry, Labels, index_of};
use assembler_lines::{Line, Room};
use assembler_pool::PoolMaker;
use assembler_text::Numbered;
use class_walk::RawMember;
use rows::Bytes;
use std::alloc::Global;

/// A method whose body is open.
#[derive(Drop)]
pub struct OpenMethod {
    flags: u16,
    name: u16,
    descriptor: u16,
    /// The index of the name Code.
    code_name: u16,
    labels: Labels,
    body: Body,
}

/// The state of a text between its lines.
#[derive(Drop)]
pub enum State {
    BeforeClass,
    Outside(ClassParts),
    Inside(ClassParts, OpenMethod),
}

/// Begins the body of a method, whose lines come after the method's own.
#[tactic(auto, unfolding(crate::specs::Class::body_line))]
fn open_method(
    alloc: Global,
    pool: &mut PoolMaker,
    class: &ClassParts,
    flags: u16,
    name: &[u8],
    descriptor: &[u8],
    room: Room,
    behind: &[Numbered],
) -> Result<OpenMethod, BodyRefusal>
    ensures { Gives (λ method. method_of method) result pool.old pool.new (body_line (marks_in behind.now) flags name.now descriptor.now room class.now) }
{
    let labels = Labels::of(alloc, behind)?;
    let name = index_of(pool, Entry::Text(name))?;
    let descriptor = index_of(pool, Entry::Text(descriptor))?;
    let code_name = index_of(pool, Entry::Text(b"Code"))?;
    if !class.has_method_place() {
        return Err(BodyRefusal::Refused);
    }
    Ok(OpenMethod {
        flags,
        name,
        descriptor,
        code_name,
        labels,
        body: Body::new(alloc, room),
    })
}

/// Ends the body of a method, which is then a method of the class.
#[tactic(auto, unfolding(crate::specs::Class::closed))]
fn close(
    alloc: Global,
    pool: &mut PoolMaker,
    mut class: ClassParts,
    method: OpenMethod,
) -> Result<ClassParts, BodyRefusal>
    ensures { Gives (λ made. made) result pool.old pool.new (closed (method_of method) class) }
{
    let OpenMethod {
        flags,
        name,
        descriptor,
        code_name,
        body,
        ..
    } = method;
    let content = body.finish()?;
    let attributes = one_attribute(alloc, code_name, Bytes::from_vec(content))?;
    class.put_method(RawMember {
        at: 0,
        flags,
        name,
        descriptor,
        attributes,
    })?;
    Ok(class)
}

/// A line of a body.
#[tactic(auto, unfolding(crate::specs::Class::body_step))]
fn inside_line(
    alloc: Global,
    pool: &mut PoolMaker,
    class: ClassParts,
    mut method: OpenMethod,
    numbered: &Numbered,
) -> Result<State, BodyRefusal>
    ensures { Gives (λ state. state_of state) result pool.old pool.new (inside_line numbered.now class (method_of method)) }
{
    if matches!(numbered.line, Some(Line::End)) {
        let class = close(alloc, pool, class, method)?;
        return Ok(State::Outside(class));
    }
    method.body.line(pool, &method.labels, numbered)?;
    Ok(State::Inside(class, method))
}

/// A line after those of the class and its superclass.
fn part_line(
    alloc: Global,
    pool: &mut PoolMaker,
    mut class: ClassParts,
    line: &Option<Line>,
    behind: &[Numbered],
) -> Result<State, BodyRefusal>
    ensures { Gives (λ state. state_of state) result pool.old pool.new (part_line behind.now line.now class) }
{
    match line {
        Some(Line::Implements(name)) => class.interface(pool, name.as_slice())?,
        Some(
            Line::Field {
                flags,
                name,
                descriptor,
                value,
            },
        ) => class.field(
            alloc,
            pool,
            *flags,
            name.as_slice(),
            descriptor.as_slice(),
            value.as_ref(),
        )?,
        Some(
            Line::Method {
                flags,
                name,
                descriptor,
                room: None,
            },
        ) => class.method(alloc, pool, *flags, name.as_slice(), descriptor.as_slice())?,
        Some(
            Line::Method {
                flags,
                name,
                descriptor,
                room: Some(room),
            },
        ) => {
            let method = open_method(
                alloc,
                pool,
                &class,
                *flags,
                name.as_slice(),
                descriptor.as_slice(),
                *room,
                behind,
            )?;
            return Ok(State::Inside(class, method));
        }
        _ => return Err(BodyRefusal::Refused),
    }
    Ok(State::Outside(class))
}

/// A line outside bodies, after the class's own.
fn outside_line(
    alloc: Global,
    pool: &mut PoolMaker,
    mut class: ClassParts,
    line: &Option<Line>,
    behind: &[Numbered],
) -> Result<State, BodyRefusal>
    ensures { Gives (λ state. state_of state) result pool.old pool.new (outside_line behind.now line.now class) }
{
    if let Some(Line::Super(name)) = line {
        let index = super_line(pool, name.as_slice(), class.super_class)?;
        class.super_class = Some(index);
        return Ok(State::Outside(class));
    }
    let index = superclass(pool, class.super_class)?;
    class.super_class = Some(index);
    part_line(alloc, pool, class, line, behind)
}

/// Reads one line of a text, given the lines after it.
pub fn step(
    alloc: Global,
    pool: &mut PoolMaker,
    state: State,
    numbered: &Numbered,
    behind: &[Numbered],
) -> Result<State, BodyRefusal>
    ensures { Gives (λ next. state_of next) result pool.old pool.new (step behind.now numbered.now (state_of state)) }
{
    match state {
        State::BeforeClass => {
            let Some(Line::Class { name, flags }) = &numbered.line else {
                return Err(BodyRefusal::Refused);
            };
            let class = ClassParts::new(alloc, pool, *flags, name.as_slice())?;
            Ok(State::Outside(class))
        }
        State::Outside(class) => outside_line(alloc, pool, class, &numbered.line, behind),
        State::Inside(class, method) => inside_line(alloc, pool, class, method, numbered),
    }
}
