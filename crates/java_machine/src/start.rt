//! What is there as a program begins.

ghost use Rattle.std.specs.Prelude.{◌≡◌, IfOk};
ghost use Rattle.std.specs.List.{range_with_len};
ghost use Rattle.builtin_world.specs.declared.number.TheConstants.{COUNT as count};
ghost use Rattle.fixed_objects.specs.Opening.{LiesBelowFirst};
ghost use Rattle.java_rows.specs.Start.{opening_of};

use crate::objects::objects_at_start;
use builtin_world::number::COUNT;
use fixed_objects::Opening;
use java_laws::openings_lie_below_first;
use linker::World;
use op_core::{NoMemory, Rows};
use std::alloc::{AllocError, Global};

/// The built-in classes by number: they need no initialization.
fn ready_classes(alloc: Global) -> Result<Rows<u32>, AllocError>
    ensures { IfOk result (λ classes. classes ≡ range_with_len 1 count) }
{
    let mut classes = Rows::new(alloc);
    for place in 0..COUNT {
        classes.push(place + 1)?;
    }
    Ok(classes)
}

/// What is there as a program begins: its class objects, `System.out`, the Thread and the arguments of `main` and the
/// Strings of its literals, in the order in which they lie; the built-in classes, ready; and where new objects begin.
/// It fails only when memory runs out.
pub fn opening(alloc: Global, world: &World) -> Result<Opening, NoMemory>
    ensures value { IfOk result (λ opening. opening ≡ opening_of world.now) }
    ensures below { IfOk result (λ opening. LiesBelowFirst opening) }
{
    openings_lie_below_first();
    Ok(Opening {
        objects: objects_at_start(alloc, world)?,
        ready: ready_classes(alloc)?,
        classes: world.classes(),
        first: world.first_free(),
        main_thread: world.main_thread(),
    })
}
