//! The constants of a program.

ghost use Rattle.std.specs.Prelude.{◌≡◌, option_map};
ghost use Rattle.interp_local.specs.Effects.{constant_words};
ghost use Rattle.java_rows.specs.Program.{constant_at};

use crate::world::JavaWorld;
use interp_local::{Constant, Constants};
use link_types::Operand;
use program_accept::World;

/// The constant at an index of the pool of a class (JVMS 5.1), `None` where there is none that an instruction pushes.
fn constant_at(world: &World, class: u32, index: u16) -> Option<Constant>
    ensures { option_map constant_words result ≡ constant_at world.now class index }
{
    world.is_linked();
    match world.operand(class, index) {
        Operand::Int(number) => Some(Constant::Word(number.cast_unsigned())),
        Operand::Long(number) => Some(Constant::Long(number.cast_unsigned())),
        Operand::Text(string) => Some(Constant::Word(world.string_reference(string))),
        Operand::Class(named) => {
            let number = named.number?;
            Some(Constant::Word(world.layout(number).object))
        }
        _ => None,
    }
}

impl<'p> Constants for JavaWorld<'p> {
    ghost units = { λ p. p.units };

    fn constant(&self, class: u32, index: u16) -> Option<Constant> {
        constant_at(self.world(), class, index)
    }
}
