//! What the indices of constant pools stand for.

ghost use Rattle.std.specs.Prelude.{◌≡◌, ◌<◌, ◌+◌, ◌^◌, option_map};
ghost use Rattle.java_rows.specs.Initialization.{statics_of};
ghost use Rattle.java_rows.specs.Program.{field_at};
ghost use Rattle.link_rules.specs.Operands.{operand};
ghost use Rattle.link_types.specs.declared.operands.FieldOperand.{FieldOperand as field_type};
ghost use Rattle.link_types.specs.declared.operands.Operand.TheVariants as operands;

use link_types::Operand;
use program_accept::World;

/// What an index of the constant pool of a class stands for.
pub fn operand_at(world: &World, class: u32, index: u16) -> Operand
    ensures is { result ≡ operand world.now class index }
    ensures places { (field : field_type) → result ≡ operands.Field field → field.place + 1 < 2 ^ 32 }
{
    world.is_linked();
    world.operand(class, index)
}

/// The object with the static fields of the class that declares a field, which an index of a constant pool stands for.
pub fn statics_at(world: &World, class: u32, index: u16) -> u32
    ensures { option_map (statics_of world.now) (field_at world.now class index)
        ≡ option_map (λ f. result) (field_at world.now class index) }
{
    match world.operand(class, index) {
        Operand::Field(field) => world.layout(field.owner).object,
        _ => 0,
    }
}
