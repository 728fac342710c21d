//! The units of the string literals of a program.

ghost use Rattle.std.specs.Prelude.{◌≡◌, IfOk, map, length};
ghost use Rattle.std.specs.List.{range_with_len};
ghost use Rattle.java_rows.specs.Units.{literal_units};
ghost use Rattle.java_world.specs.Literals.{literals_of, literal_in};

use program_accept::World;
use rows::Rows;
use std::alloc::{AllocError, Global};
use text_units::units_of_text;

fn literal(alloc: Global, world: &World, string: u32) -> Result<Rows<u16>, AllocError>
    ensures { IfOk result (λ units. units ≡ literal_units world.now string) }
{
    let text = match world.string_at(string) {
        Some(text) => text,
        None => "",
    };
    let units = units_of_text(alloc, text)?;
    Ok(Rows::from_vec(units))
}

/// The UTF-16 code units of all string literals, by their numbers. It fails only when memory runs out.
#[tactic(auto, using(crate::proofs::LiteralUnitLaws::one_more))]
pub fn make_literals(alloc: Global, world: &World) -> Result<Vec<Rows<u16>>, AllocError>
    ensures { IfOk result (λ literals. literals.items ≡ literals_of world.now) }
{
    let mut literals = Vec::new(alloc);
    for string in 0..world.strings() {
        literals.push(literal(alloc, world, string)?)?;
    }
    Ok(literals)
}

/// Those of the literal of a number, none where there is none.
pub fn units_of_literal(literals: &[Rows<u16>], string: u32) -> &[u16]
    ensures { result.now ≡ literal_in literals.now string }
{
    match literals.get(string as usize) {
        Some(units) => units.as_slice(),
        None => &[],
    }
}
