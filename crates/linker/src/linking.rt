//! Linking.

ghost use Rattle.std.specs.Prelude.{◌≡◌, IfOk, IfErr};
ghost use Rattle.link_types.specs.declared.refusal.LinkRefusal.{LinkRefusal};
ghost use Rattle.link_rules.specs.Units.{AreUnits};
ghost use Rattle.link_rules.specs.LinkRules.{link_rules};
ghost use Rattle.class_supers.specs.Answers.{Gives, Refuses, IsRefused};
ghost use Rattle.linker.specs.Tables.{AreTables, HasOrder};

use crate::tables::{Tables, class_tables, member_tables};
use crate::world::World;
use code_decode::ClassUnit;
use link_check::linked_lookup;
use link_types::LinkRefusal;
use member_lookup::MemberLookup;
use named_types::NamedTypes;
use pool_types::PoolTypes;
use std::alloc::{AllocError, Global};

/// The tables of a program that keeps the rules of linking.
fn linked_tables(alloc: Global, lookup: &MemberLookup<'_>) -> Result<Tables, AllocError>
    requires decoded { AreUnits lookup.now.units }
    requires linked { (link_rules lookup.now.units).Hold }
    ensures { IfOk result (λ tables. AreTables lookup.now.units tables) }
{
    let supers = lookup.orders().supers();
    let order = supers.order(alloc)?;
    let types = NamedTypes::new(alloc, supers)?;
    let pool_types = PoolTypes::new(alloc, &types)?;
    let classes = class_tables(alloc, lookup, &pool_types, &order)?;
    let members = member_tables(alloc, lookup, &types, &pool_types, &classes, &order)?;
    Ok(Tables { classes, members })
}

/// The tables of a program, where it keeps the rules of linking.
fn checked_tables(alloc: Global, units: &[ClassUnit]) -> Result<Tables, LinkRefusal>
    requires decoded { AreUnits units.now }
    ensures { Gives result (link_rules units.now) (λ tables. AreTables units.now tables) }
{
    let lookup = linked_lookup(alloc, units)?;
    let tables = linked_tables(alloc, &lookup)?;
    Ok(tables)
}

fn linked_world(alloc: Global, units: Vec<ClassUnit>) -> Result<World, LinkRefusal>
    requires decoded { AreUnits units.items }
    ensures { Gives result (link_rules units.items) (λ world. (world ≡ units.items) × HasOrder units.items) }
{
    match checked_tables(alloc, &units) {
        Ok(tables) => Ok(World { units, tables }),
        Err(refusal) => Err(refusal),
    }
}

/// Links the class files of a program (JVMS 5.3 to 5.5): `Ok` exactly where all rules of linking hold, unless memory
/// runs out. The world is seen as its files, whose classes can then be put in an order in which each comes after those
/// that it names.
///
/// # Errors
/// The refusal of the first rule that is broken, in the order of `link_rules`: of how many files there are and what
/// their classes are named, of what lies above classes, of members, of implementations, and of what instructions and
/// handlers name. `NoMemory` where memory runs out.
pub fn link(alloc: Global, units: Vec<ClassUnit>) -> Result<World, LinkRefusal>
    requires decoded { AreUnits units.items }
    ensures linked { IfOk result (λ world. (world ≡ units.items) × (link_rules units.items).Hold) }
    ensures order { IfOk result (λ world. HasOrder world) }
    ensures exact { IfErr result (λ e. Refuses e (link_rules units.items)) }
    ensures first { (e : LinkRefusal) → (link_rules units.items).Refuse e → IsRefused result e }
{
    linked_world(alloc, units)
}
