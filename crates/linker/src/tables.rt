//! The tables of a linked program.

ghost use Rattle.std.specs.Prelude.{◌≡◌, ◌≤◌, IfOk, length};
ghost use Rattle.link_rules.specs.Units.{AreUnits};
ghost use Rattle.link_rules.specs.Classes.{classes_of};
ghost use Rattle.link_rules.specs.Supers.{PutsSupersFirst};
ghost use Rattle.link_rules.specs.LinkRules.{link_rules};
ghost use Rattle.pool_types.specs.Types.{ArePoolTypes};
ghost use Rattle.linker.specs.Tables.{AreClassTables, AreMemberTables};

use class_layout::ClassLayout;
use class_relations::ClassRelations;
use member_lookup::MemberLookup;
use method_selection::MethodSelection;
use method_table::MethodTable;
use named_types::NamedTypes;
use operand_table::{ArrayClasses, FieldTypes, OperandTable, Sources};
use pool_types::PoolTypes;
use start_objects::StartObjects;
use std::alloc::{AllocError, Global};
use string_literals::StringLiterals;

/// What classes, array classes and literals are.
#[derive(Drop)]
pub struct ClassTables {
    pub relations: ClassRelations,
    pub arrays: ArrayClasses,
    pub layout: ClassLayout,
    pub literals: StringLiterals,
    pub start: StartObjects,
}

/// What methods are, and what the indices of constant pools stand for.
#[derive(Drop)]
pub struct MemberTables {
    pub methods: MethodTable,
    pub selection: MethodSelection,
    pub operands: OperandTable,
}

/// All tables of a linked program.
#[derive(Drop)]
pub struct Tables {
    pub classes: ClassTables,
    pub members: MemberTables,
}

/// The tables of classes, where the rules of linking hold, in an order in which each class comes after those that it
/// names.
pub fn class_tables(
    alloc: Global,
    lookup: &MemberLookup<'_>,
    types: &PoolTypes,
    order: &[u32],
) -> Result<ClassTables, AllocError>
    requires few { length lookup.now.units ≤ 1024 }
    requires decoded { AreUnits lookup.now.units }
    requires linked { (link_rules lookup.now.units).Hold }
    requires types { ArePoolTypes lookup.now.units types.now }
    requires order { PutsSupersFirst (classes_of lookup.now.units) order.now }
    ensures { IfOk result (λ tables. AreClassTables lookup.now.units tables) }
{
    let supers = lookup.orders().supers();
    let arrays = ArrayClasses::new(alloc, supers, types)?;
    let layout = ClassLayout::new(alloc, supers, order)?;
    let literals = StringLiterals::new(alloc, supers.units())?;
    let count = arrays.class_count();
    let start = StartObjects::new(alloc, supers.units(), &layout, &literals, count)?;
    Ok(ClassTables {
        relations: ClassRelations::new(alloc, lookup.orders())?,
        arrays,
        layout,
        literals,
        start,
    })
}

/// The tables of members, where the rules of linking hold, in such an order.
pub fn member_tables(
    alloc: Global,
    lookup: &MemberLookup<'_>,
    types: &NamedTypes<'_, '_>,
    pool_types: &PoolTypes,
    classes: &ClassTables,
    order: &[u32],
) -> Result<MemberTables, AllocError>
    requires few { length lookup.now.units ≤ 1024 }
    requires decoded { AreUnits lookup.now.units }
    requires same { types.now ≡ lookup.now.units }
    requires types { ArePoolTypes lookup.now.units pool_types.now }
    requires classes { AreClassTables lookup.now.units classes.now }
    requires order { PutsSupersFirst (classes_of lookup.now.units) order.now }
    ensures { IfOk result (λ tables. AreMemberTables lookup.now.units tables) }
{
    let fields = FieldTypes::new(alloc, lookup.texts(), types)?;
    let sources = Sources {
        lookup,
        types: pool_types,
        fields: &fields,
        layout: &classes.layout,
        literals: &classes.literals,
        arrays: &classes.arrays,
    };
    Ok(MemberTables {
        methods: MethodTable::new(alloc, lookup, types)?,
        selection: MethodSelection::new(alloc, lookup, order)?,
        operands: OperandTable::new(alloc, sources)?,
    })
}
