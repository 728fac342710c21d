//! Array types and their numbers.

ghost use Rattle.std.specs.Prelude.{◌≡◌, ◌<◌, ◌^◌, ◌≤◌, ℕ, List, Some, IsSome, Contains, IfOk, length, slice_get};
ghost use Rattle.code_decode.specs.declared.code.ClassUnit.{ClassUnit};
ghost use Rattle.link_rules.specs.Units.{AreUnits};
ghost use Rattle.link_rules.specs.LinkRules.{link_rules};
ghost use Rattle.link_rules.specs.Classes.{classes_of};
ghost use Rattle.link_rules.specs.Names.{program_names, class_count, array_number, array_numbered};
ghost use Rattle.array_order.specs.Order.{array_text};
ghost use Rattle.pool_types.specs.Types.{ArePoolTypes};
ghost use Rattle.array_kinds.specs.Kinds.{Spells};
ghost use Rattle.array_uses.specs.Most.{base_texts};
ghost use Rattle.array_classes.specs.Numbers.{AreNumbersOf, IsKindOf};

use array_kinds::ArrayKind;
use array_table::ArrayTable;
use array_uses::most_dimensions;
use base_order::BaseOrder;
use builtin_world::number::COUNT;
use class_supers::Supers;
use link_types::ElementType;
use pool_types::PoolTypes;
use std::alloc::{AllocError, Global};

/// Array types by their numbers, which follow those of the classes. `AreNumbersOf` says which program they belong to.
#[derive(Drop)]
pub struct ArrayNumbers {
    order: BaseOrder,
    table: ArrayTable,
    first: u32,
    count: u32,
}

/// The type of innermost elements at a place.
fn base_at(bases: &[ElementType], place: u32) -> Option<ElementType>
    ensures { result ≡ slice_get bases.now place }
{
    bases.get(place as usize).copied()
}

impl ArrayNumbers {
    /// The array types of a linked program. It fails only when memory runs out.
    pub fn new(alloc: Global, supers: &Supers<'_>, types: &PoolTypes) -> Result<Self, AllocError>
        requires few { length supers.now ≤ 1024 }
        requires decoded { AreUnits supers.now }
        requires linked { (link_rules supers.now).Hold }
        requires types { ArePoolTypes supers.now types.now }
        ensures { IfOk result (λ numbers. AreNumbersOf supers.now numbers) }
    {
        let order = BaseOrder::new(alloc, supers)?;
        let most = most_dimensions(alloc, supers, types, &order)?;
        let table = ArrayTable::new(alloc, &most)?;
        let classes = COUNT + supers.units().len() as u32;
        let count = classes + table.count();
        Ok(ArrayNumbers {
            order,
            table,
            first: classes + 1,
            count,
        })
    }

    /// How many classes and array classes there are, fewer than 2^20.
    pub fn count(&self) -> u32
        ensures value { (us : List ClassUnit) → AreNumbersOf us self.now → result ≡ class_count (program_names us) }
        ensures few { (us : List ClassUnit) → AreNumbersOf us self.now → result < 2 ^ 20 }
    {
        self.count
    }

    /// The place of a type of innermost elements.
    fn place(&self, base: ElementType) -> Option<u32>
        ensures found { (us : List ClassUnit) → AreNumbersOf us self.now → (place : ℕ) → result ≡ Some place → slice_get self.now.order.bases.items place ≡ Some base }
        ensures there { (us : List ClassUnit) → AreNumbersOf us self.now → Contains self.now.order.bases.items base → IsSome result }
    {
        match self.order.place(base) {
            Some(place) => u32::try_from(place).ok(),
            None => None,
        }
    }

    /// The number of the array class that has `dimensions` dimensions, and the base at `place` as its innermost
    /// elements.
    fn number_at(&self, dimensions: u8, place: u32) -> Option<u32>
        ensures { (us : List ClassUnit) (base : List ℕ) → AreNumbersOf us self.now → slice_get (base_texts us self.now.order) place ≡ Some base →
            result ≡ array_number (program_names us) (array_text dimensions base) }
    {
        let number = self.table.number(dimensions, place)?;
        self.first.checked_add(number)
    }

    /// The number of an array class by its type.
    pub fn number(&self, array: ArrayKind) -> Option<u32>
        ensures { (us : List ClassUnit) (text : List ℕ) → AreNumbersOf us self.now → Spells (program_names us) array text →
            result ≡ array_number (program_names us) text }
    {
        let place = self.place(array.base)?;
        self.number_at(array.dimensions, place)
    }

    /// The type of the arrays of a number.
    pub fn kind(&self, class: u32) -> Option<ArrayKind>
        ensures { (us : List ClassUnit) → AreNumbersOf us self.now → IsKindOf (classes_of us) result (array_numbered (program_names us) class) }
    {
        let number = class.checked_sub(self.first)?;
        let place = self.table.place(number)?;
        let base = base_at(self.order.bases(), place.base)?;
        Some(ArrayKind {
            dimensions: place.dimensions,
            base,
        })
    }
}
