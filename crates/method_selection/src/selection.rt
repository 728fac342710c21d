//! Selection of methods.

ghost use Rattle.std.specs.Prelude.{◌≡◌, ◌≤◌, ℕ, List, IfOk, length};
ghost use Rattle.code_decode.specs.declared.code.ClassUnit.{ClassUnit};
ghost use Rattle.link_rules.specs.Classes.{classes_of};
ghost use Rattle.link_rules.specs.Methods.{selection_start, select_virtual};
ghost use Rattle.link_rules.specs.Names.{program_names};
ghost use Rattle.link_rules.specs.Supers.{PutsSupersFirst};
ghost use Rattle.link_rules.specs.Units.{AreUnits};
ghost use Rattle.method_selection.specs.Selection.{IsSelectionOf};

use crate::entries::{MethodEntry, entry_at, method_entries};
use crate::numbers::{MethodNumbers, id_at, number_methods};
use crate::selected_rows::{number_selected, selected_rows};
use access_flags::{PRIVATE, has};
use link_members::methods_have_numbers;
use link_types::MethodId;
use member_lookup::MemberLookup;
use rows::Rows;
use shared_rows::SharedRow;
use std::alloc::{AllocError, Global};

/// Which methods the objects of each class of a program select. Which program it is of is said by `IsSelectionOf`; the
/// readers take no memory and no time to speak of.
#[derive(Drop)]
pub struct MethodSelection {
    entries: Vec<Rows<MethodEntry>>,
    ids: Vec<MethodId>,
    rows: Vec<SharedRow>,
}

impl MethodSelection {
    /// The selection of a program, made in an order in which superclasses come first. A class shares with its
    /// superclass what it inherits. It fails only when memory runs out.
    pub fn new(alloc: Global, lookup: &MemberLookup<'_>, order: &[u32]) -> Result<Self, AllocError>
        requires few { length lookup.now.units ≤ 1024 }
        requires decoded { AreUnits lookup.now.units }
        requires order { PutsSupersFirst (classes_of lookup.now.units) order.now }
        ensures { IfOk result (λ selection. IsSelectionOf lookup.now.units selection) }
    {
        methods_have_numbers(lookup);
        let numbers = number_methods(alloc, lookup)?;
        let entries = method_entries(alloc, lookup, &numbers.numbers)?;
        let rows = selected_rows(alloc, lookup, order, &numbers, &entries)?;
        let MethodNumbers { ids, .. } = numbers;
        Ok(MethodSelection { entries, ids, rows })
    }

    /// The method that a call of a method executes where selection begins at a class (JVMS 6.5, invokevirtual and
    /// invokeinterface): at that of the object, and at java/lang/Object for an array. A private method is executed
    /// itself. `None` where the selected method is abstract, or there is none, or no such method.
    pub fn select(&self, start: u32, method: MethodId) -> Option<MethodId>
        ensures { (us : List ClassUnit) (c : ℕ) → IsSelectionOf us self.now → start ≤ length (classes_of us) → selection_start (program_names us) c ≡ start
            → result ≡ select_virtual (program_names us) c method }
    {
        let entry = entry_at(&self.entries, method)?;
        if has(entry.flags, PRIVATE) {
            return Some(method);
        }
        let number = number_selected(&self.rows, start, entry.signature);
        id_at(&self.ids, number)
    }
}
