//! The methods of a program.

ghost use Rattle.std.specs.Prelude.{◌≡◌, ◌≤◌, List, IfOk, length, option_map};
ghost use Rattle.code_decode.specs.declared.code.ClassUnit.{ClassUnit};
ghost use Rattle.link_rules.specs.Classes.{classes_of};
ghost use Rattle.link_rules.specs.Methods.{initializer};
ghost use Rattle.link_rules.specs.Units.{AreUnits};
ghost use Rattle.method_table.specs.Called.{called, shown};
ghost use Rattle.method_table.specs.Methods.{AreMethodsOf};

use crate::classes::{ClassMethods, initializer_at, methods_of_classes, row_at};
use crate::kinds::{kind_at, method_types};
use link_members::methods_have_numbers;
use link_types::{Method, MethodId, MethodType};
use member_lookup::MemberLookup;
use named_types::NamedTypes;
use std::alloc::{AllocError, Global};

/// What the methods of a program are to their callers. Which program it is of is said by `AreMethodsOf`; the readers
/// take no memory and no time to speak of.
#[derive(Drop)]
pub struct MethodTable {
    classes: Vec<ClassMethods>,
    kinds: Vec<MethodType>,
}

impl MethodTable {
    /// The methods of a program: a row for each, and a type for each different text. It fails only when memory runs
    /// out.
    pub fn new(
        alloc: Global,
        lookup: &MemberLookup<'_>,
        types: &NamedTypes<'_, '_>,
    ) -> Result<Self, AllocError>
        requires few { length lookup.now.units ≤ 1024 }
        requires decoded { AreUnits lookup.now.units }
        requires same { types.now ≡ lookup.now.units }
        ensures { IfOk result (λ table. AreMethodsOf lookup.now.units table) }
    {
        methods_have_numbers(lookup);
        let kinds = method_types(alloc, lookup.texts(), types)?;
        let classes = methods_of_classes(alloc, lookup)?;
        Ok(MethodTable { classes, kinds })
    }

    /// A method by its class and place (JVMS 4.6): its flags, its parameters and result (JVMS 4.3.3), and what a call
    /// of it executes. `None` where the class or the method isn't there.
    pub fn method(&self, id: MethodId) -> Option<Method<'_>>
        ensures { (us : List ClassUnit) → AreMethodsOf us self.now → option_map shown result ≡ called us id }
    {
        let row = row_at(&self.classes, id)?;
        let kind = kind_at(&self.kinds, row.kind)?;
        Some(Method {
            flags: row.flags,
            kind,
            body: row.body,
        })
    }

    /// The method that initializes a class (JVMS 2.9): a static `<clinit>` that takes nothing and gives nothing. `None`
    /// where it has none, and of what is no class.
    pub fn initializer(&self, class: u32) -> Option<MethodId>
        ensures { (us : List ClassUnit) → AreMethodsOf us self.now → result ≡ initializer (classes_of us) class }
    {
        initializer_at(&self.classes, class)
    }
}
