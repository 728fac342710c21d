//! Methods with code.

ghost use Rattle.std.specs.Prelude.{◌≡◌, Some, option_map};
ghost use Rattle.access_flags.specs.declared.TheConstants.{STATIC as static_flag};
ghost use Rattle.access_flags.specs.Flags.{has as has_flag};
ghost use Rattle.link_rules.specs.Classes.{classes_of};
ghost use Rattle.link_rules.specs.Methods.{method_named, method_code};
ghost use Rattle.link_rules.specs.Names.{program_names};
ghost use Rattle.named_types.specs.Methods.{method_type};
ghost use Rattle.type_rules.specs.Environments.{environment_of, is_constructor};
ghost use Rattle.linked_methods.specs.Members.{member_numbered};

use crate::classes::LinkedClasses;
use crate::named::is_named_init;
use access_flags::{STATIC, has};
use code_decode::Code;
use link_types::{MethodId, MethodType};
use linker::World;

/// A method with code of a linked program. What the rules of the type checker see of it is `environment_of_method`.
#[derive(Clone, Copy)]
pub struct LinkedMethod<'a> {
    pub(crate) classes: LinkedClasses<'a>,
    pub(crate) id: MethodId,
    pub(crate) code: &'a Code,
    pub(crate) kind: &'a MethodType,
    pub(crate) is_static: bool,
    pub(crate) constructs: bool,
    ghost member_there: { method_named (classes_of classes.world.now) id
        ≡ Some (member_numbered classes.world.now id) },
    ghost code_there: { method_code classes.world.now id ≡ Some code.now },
    ghost kind_is: { kind.now
        ≡ method_type (program_names classes.world.now) (member_numbered classes.world.now id).descriptor },
    ghost static_is: { is_static ≡ has_flag (member_numbered classes.world.now id).flags static_flag },
    ghost constructs_is: { constructs ≡ is_constructor (member_numbered classes.world.now id) },
}

impl<'a> LinkedMethod<'a> {
    ghost use Rattle.linked_methods.specs.Methods.{environment_of_method};

    /// A method by the number of its class and its place there; `None` where it has no code. Takes no memory.
    pub fn new(world: &'a World, id: MethodId) -> Option<Self>
        ensures { option_map environment_of_method result ≡ environment_of world.now id }
    {
        let code = world.code(id)?;
        let method = world.method(id)?;
        let is_static = has(method.flags, STATIC);
        Some(LinkedMethod {
            classes: LinkedClasses { world },
            id,
            code,
            kind: method.kind,
            is_static,
            constructs: is_named_init(world.units(), id) && !is_static,
        })
    }
}
