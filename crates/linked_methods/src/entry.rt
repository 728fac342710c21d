//! What methods begin with.

ghost use Rattle.std.specs.Prelude.{◌≡◌, ◌++◌, map, OnOk, IfOk, option_to_list};
ghost use Rattle.map_frames.specs.Here.{IsEntryOf};
ghost use Rattle.type_rules.specs.Environment as types;
ghost use Rattle.type_rules.specs.Environments.{receiver_values};
ghost use Rattle.type_rules.specs.MapFrames.{item_type, map_frame_at};
ghost use Rattle.linked_methods.specs.Members.{member_numbered};
ghost use Rattle.linked_methods.specs.Methods.{code_of_method, environment_of_method};
ghost use Rattle.linked_methods.specs.Methods.{operands_of_method, values_at_entry};

use crate::method::LinkedMethod;
use crate::words::{type_of_value, words_of_values};
use link_types::{ObjectType, ValueType};
use map_frames::MethodEntry;
use std::alloc::{AllocError, Global};
use type_rules::VerificationType;

// Appends the types of parameters to the others.
fn push_parameters(
    values: &mut Vec<VerificationType>,
    parameters: &[ValueType],
) -> Result<(), AllocError>
    ensures { OnOk result (values.new.items ≡ values.old.items ++ map types.type_of_value parameters.now) }
{
    for parameter in parameters {
        values.push(type_of_value(*parameter))?;
    }
    Ok(())
}

impl<'a> LinkedMethod<'a> {
    // The type of its receiver, if it has one.
    fn receiver(&self) -> Option<VerificationType>
        ensures { option_to_list result
            ≡ receiver_values self.now.id.class (member_numbered self.now.classes.world.now self.now.id) }
    {
        if self.is_static {
            return None;
        }
        if self.constructs {
            return Some(VerificationType::UninitThis);
        }
        Some(VerificationType::Object(ObjectType::Class(self.id.class)))
    }

    // The types of its receiver and its parameters.
    fn entry_values(&self, alloc: Global) -> Result<Vec<VerificationType>, AllocError>
        ensures { IfOk result (λ values. values.items ≡ values_at_entry self.now) }
    {
        let mut values = Vec::new(alloc);
        if let Some(receiver) = self.receiver() {
            values.push(receiver)?;
        }
        push_parameters(&mut values, self.kind.parameters.as_slice())?;
        Ok(values)
    }

    /// What the method begins with: its receiver, which a constructor has yet to initialize, and its parameters (JVMS
    /// 4.10.1.6). By it, its map frames stand for those that the rules see. It fails only when memory runs out.
    pub fn entry(&self, alloc: Global) -> Result<MethodEntry, AllocError>
        ensures entry { IfOk result (λ entry. IsEntryOf (environment_of_method self.now) entry) }
        ensures values { IfOk result (λ entry. entry.values.items ≡ values_at_entry self.now) }
        ensures constructs { IfOk result (λ entry. entry.constructs ≡ (environment_of_method self.now).constructs) }
        ensures frames { IfOk result (λ entry. (environment_of_method self.now).map_at
            ≡ map_frame_at (item_type (operands_of_method self.now) entry.words.items)
            entry.constructs entry.values.items (code_of_method self.now).frames) }
    {
        let values = self.entry_values(alloc)?;
        let words = words_of_values(alloc, &values)?;
        Ok(MethodEntry {
            values,
            words,
            constructs: self.constructs,
            max_locals: self.code.max_locals,
            max_stack: self.code.max_stack,
        })
    }
}
