//! The words of values.

ghost use Rattle.std.specs.Prelude.{◌≡◌, ◌++◌, OnOk, IfOk};
ghost use Rattle.type_rules.specs.Environment as types;
ghost use Rattle.type_rules.specs.Environments.{words_of_values};

use link_types::ValueType;
use std::alloc::{AllocError, Global};
use type_rules::VerificationType;

/// The type of a value on the stack or in a local (JVMS 4.10.1.2).
pub fn type_of_value(value: ValueType) -> VerificationType
    ensures { result ≡ types.type_of_value value }
{
    match value {
        ValueType::Long => VerificationType::Long,
        ValueType::Object(kind) => VerificationType::Object(kind),
        _ => VerificationType::Int,
    }
}

// Appends the words of a value to the others, as they lie in locals.
fn push_value(words: &mut Vec<VerificationType>, value: VerificationType) -> Result<(), AllocError>
    ensures { OnOk result (words.new.items ≡ words.old.items ++ types.in_locals value) }
{
    words.push(value)?;
    if matches!(value, VerificationType::Long | VerificationType::Double) {
        words.push(VerificationType::Second)?;
    }
    Ok(())
}

/// The words of values, as they lie in locals.
pub fn words_of_values(
    alloc: Global,
    values: &[VerificationType],
) -> Result<Vec<VerificationType>, AllocError>
    ensures { IfOk result (λ words. words.items ≡ words_of_values values.now) }
{
    let mut words = Vec::new(alloc);
    for value in values {
        push_value(&mut words, *value)?;
    }
    Ok(words)
}
