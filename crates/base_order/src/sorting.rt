//! Types by the bytes of their descriptors.

ghost use Rattle.std.specs.Prelude.{◌≡◌, ℕ, List, IfOk};
ghost use Rattle.link_types.specs.declared.types.ElementType.{ElementType as element_type};
ghost use Rattle.base_order.specs.Sorted.{AreInOrder, KnowsTexts};

use crate::text::BaseText;
use link_types::ElementType;
use std::alloc::{AllocError, Global};
use std::collections::BTreeMap;

/// The types by their descriptors.
fn by_text<'a>(
    alloc: Global,
    texts: &'a [BaseText],
) -> Result<BTreeMap<&'a [u8], ElementType>, AllocError>
    ensures { IfOk result (λ known. KnowsTexts texts.now known) }
{
    let mut known = BTreeMap::new(alloc);
    for text in texts {
        known.insert(text.text.as_slice(), text.base)?;
    }
    Ok(known)
}

/// Some types in the order of their descriptors, and one type for each descriptor. It fails only when it is out of
/// memory.
pub fn in_order(alloc: Global, texts: &[BaseText]) -> Result<Vec<ElementType>, AllocError>
    ensures { IfOk result (λ bases. (descriptor : element_type → List ℕ) → AreInOrder descriptor texts.now bases.items) }
{
    let known = by_text(alloc, texts)?;
    let mut bases = Vec::new(alloc);
    for base in known.values() {
        bases.push(*base)?;
    }
    Ok(bases)
}
