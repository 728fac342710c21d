//! The types of stack map frames.

ghost use Rattle.std.specs.Prelude.{◌≡◌};
ghost use Rattle.assembler_pool.specs.Uses.{Extends};
ghost use Rattle.assembler_bodies.specs.Making.{Gives, each_made};
ghost use Rattle.assembler_bodies.specs.Marks.{marks_of};
ghost use Rattle.assembler_bodies.specs.Body.{map_name_of, type_of};

use crate::labels::Labels;
use crate::offsets::short_offset_of;
use crate::pool::{Entry, index_of};
use crate::refusal::BodyRefusal;
use assembler_lines::FrameItem;
use assembler_pool::PoolMaker;
use code_write::VerificationType;
use std::alloc::Global;

/// The index of the name of the stack map, which is made at the first frame.
#[tactic(auto, using(assembler_pool::proofs::UseLaws::extends_itself), unfolding(crate::specs::Body::map_name_of))]
pub(crate) fn map_name(pool: &mut PoolMaker, known: Option<u16>) -> Result<u16, BodyRefusal>
    ensures gives { Gives (λ index. index) result pool.old pool.new (map_name_of known) }
    ensures kept { Extends pool.old pool.new }
{
    match known {
        Some(index) => Ok(index),
        None => index_of(pool, Entry::Text(b"StackMapTable")),
    }
}

/// The type of a local or of an operand (JVMS 4.7.4).
#[tactic(auto, using(assembler_pool::proofs::UseLaws::extends_itself), unfolding(crate::specs::Body::type_of))]
fn type_of(
    pool: &mut PoolMaker,
    labels: &Labels,
    item: &FrameItem,
) -> Result<VerificationType, BodyRefusal>
    ensures gives { Gives (λ kind. kind) result pool.old pool.new (type_of (marks_of labels.now) item.now) }
    ensures kept { Extends pool.old pool.new }
{
    match item {
        FrameItem::Top => Ok(VerificationType::Top),
        FrameItem::Int => Ok(VerificationType::Int),
        FrameItem::Long => Ok(VerificationType::Long),
        FrameItem::Null => Ok(VerificationType::Null),
        FrameItem::This => Ok(VerificationType::UninitThis),
        FrameItem::New(label) => {
            let at = short_offset_of(labels, label.as_slice())?;
            Ok(VerificationType::Uninit(at))
        }
        FrameItem::Class(name) => {
            let index = index_of(pool, Entry::Class(name.as_slice()))?;
            Ok(VerificationType::Object(index))
        }
    }
}

/// The types of the items of a frame, in their order.
pub(crate) fn types_of(
    alloc: Global,
    pool: &mut PoolMaker,
    labels: &Labels,
    items: &[FrameItem],
) -> Result<Vec<VerificationType>, BodyRefusal>
    ensures gives { Gives (λ types. types.items) result pool.old pool.new (each_made (type_of (marks_of labels.now)) items.now) }
    ensures kept { Extends pool.old pool.new }
{
    let mut types = Vec::new(alloc);
    for item in items {
        let kind = type_of(pool, labels, item)?;
        types.push(kind)?;
    }
    Ok(types)
}
