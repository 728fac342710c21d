//! What is above a class.

ghost use Rattle.std.specs.Prelude.{◌≡◌, ℕ, ◌+◌, ◌<◌, ◌≤◌, ◌^◌, ◌||◌, ◌&&◌, ◌==◌, IfOk, All, length};
ghost use Rattle.std.specs.List.{list_any};
ghost use Rattle.transitive_closure.specs.Relation.{relates};
ghost use Rattle.class_supers.specs.Above.{is_named, names, names_at, IsWithin, AreWithin};

use crate::headers::ClassHeader;
use std::alloc::{AllocError, Global};
use transitive_closure::Relation;

/// Relates a class to one that it names, if that is there.
fn relate(relation: &mut Relation, class: u32, named: u32)
    requires class { class < length relation.old }
    requires named { named < length relation.old }
    ensures size { length relation.new ≡ length relation.old }
    ensures related { (c d : ℕ) → relates relation.new c d ≡ (relates relation.old c d || (c == class && is_named named d)) }
{
    if named != 0 {
        relation.relate(class, named);
    }
}

fn relate_interfaces(relation: &mut Relation, class: u32, interfaces: &[u32])
    requires class { class < length relation.old }
    requires named { All (λ n. n < length relation.old) interfaces.now }
    ensures size { length relation.new ≡ length relation.old }
    ensures related { (c d : ℕ) → relates relation.new c d ≡ (relates relation.old c d || (c == class && list_any (λ n. is_named n d) interfaces.now)) }
{
    for interface in interfaces {
        relate(relation, class, *interface);
    }
}

fn relate_header(relation: &mut Relation, class: u32, header: &ClassHeader)
    requires class { class < length relation.old }
    requires named { IsWithin (length relation.old) header.now }
    ensures size { length relation.new ≡ length relation.old }
    ensures related { (c d : ℕ) → relates relation.new c d ≡ (relates relation.old c d || (c == class && names header.now d)) }
{
    relate(relation, class, header.superclass);
    relate_interfaces(relation, class, header.interfaces.as_slice());
}

/// Relates each class to its superclass and its interfaces. Nothing is related to or from 0.
pub fn named_classes(alloc: Global, headers: &[ClassHeader]) -> Result<Relation, AllocError>
    requires count { length headers.now < 2 ^ 31 }
    requires named { AreWithin (length headers.now + 1) headers.now }
    ensures size { IfOk result (λ relation. length relation ≡ length headers.now + 1) }
    ensures related { IfOk result (λ relation. (c d : ℕ) → relates relation c d ≡ names_at headers.now c d) }
{
    let mut relation = Relation::new(alloc, headers.len() as u32 + 1)?;
    for (i, header) in headers.iter().enumerate() {
        relate_header(&mut relation, i as u32 + 1, header);
    }
    Ok(relation)
}
