//! Relations of classes, class by class.

ghost use Rattle.std.specs.Prelude.{◌≡◌, ◌≢◌, ◌<◌, ◌≤◌, ◌^◌, ℕ, suc, false, IfOk, length};
ghost use Rattle.transitive_closure.specs.Relation.{relates};
ghost use Rattle.search_orders.specs.Orders.{has_number};
ghost use Rattle.link_rules.specs.Classes.{classes_of};
ghost use Rattle.link_rules.specs.Supers.{superclasses, method_order};
ghost use Rattle.class_relations.specs.Relations.{IsMarked};

use class_orders::ClassOrders;
use search_orders::Order;
use std::alloc::{AllocError, Global};
use transitive_closure::Relation;

/// Relates a class to the classes of an order, where it is related to none.
fn relate_order(relation: &mut Relation, size: u32, class: u32, order: &Order)
    requires size { size ≡ length relation.old }
    requires class { class < size }
    ensures size { length relation.new ≡ length relation.old }
    ensures here { (d : ℕ) → d < size → relates relation.old class d ≡ false → relates relation.new class d ≡ has_number order.now d }
    ensures past { (d : ℕ) → size ≤ d → relates relation.new class d ≡ relates relation.old class d }
    ensures elsewhere { (c d : ℕ) → c ≢ class → relates relation.new c d ≡ relates relation.old c d }
{
    for number in 0..size {
        if order.rank(number) != 0 {
            relation.relate(class, number);
        }
    }
}

/// The relations of each class to itself and what is above it, and to itself and its superclasses.
pub fn class_marks(
    alloc: Global,
    orders: &ClassOrders<'_>,
    count: u32,
) -> Result<(Relation, Relation), AllocError>
    requires count { count ≡ length (classes_of orders.now) }
    requires few { count < 2 ^ 31 }
    ensures above { IfOk result (λ marks. IsMarked (classes_of orders.now) (method_order (classes_of orders.now)) (suc (length (classes_of orders.now))) marks.0) }
    ensures upward { IfOk result (λ marks. IsMarked (classes_of orders.now) (superclasses (classes_of orders.now)) (suc (length (classes_of orders.now))) marks.1) }
{
    let size = count + 1;
    let mut above = Relation::new(alloc, size)?;
    let mut upward = Relation::new(alloc, size)?;
    for class in 0..size {
        let order = orders.of(class);
        relate_order(&mut above, size, class, &order.methods);
        relate_order(&mut upward, size, class, &order.superclasses);
    }
    Ok((above, upward))
}
