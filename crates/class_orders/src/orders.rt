//! The orders of all classes.

ghost use Rattle.std.specs.Prelude.{◌≡◌, ◌≢◌, ◌≤◌, ◌<◌, ℕ, suc, [], length, replicate, IfOk, OnOk, slice_get};
ghost use Rattle.search_orders.specs.Orders.{without_repeats};
ghost use Rattle.link_rules.specs.Classes.{classes_of, superclass_of, interfaces_of};
ghost use Rattle.link_rules.specs.Supers.{superclasses, superinterfaces, field_order, method_order, PutsSupersFirst};
ghost use Rattle.link_rules.specs.LinkRules.{hierarchy_rules};
ghost use Rattle.class_orders.specs.Orders.{AreOrders, HasOrders, IsOrders, IsReady, no_orders};

use crate::class_order::{ClassOrder, class_order};
use builtin_world::number::COUNT;
use class_supers::Supers;
use search_orders::Order;
use std::alloc::{AllocError, Global};
use std::marker::Model;

/// The orders of all classes of a program. Contracts see its files.
#[derive(Drop)]
pub struct ClassOrders<'a> {
    supers: Supers<'a>,
    orders: Vec<ClassOrder>,
}

impl<'a> Model for ClassOrders<'a> {
    ghost use Rattle.std.specs.Prelude.{List};
    ghost use Rattle.code_decode.specs.declared.code.ClassUnit.{ClassUnit};
    ghost use Rattle.link_rules.specs.Classes.{classes_of};
    ghost use Rattle.class_orders.specs.Orders.{AreOrders};

    ghost Value = { List ClassUnit };

    ghost view = { λ o. o.supers };

    ghost invariant = { λ o. AreOrders (classes_of o.supers) o.orders.items };
}

/// The orders of `count` classes, all empty.
fn empties(alloc: Global, count: usize) -> Result<Vec<ClassOrder>, AllocError>
    ensures { IfOk result (λ orders. orders.items ≡ replicate count no_orders) }
{
    let mut orders = Vec::new(alloc);
    for _ in 0..count {
        orders.push(ClassOrder::empty(alloc))?;
    }
    Ok(orders)
}

/// The orders of a class, from those of what is above it.
fn build(
    alloc: Global,
    supers: &Supers<'_>,
    done: &[ClassOrder],
    class: u32,
) -> Result<ClassOrder, AllocError>
    requires { length done.now ≡ suc (length (classes_of supers.now)) }
    ensures { IfOk result (λ order. IsReady (classes_of supers.now) done.now class → IsOrders (classes_of supers.now) class order) }
{
    let superclass = &done[supers.superclass(class) as usize];
    let order = class_order(alloc, done, class, superclass, supers.interfaces(class))?;
    Ok(order)
}

/// Puts the orders of a class into the table.
fn put_class(
    alloc: Global,
    supers: &Supers<'_>,
    done: &mut Vec<ClassOrder>,
    class: u32,
) -> Result<(), AllocError>
    requires { length done.old.items ≡ suc (length (classes_of supers.now)) }
    ensures size { length done.new.items ≡ length done.old.items }
    ensures class { OnOk result (class ≢ 0 → class ≤ length (classes_of supers.now) → IsReady (classes_of supers.now) done.old.items class → HasOrders (classes_of supers.now) done.new.items class) }
    ensures others { (d : ℕ) → (d ≡ class → class ≡ 0) → slice_get done.new.items d ≡ slice_get done.old.items d }
{
    if class == 0 || class as usize >= done.len() {
        return Ok(());
    }
    let order = build(alloc, supers, done, class)?;
    done[class as usize] = order;
    Ok(())
}

/// The orders of all classes by number.
fn all_orders(alloc: Global, supers: &Supers<'_>) -> Result<Vec<ClassOrder>, AllocError>
    requires { (hierarchy_rules supers.now).Hold }
    ensures { IfOk result (λ orders. AreOrders (classes_of supers.now) orders.items) }
{
    let mut orders = empties(alloc, COUNT as usize + supers.units().len() + 1)?;
    let order = supers.order(alloc)?;
    for class in &order {
        put_class(alloc, supers, &mut orders, *class)?;
    }
    Ok(orders)
}

impl<'a> ClassOrders<'a> {
    /// Finds the orders of the classes of a program.
    ///
    /// # Errors
    /// Where there is no memory.
    pub fn new(alloc: Global, supers: Supers<'a>) -> Result<Self, AllocError>
        requires { (hierarchy_rules supers).Hold }
        ensures { IfOk result (λ orders. orders ≡ supers.entry) }
    {
        let orders = all_orders(alloc, &supers)?;
        Ok(ClassOrders { supers, orders })
    }

    /// The classes by number.
    pub fn supers(&self) -> &Supers<'a>
        ensures { result.now ≡ self.now }
    {
        &self.supers
    }

    /// The orders of a class.
    pub fn of(&self, class: u32) -> &ClassOrder
        requires { class ≤ length (classes_of self.now) }
        ensures { IsOrders (classes_of self.now) class result.now }
    {
        &self.orders[class as usize]
    }
}
