//! The orders of one class.

ghost use Rattle.std.specs.Prelude.{◌≡◌, ◌∷◌, ◌<◌, [], IfOk, length, flat_map};
ghost use Rattle.search_orders.specs.Orders.{put, put_all, without_repeats};
ghost use Rattle.class_orders.specs.Orders.{interfaces_in, no_orders, IsBuilt};

use rows::Rows;
use search_orders::Order;
use std::alloc::{AllocError, Global};

/// The classes in which a class looks for members, each once.
#[derive(Drop)]
pub struct ClassOrder {
    /// The class and its superclasses.
    pub superclasses: Order,
    /// The interfaces that the class names and those above them.
    pub interfaces: Rows<u32>,
    /// The interfaces of the class and of its superclasses.
    pub all_interfaces: Rows<u32>,
    /// Where a method is looked for (JVMS 5.4.3.3).
    pub methods: Order,
    /// Where a field is looked for (JVMS 5.4.3.2).
    pub fields: Order,
}

impl ClassOrder {
    /// The orders of no class. Takes no memory.
    pub fn empty(alloc: Global) -> Self
        ensures { result ≡ no_orders }
    {
        ClassOrder {
            superclasses: Order::new(alloc),
            interfaces: Rows::new(alloc),
            all_interfaces: Rows::new(alloc),
            methods: Order::new(alloc),
            fields: Order::new(alloc),
        }
    }
}

/// The numbers of two lists, each once.
fn joined(alloc: Global, first: &[u32], second: &[u32]) -> Result<Order, AllocError>
    ensures { IfOk result (λ order. order ≡ put_all (without_repeats first.now) second.now) }
{
    let mut order = Order::new(alloc);
    order.put_all(first)?;
    order.put_all(second)?;
    Ok(order)
}

/// A class, followed by the numbers of two lists, each once.
fn headed(alloc: Global, class: u32, first: &[u32], second: &[u32]) -> Result<Order, AllocError>
    ensures { IfOk result (λ order. order ≡ put_all (put_all (put [] class) first.now) second.now) }
{
    let mut order = Order::new(alloc);
    order.put(class)?;
    order.put_all(first)?;
    order.put_all(second)?;
    Ok(order)
}

/// The interfaces of a class whose orders may be there.
fn interfaces_in(done: &[ClassOrder], class: u32) -> &[u32]
    ensures { result.now ≡ interfaces_in done.now class }
{
    match done.get(class as usize) {
        Some(order) => order.interfaces.as_slice(),
        None => &[],
    }
}

/// Some interfaces, each before those above it.
fn with_interfaces(alloc: Global, done: &[ClassOrder], named: &[u32]) -> Result<Order, AllocError>
    ensures { IfOk result (λ order. order ≡ without_repeats (flat_map (λ i. i ∷ interfaces_in done.now i) named.now)) }
{
    let mut order = Order::new(alloc);
    for interface in named {
        order.put(*interface)?;
        order.put_all(interfaces_in(done, *interface))?;
    }
    Ok(order)
}

/// The interfaces of a class, each before those above it, and each once.
fn class_interfaces(alloc: Global, done: &[ClassOrder], named: &[u32]) -> Result<Order, AllocError>
    ensures { IfOk result (λ order. order ≡ without_repeats (flat_map (λ i. i ∷ interfaces_in done.now i) named.now)) }
{
    let once = joined(alloc, named, &[])?;
    let order = with_interfaces(alloc, done, once.numbers())?;
    Ok(order)
}

/// The orders of a class, from those of its superclass and its interfaces.
pub fn class_order(
    alloc: Global,
    done: &[ClassOrder],
    class: u32,
    superclass: &ClassOrder,
    named: &[u32],
) -> Result<ClassOrder, AllocError>
    ensures { IfOk result (λ order. IsBuilt done.now class superclass.now named.now order) }
{
    let superclasses = headed(alloc, class, &[], superclass.superclasses.numbers())?;
    let interfaces = class_interfaces(alloc, done, named)?.into_numbers();
    let all_interfaces = joined(
        alloc,
        &interfaces,
        superclass.all_interfaces.as_slice(),
    )?.into_numbers();
    let methods = joined(alloc, superclasses.numbers(), &all_interfaces)?;
    let fields = headed(alloc, class, &interfaces, superclass.fields.numbers())?;
    Ok(ClassOrder {
        superclasses,
        interfaces: Rows::from_vec(interfaces),
        all_interfaces: Rows::from_vec(all_interfaces),
        methods,
        fields,
    })
}
