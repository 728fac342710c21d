//! The orders in which classes are looked through for a member (JVMS SE 8, 5.4.3), each class once.
#![tactic(auto)]

mod class_order;
mod orders;

pub use class_order::ClassOrder;
pub use orders::ClassOrders;
