//! A stack of items, for each of which room is made before it is put on top.

ghost use Rattle.std.specs.Prelude.{◌≡◌, ◌<◌, [], ◌∷◌, ◌==◌, OnOk, reverse, slice_get, length, nat_eq, if◌then◌else◌};
ghost use Rattle.std.specs.List.{list_any};
ghost use Rattle.thread_automaton.specs.ThreadState.{held_as, from_level, highest, with_depth_of};
ghost use Rattle.thread_automaton.specs.Changes.{without};
ghost use Rattle.thread_moves.specs.Items.{is_some_item};

use op_core::NoMemory;
use std::alloc::Global;
use std::marker::Model;
use thread_automaton::Held;

/// Items of which the last one is taken off first. Contracts see them as a list, newest first, with the number of
/// places that are spare.
#[derive(Drop)]
pub struct Stack<T> {
    items: Vec<T>,
}

impl<T> Model for Stack<T> {
    ghost use Rattle.std.specs.Prelude.{◌-◌, reverse, vec_len, vec_capacity};
    ghost use Rattle.thread_moves.specs.Items.{Items};

    ghost Value = { Items T };

    ghost view = { λ stack. record { newest_first = reverse stack.items.items; spare = vec_capacity stack.items - vec_len stack.items } };
}

impl<T: Copy + Drop> Stack<T> {
    /// No items. Takes no memory.
    pub fn empty(alloc: Global) -> Self
        ensures { result.newest_first ≡ [] }
    {
        Stack {
            items: Vec::new(alloc),
        }
    }

    /// Makes room for one item more. The items stay, whatever the answer.
    pub fn reserve(&mut self) -> Result<(), NoMemory>
        ensures room { OnOk result (0 < self.new.spare) }
        ensures items { self.new.newest_first ≡ self.old.newest_first }
    {
        self.items.reserve(1)?;
        Ok(())
    }

    /// Puts an item on top. There must be room for it.
    pub fn push(&mut self, item: T)
        requires { 0 < self.old.spare }
        ensures { self.new.newest_first ≡ item ∷ self.old.newest_first }
    {
        self.items.push_reserved(item);
    }

    /// The items, oldest first.
    pub fn as_slice(&self) -> &[T]
        ensures { self.now.newest_first ≡ reverse result.now }
    {
        self.items.as_slice()
    }
}

impl Stack<Held> {
    /// Takes the monitor of an object off.
    pub fn remove(&mut self, object: u32)
        ensures { self.new.newest_first ≡ without object self.old.newest_first }
    {
        self.items.retain(|other| other.object != object);
    }

    /// Takes all off.
    pub fn clear(&mut self)
        ensures { self.new.newest_first ≡ [] }
    {
        self.items.clear();
    }

    /// Whether no monitor is held.
    pub fn is_empty(&self) -> bool
        ensures { result ≡ (length self.now.newest_first == 0) }
    {
        self.items.is_empty()
    }

    /// The monitor of an object; where it isn't held, with depth 0.
    pub fn find(&self, object: u32) -> Held
        ensures { result ≡ held_as object self.now.newest_first }
    {
        find_in(self.items.as_slice(), object)
    }

    /// Whether one of them has this level.
    pub fn has_level(&self, level: u8) -> bool
        ensures { result ≡ list_any (λ h. nat_eq h.level level) self.now.newest_first }
    {
        has_level_in(self.items.as_slice(), level)
    }

    /// The newest one that has this level or one further inside.
    pub fn newest_from(&self, level: u8) -> Option<Held>
        ensures { result ≡ slice_get (from_level level self.now.newest_first) 0 }
    {
        newest_from_in(self.items.as_slice(), level)
    }

    /// Whether another monitor than that of the object is held.
    pub fn has_others(&self, object: u32) -> bool
        ensures { result ≡ is_some_item (without object self.now.newest_first) }
    {
        has_others_in(self.items.as_slice(), object)
    }

    /// The greatest level of the others.
    pub fn highest_of_others(&self, object: u32) -> u8
        ensures { result ≡ highest (without object self.now.newest_first) }
    {
        highest_of_others_in(self.items.as_slice(), object)
    }

    /// Gives the monitor of an object another depth.
    #[tactic(auto, using(crate::proofs::DepthLemmas::next_deep, crate::proofs::DepthLemmas::all_deep, crate::proofs::DepthLemmas::same_length))]
    pub fn set_depth(&mut self, object: u32, depth: u16)
        ensures { self.new.newest_first ≡ with_depth_of object depth self.old.newest_first }
    {
        for index in 0..self.items.len() {
            let held = self.items[index];
            self.items[index] = deepened(held, object, depth);
        }
    }
}

// The monitor with another depth, where it is that of the object.
fn deepened(held: Held, object: u32, depth: u16) -> Held
    ensures { result ≡ (if nat_eq held.object object then record held { depth = depth } else held) }
{
    if held.object == object {
        Held { depth, ..held }
    } else {
        held
    }
}

#[tactic(auto, using(crate::proofs::HeldLemmas::find_next))]
fn find_in(held: &[Held], object: u32) -> Held
    ensures { result ≡ held_as object (reverse held.now) }
{
    let mut found = Held {
        object,
        level: 1,
        depth: 0,
    };
    for monitor in held {
        if monitor.object == object {
            found = *monitor;
        }
    }
    found
}

#[tactic(auto, using(crate::proofs::HeldLemmas::level_next))]
fn has_level_in(held: &[Held], level: u8) -> bool
    ensures { result ≡ list_any (λ h. nat_eq h.level level) (reverse held.now) }
{
    let mut found = false;
    for monitor in held {
        found = monitor.level == level || found;
    }
    found
}

#[tactic(auto, using(crate::proofs::HeldLemmas::from_next))]
fn newest_from_in(held: &[Held], level: u8) -> Option<Held>
    ensures { result ≡ slice_get (from_level level (reverse held.now)) 0 }
{
    let mut newest = None;
    for monitor in held {
        if level <= monitor.level {
            newest = Some(*monitor);
        }
    }
    newest
}

#[tactic(auto, using(crate::proofs::HeldLemmas::others_next))]
fn has_others_in(held: &[Held], object: u32) -> bool
    ensures { result ≡ is_some_item (without object (reverse held.now)) }
{
    let mut found = false;
    for monitor in held {
        found = monitor.object != object || found;
    }
    found
}

#[tactic(auto, using(crate::proofs::HeldLemmas::highest_next))]
fn highest_of_others_in(held: &[Held], object: u32) -> u8
    ensures { result ≡ highest (without object (reverse held.now)) }
{
    let mut most = 0;
    for monitor in held {
        if monitor.object != object && monitor.level > most {
            most = monitor.level;
        }
    }
    most
}
