//! Where an instruction leads.

ghost use Rattle.std.specs.Prelude.{◌≡◌};
ghost use Rattle.instructions.specs.What.{targets_of};

use crate::what::{Case, What};
use std::marker::Model;

/// The targets of an instruction that are ahead. Contracts see the list of them.
#[derive(Drop)]
pub struct Targets<'a, T> {
    first: Option<T>,
    listed: &'a [T],
    cases: &'a [Case<T>],
}

impl<'a, T> Model for Targets<'a, T> {
    ghost use Rattle.std.specs.Prelude.{List, ◌++◌, map};
    ghost use Rattle.instructions.specs.What.{if_there};

    ghost Value = { List T };

    ghost view = { λ t. if_there t.first ++ (t.listed.now ++ map (λ c. c.target) t.cases.now) };
}

impl<'a, T: Copy> Iterator for Targets<'a, T> {
    ghost use Rattle.std.specs.Iterator.{YieldsFirst, item_count};

    type Item = T;

    ghost next_gives = { YieldsFirst (λ t. t) };

    ghost remaining = { item_count (λ t. t) };

    fn next(&mut self) -> Option<T> {
        if let Some(target) = self.first.take() {
            return Some(target);
        }
        if let Some((target, others)) = self.listed.split_first() {
            self.listed = others;
            return Some(*target);
        }
        let (case, others) = self.cases.split_first()?;
        self.cases = others;
        Some(case.target)
    }
}

impl<T: Copy> What<T> {
    /// The targets, the default of a switch first (JVMS 6.5). Takes no memory.
    pub fn targets(&self) -> Targets<'_, T>
        ensures { result ≡ targets_of self.now }
    {
        let (first, listed, cases): (Option<T>, &[T], &[Case<T>]) = match self {
            What::Branch(_, target) => (Some(*target), &[], &[]),
            What::TableSwitch {
                default,
                targets,
                ..
            } => (Some(*default), targets.as_slice(), &[]),
            What::LookupSwitch { default, cases } => (Some(*default), &[], cases.as_slice()),
            _ => (None, &[], &[]),
        };
        Targets {
            first,
            listed,
            cases,
        }
    }
}
