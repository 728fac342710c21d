//! Rules that are in an order: all of them hold, or the first one that doesn't is the refusal.
//!
//! A crate of definitions, and of what holds of them: `specs/Rules.antt` has the rules of one case, of one item after
//! another, and of one list of rules after another; `proofs/` shows that rules which hold refuse nothing, and that
//! rules refuse one thing at most.
#![tactic(auto)]
