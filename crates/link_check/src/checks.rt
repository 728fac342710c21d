//! The groups of rules, one after the other.

ghost use Rattle.std.specs.Prelude.{◌≡◌, ◌≤◌, IfOk, IfErr, length, ⊤};
ghost use Rattle.rules.specs.Rules.{◌then◌};
ghost use Rattle.link_types.specs.declared.refusal.LinkRefusal.{LinkRefusal};
ghost use Rattle.link_rules.specs.Units.{AreUnits};
ghost use Rattle.link_rules.specs.LinkRules.{hierarchy_rules, link_rules};
ghost use Rattle.class_supers.specs.Answers.{Gives, Refuses, IsRefused};
ghost use Rattle.link_check.specs.Groups.{member_groups};

use class_orders::ClassOrders;
use class_supers::Supers;
use code_decode::ClassUnit;
use link_implementations::check_implementations;
use link_members::check_members;
use link_types::LinkRefusal;
use member_lookup::MemberLookup;
use std::alloc::Global;
use use_rules::check_uses;

/// The rules of members, of implementations, and of what instructions and handlers name.
fn check_groups(alloc: Global, lookup: &MemberLookup<'_>) -> Result<(), LinkRefusal>
    requires few { length lookup.now.units ≤ 1024 }
    requires decoded { AreUnits lookup.now.units }
    ensures { Gives result (member_groups lookup.now.units) (λ none. ⊤) }
{
    check_members(alloc, lookup)?;
    check_implementations(alloc, lookup)?;
    check_uses(alloc, lookup)
}

/// The members of a program that keeps those rules, where the rules of what lies above classes hold.
fn checked_lookup(alloc: Global, supers: Supers<'_>) -> Result<MemberLookup<'_>, LinkRefusal>
    requires few { length supers ≤ 1024 }
    requires above { (hierarchy_rules supers).Hold }
    requires decoded { AreUnits supers }
    ensures { Gives result (member_groups supers.entry) (λ lookup. lookup.units ≡ supers.entry) }
{
    let orders = ClassOrders::new(alloc, supers)?;
    let lookup = MemberLookup::new(alloc, orders)?;
    match check_groups(alloc, &lookup) {
        Ok(()) => Ok(lookup),
        Err(refusal) => Err(refusal),
    }
}

fn all_checked(alloc: Global, units: &[ClassUnit]) -> Result<MemberLookup<'_>, LinkRefusal>
    requires decoded { AreUnits units.now }
    ensures { Gives result (link_rules units.now) (λ lookup. lookup.units ≡ units.now) }
{
    let supers = Supers::new(alloc, units)?;
    checked_lookup(alloc, supers)
}

/// The members of a program whose class files keep the rules of linking (JVMS 5.3 to 5.5): `Ok` exactly where all of
/// them hold, unless memory runs out.
///
/// # Errors
/// The refusal of the first rule that is broken, in the order of `link_rules`: of how many files there are and what
/// their classes are named, of what lies above classes, of members, of implementations, and of what instructions and
/// handlers name. `NoMemory` where memory runs out.
pub fn linked_lookup(alloc: Global, units: &[ClassUnit]) -> Result<MemberLookup<'_>, LinkRefusal>
    requires decoded { AreUnits units.now }
    ensures linked { IfOk result (λ lookup. (lookup.units ≡ units.now) × (link_rules units.now).Hold) }
    ensures exact { IfErr result (λ e. Refuses e (link_rules units.now)) }
    ensures first { (e : LinkRefusal) → (link_rules units.now).Refuse e → IsRefused result e }
{
    all_checked(alloc, units)
}
