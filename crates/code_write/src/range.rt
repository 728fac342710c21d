//! Whether operands have room for their numbers.

ghost use Rattle.std.specs.Prelude.{◌≡◌, ◌↔◌, ◌<◌, ◌^◌, All, FitsSigned, IsTrue, length};
ghost use Rattle.std.specs.Int.{w16, w32};
ghost use Rattle.code_write.specs.Instruction.{distance, highest, IsCaseInRange, IsFar, IsInRange, IsLookupInRange, IsTableInRange};

use crate::operands::Operands;
use instructions::Case;

/// How many targets or cases a switch may have.
const MOST: usize = 0xFFFF_FFFF;

/// How far a target is from the instruction.
pub(crate) fn distance(at: u32, target: u32) -> i64
    ensures { result ≡ distance at target }
{
    i64::from(target) - i64::from(at)
}

/// The key of the last target of a tableswitch.
pub(crate) fn highest(low: i32, targets: &[u32]) -> i64
    requires { length targets.now < 2 ^ 32 }
    ensures { result ≡ highest low targets.now }
{
    i64::from(low) + targets.len() as i64 - 1
}

/// Whether the distance has room in two bytes.
fn is_near(at: u32, target: u32) -> bool
    ensures { IsTrue result ↔ FitsSigned w16 (distance at target) }
{
    i16::try_from(distance(at, target)).is_ok()
}

/// Whether the distance has room in four bytes.
fn is_far(at: u32, target: u32) -> bool
    ensures { IsTrue result ↔ IsFar at target }
{
    i32::try_from(distance(at, target)).is_ok()
}

fn are_far(at: u32, targets: &[u32]) -> bool
    ensures { IsTrue result ↔ All (IsFar at) targets.now }
{
    for target in targets {
        if !is_far(at, *target) {
            return false;
        }
    }
    true
}

fn is_table_in_range(at: u32, default: u32, low: i32, targets: &[u32]) -> bool
    ensures { IsTrue result ↔ IsTableInRange at default low targets.now }
{
    targets.len() <= MOST
        && i32::try_from(highest(low, targets)).is_ok()
        && is_far(at, default)
        && are_far(at, targets)
}

fn are_cases_in_range(at: u32, cases: &[Case<u32>]) -> bool
    ensures { IsTrue result ↔ All (IsCaseInRange at) cases.now }
{
    for case in cases {
        if !is_far(at, case.target) {
            return false;
        }
    }
    true
}

fn is_lookup_in_range(at: u32, default: u32, cases: &[Case<u32>]) -> bool
    ensures { IsTrue result ↔ IsLookupInRange at default cases.now }
{
    cases.len() <= MOST && is_far(at, default) && are_cases_in_range(at, cases)
}

/// Whether each operand of an instruction at this offset has room for its number.
pub(crate) fn is_in_range(at: u32, operands: &Operands<u32>) -> bool
    ensures { IsTrue result ↔ IsInRange at operands.now }
{
    match operands {
        Operands::Near(target) => is_near(at, *target),
        Operands::Far(target) => is_far(at, *target),
        Operands::TableSwitch {
            default,
            low,
            targets,
        } => is_table_in_range(at, *default, *low, targets.as_slice()),
        Operands::LookupSwitch { default, cases } => {
            is_lookup_in_range(at, *default, cases.as_slice())
        }
        Operands::Absent
        | Operands::Byte(_)
        | Operands::Short(_)
        | Operands::ByteIndex(_)
        | Operands::Index(_)
        | Operands::Local(_)
        | Operands::WideLocal(_)
        | Operands::Increment { .. }
        | Operands::WideIncrement { .. }
        | Operands::InterfaceCall { .. }
        | Operands::NewArray(_) => true,
    }
}
