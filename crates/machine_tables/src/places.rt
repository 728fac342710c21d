//! One place of the table of threads, changed where it is.

ghost use Rattle.std.specs.Prelude.{◌≡◌, ◌≤◌, Ok, Err, true, false};
ghost use Rattle.op_core.specs.declared.CodeStop.{CodeStop};
ghost use Rattle.std.specs.Option.{option_map};
ghost use Rattle.machine_tables.specs.Tables.{waiting_at, standing_at, placed_at, SeatRuns, StandingRuns, SeatOverflows, StandingOverflows, SeatLeaves, StandingLeaves, AwaitsReply, StandingAwaits, SeatReplies, StandingReplies};

use crate::{Seat, Standing, WaitState};
use op_core::{CodeStop, Next, Reply, ThreadCode};
use std::mem;

pub(crate) fn wait_at<C>(place: &mut Option<Seat<C>>, waiting: WaitState)
    ensures { place.new ≡ waiting_at waiting place.old }
{
    if let Some(seat) = place {
        seat.waiting = waiting;
    }
}

pub(crate) fn stand_at<C: Drop>(place: &mut Option<Seat<C>>, standing: Standing<C>, silent: u64)
    ensures { place.new ≡ standing_at standing silent place.old }
{
    if let Some(seat) = place {
        seat.standing = standing;
        seat.silent = silent;
    }
}

pub(crate) fn replace_at<C: Drop>(
    place: &mut Option<Seat<C>>,
    standing: Standing<C>,
) -> Option<Standing<C>>
    ensures result { result ≡ option_map (λ x. x.standing) place.old }
    ensures place { place.new ≡ placed_at standing place.old }
{
    match place {
        Some(seat) => Some(mem::replace(&mut seat.standing, standing)),
        None => None,
    }
}

fn run_from<C: ThreadCode>(standing: &mut Standing<C>, most: u64) -> u64
    ensures runs { StandingRuns C.code C.state result standing.old standing.new }
    ensures most { result ≤ most }
{
    match standing {
        Standing::Live(code) => code.run_silent(most),
        Standing::Ended(_) => 0,
    }
}

pub(crate) fn run_at<C: ThreadCode>(place: &mut Option<Seat<C>>, most: u64) -> u64
    ensures runs { SeatRuns C.code C.state result place.old place.new }
    ensures most { result ≤ most }
{
    match place {
        Some(seat) => {
            let room = u64::MAX - seat.silent;
            let made = run_from(&mut seat.standing, most.min(room));
            seat.silent += made;
            made
        }
        None => 0,
    }
}

fn silent_from<C: ThreadCode>(standing: &mut Standing<C>) -> Result<bool, CodeStop>
    ensures made { result ≡ Ok true → StandingRuns C.code C.state 1 standing.old standing.new }
    ensures left { result ≡ Ok false → StandingLeaves C.code C.state C.saved standing.old }
    ensures frames { result ≡ Err CodeStop.Frames → StandingOverflows C.code C.state standing.old }
    ensures kept { (result ≡ Ok true → ⊥) → standing.new ≡ standing.old }
{
    let Standing::Live(code) = standing else {
        return Ok(false);
    };
    match code.next() {
        Next::Silent if !code.leaves() => {
            code.silent()?;
            Ok(true)
        }
        _ => Ok(false),
    }
}

pub(crate) fn silent_at<C: ThreadCode>(place: &mut Option<Seat<C>>) -> Result<bool, CodeStop>
    ensures made { result ≡ Ok true → SeatRuns C.code C.state 1 place.old place.new }
    ensures left { result ≡ Ok false → SeatLeaves C.code C.state C.saved place.old }
    ensures frames { result ≡ Err CodeStop.Frames → SeatOverflows C.code C.state place.old }
    ensures kept { (result ≡ Ok true → ⊥) → place.new ≡ place.old }
{
    let Some(seat) = place else {
        return Ok(false);
    };
    if seat.silent == u64::MAX {
        return Err(CodeStop::NoMemory);
    }
    let made = silent_from(&mut seat.standing)?;
    if made {
        seat.silent += 1;
    }
    Ok(made)
}

#[inline(always)]
fn reply_from<C: ThreadCode>(standing: &mut Standing<C>, reply: Reply)
    requires { StandingAwaits C.code C.state standing.old reply }
    ensures { StandingReplies C.code C.state reply standing.old standing.new }
{
    if let Standing::Live(code) = standing {
        code.reply(reply);
    }
}

#[inline(always)]
pub(crate) fn reply_at<C: ThreadCode>(place: &mut Option<Seat<C>>, reply: Reply)
    requires { AwaitsReply C.code C.state place.old reply }
    ensures { SeatReplies C.code C.state reply place.old place.new }
{
    if let Some(seat) = place {
        reply_from(&mut seat.standing, reply);
        seat.silent = 0;
    }
}
