//! One reply.

ghost use Rattle.std.specs.Prelude.{◌≡◌};
ghost use Rattle.interp_plans.specs.Replies.{then_of};
ghost use Rattle.interp_plans.specs.Todos.{plan_reached};
ghost use Rattle.interp_plans.specs.Uses.{frame_of};

use crate::classes::{
    asked, broken, error_made, leaves, raised, selects, selects_for, settled, thrown,
};
use crate::elements::{checked, loads, stores};
use crate::monitors::{entered, exited, notified, notified_all, waited};
use crate::threads::{
    finds_run, inherits, prints_text, prints_word, runs_target, started, starts_with, writes_target,
};
use crate::values::{
    STUCK, cast, done, high_read, length, low_read, low_written, made, read, tested,
};
use frame_snapshot::{Then, Todo};
use interp_plans::{Here, JavaProgram, Reached};
use op_core::{Op, Reply};

/// What the reply to an operation leads to, given how the instruction goes on with it.
pub fn answer<P: JavaProgram>(here: &Here<'_, P>, then: Then, reply: Reply) -> Reached
    ensures { then_of (P.units here.now.program.now) here.now.thread (frame_of here.now.frames.now.here) then reply
        ≡ plan_reached (P.units here.now.program.now) here.now.thread (frame_of here.now.frames.now.here) result }
{
    match then {
        Then::Done(site) => done(here, site, reply),
        Then::Read(site) => read(here, site, reply),
        Then::LowRead {
            site,
            object,
            place,
        } => low_read(here, site, object, place, reply),
        Then::HighRead { site, low } => high_read(here, site, low, reply),
        Then::LowWritten {
            site,
            object,
            place,
            high,
        } => low_written(here, site, Op::Write(object, place, high), reply),
        Then::Made(site) => made(here, site, reply),
        Then::Length(site) => length(here, site, reply),
        Then::Cast { object, class } => cast(here, object, class, reply),
        Then::Tested(class) => tested(here, class, reply),
        Then::Exited(site) => exited(here, site, reply),
        Then::Loads(kind) => loads(here, kind, reply),
        Then::Stores(kind) => stores(here, kind, reply),
        Then::Checked(class) => checked(here, class, reply),
        Then::Selects { method, site } => selects(here, method, site, reply),
        Then::SelectsFor {
            interface,
            method,
            site,
        } => selects_for(here, interface, method, site, reply),
        Then::Entered {
            method,
            site,
            monitor,
        } => entered(here, method, site, monitor, reply),
        Then::Thrown(object) => thrown(here, object, reply),
        Then::Leaves(outcome) => leaves(here, outcome, reply),
        Then::Raised { caller, class } => raised(here, caller, class, reply),
        Then::Ended => match reply {
            Reply::Done => Reached::Goes(Todo::Over),
            _ => STUCK,
        },
        Then::Asked { caller, place } => asked(here, caller, place, reply),
        Then::Settled { caller, place } => settled(here, caller, place, reply),
        Then::Broken {
            caller,
            place,
            object,
            class,
        } => broken(here, caller, place, (object, class), reply),
        Then::Error {
            caller,
            place,
            class,
        } => error_made(here, caller, place, class, reply),
        Then::Waited { site, object } => waited(here, site, object, reply),
        Then::Notified(site) => notified(here, site, reply),
        Then::NotifiedAll(caller) => notified_all(here, caller, reply),
        Then::PrintsWord { site, string } => prints_word(here, site, string, reply),
        Then::PrintsText(site) => prints_text(here, site, reply),
        Then::Inherits {
            site,
            thread,
            target,
        } => inherits(here, site, thread, target, reply),
        Then::WritesTarget {
            site,
            thread,
            target,
        } => writes_target(here, site, thread, target, reply),
        Then::StartsWith { site, thread } => starts_with(here, site, thread, reply),
        Then::Started(site) => started(here, site, reply),
        Then::RunsTarget(caller) => runs_target(here, caller, reply),
        Then::FindsRun(caller) => finds_run(here, caller, reply),
    }
}
