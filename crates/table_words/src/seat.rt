//! The seats of a table.

ghost use Rattle.std.specs.Prelude.{◌≡◌, []};

use crate::setup::SeatView;
use atomic_table::Seat;

/// The right to make the steps of a thread on a table. It has no bytes. Contracts see its parts (`parts_of_seat`).
#[derive(Drop)]
pub struct TableSeat<C> {
    pub(crate) seat: Seat<(), SeatView<C>>,
    ghost bare: { seat.me.1 ≡ [] },
}
