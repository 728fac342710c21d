//! The table and its first seat.

ghost use Rattle.std.specs.Prelude.{◌≡◌, [], ◌∷◌, IfOk};
ghost use Rattle.heap_words.specs.declared.areas.Area.{Area};
ghost use Rattle.heap_words.specs.Areas.{begin_of, size_of};
ghost use Rattle.table_words.specs.Setups.{setup_of, setup_areas};

use crate::port::TablePort;
use crate::rule::SharedTable;
use crate::seat::TableSeat;
use crate::setup::TableKey;
use atomic_table::Table;
use fixed_objects::Opening;
use heap_words::Areas;
use op_core::{Limits, NoMemory, ThreadCode};
use plain_words::PlainWords;
use std::alloc::Global;
use std::snapshot::Snapshot;

/// The words of a run, shared by the seats of its threads. Contracts see the program for which it was made (`setup_in`) and which
/// seats are its (`IsSeatOf`).
#[derive(Drop)]
pub struct TableWords<C: ThreadCode> {
    pub(crate) table: SharedTable<C>,
    pub(crate) areas: Areas,
    // Where the objects begin: it is kept, since most steps are made on words of objects.
    pub(crate) objects_from: u64,
    ghost areas_are: { areas ≡ setup_areas (setup_of table.shared.key) },
    ghost begins: { objects_from ≡ begin_of areas (Area.Object 0) },
    ghost words: { table.shared.table_id.words ≡ size_of areas },
    ghost slots: { table.shared.table_id.slots ≡ 0 },
}

/// There was no memory to hand out the words of a table. All comes back as it was.
#[derive(Drop)]
pub struct Unfinished<C: ThreadCode> {
    /// The table.
    pub table: TableWords<C>,
    /// The seat that was given first.
    pub first: TableSeat<C>,
    /// The other seats.
    pub rest: Vec<TableSeat<C>>,
}

impl<C: ThreadCode> TableWords<C> {
    ghost use Rattle.plain_words.specs.Opening.{HasPlace};
    ghost use Rattle.table_words.specs.Setups.{setup, first_birth};
    ghost use Rattle.table_words.specs.Parts.{fresh_part};
    ghost use Rattle.table_words.specs.Tables.{setup_in, parts_of_seat, IsSeatOf};

    /// The words with which a run of this program begins, and the seat of its first thread, which begins with this code. The
    /// fixed objects must have their places within the limits.
    ///
    /// # Errors
    ///
    /// `NoMemory` where there was no memory.
    pub fn new(
        alloc: Global,
        opening: &Opening,
        limits: &Limits,
        code: &C,
    ) -> Result<(TableWords<C>, TableSeat<C>), NoMemory>
        requires { HasPlace opening.now limits.now }
        ensures setup { IfOk result (λ t. setup_in t.0 ≡ setup opening.now limits.now code.now) }
        ensures seat { IfOk result (λ t. IsSeatOf t.0 t.1) }
        ensures view { IfOk result (λ t. parts_of_seat t.1 ≡ fresh_part (setup_in t.0) (first_birth (setup_in t.0)) ∷ []) }
    {
        let key = TableKey {
            opening: Snapshot::of(opening),
            limits: *limits,
            code: Snapshot::of(code),
        };
        let words = PlainWords::open(alloc, opening, limits)?;
        let areas = words.areas;
        let Ok((table, seat)) = Table::of_words(alloc, words.block(), &key) else {
            return Err(NoMemory);
        };
        let objects_from = areas.objects_from();
        let made = TableWords {
            table,
            areas,
            objects_from,
        };
        Ok((made, TableSeat { seat }))
    }

    /// The port through which the thread of a seat of this table makes its steps. It takes no memory.
    pub fn port(&self, seat: TableSeat<C>) -> TablePort<'_, C>
        requires { IsSeatOf self.now seat }
        ensures table { result.table.now ≡ self.now }
        ensures seat { result.seat ≡ seat }
    {
        TablePort { table: self, seat }
    }
}
