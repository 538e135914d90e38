// A pass, which is a caller's seat at the table.
ghost use Rattle.history_lock.specs.declared.machine.TheConstants.{MOST_PASSES};
ghost use Rattle.std.specs.Prelude.{◌≡◌, ◌<◌, ◌≤◌};

use crate::machine::Machine;
use crate::view::LockSeat;
use std::marker::{Brand, Model, PhantomData};

/// Which table it is. A program picks the name of each table that it opens once, by a call of a
/// function that is generic in the name.
pub trait TableName {
    ghost use Rattle.atomic_table.specs.Seated.{TableId};

    /// The table.
    ghost table: { TableId };
}

impl TableName for Brand {
    ghost use Rattle.history_lock.specs.Names.{no_table};

    ghost table = { no_table };
}

/// A caller of the lock whose table is named `T`. Contracts see its number, the history that it
/// knows, how many passes it knows to be made, and the cause that the lock keeps, if it knows one.
#[derive(Drop)]
pub struct Pass<M: Machine, T: TableName> {
    pub(crate) number: u32,
    pub(crate) seat: LockSeat<M>,
    pub(crate) of: PhantomData<(M, T)>,
}

impl<M: Machine, T: TableName> Model for Pass<M, T> {
    ghost use Rattle.std.specs.Prelude.{◌≡◌, None, ◌<◌, ◌≤◌};
    ghost use Rattle.history_lock.specs.Known.{Known};
    ghost use Rattle.history_lock.specs.Views.{view_of};
    ghost use Rattle.history_lock.specs.declared.machine.TheConstants.{MOST_PASSES};
    ghost use Rattle.history_lock.specs.declared.view.Kind.TheVariants.{Caller};

    ghost Value = { Known M.Item };

    ghost view = { λ p. record { number = p.number; history = (view_of p.seat.me).history; made = (view_of p.seat.me).made; ended = (view_of p.seat.me).ended } };

    ghost invariant = { λ p. (p.seat.table_id ≡ T.table)
        × ((view_of p.seat.me).kind ≡ Caller)
        × ((view_of p.seat.me).in_flight ≡ None)
        × ((view_of p.seat.me).number ≡ p.number)
        × (p.number < (view_of p.seat.me).made)
        × ((view_of p.seat.me).made ≤ MOST_PASSES)
        × M.legal (view_of p.seat.me).history };
}

impl<M: Machine, T: TableName> Pass<M, T> {
    /// The caller's number, below 1,048,576. It takes no memory.
    pub fn number(&self) -> u32
        ensures number { result ≡ self.now.number }
        ensures below { result < self.now.made }
        ensures top { self.now.made ≤ MOST_PASSES }
        ensures legal { M.legal self.now.history }
    {
        self.number
    }
}
