ghost use Rattle.std.specs.Prelude.{◌≡◌, []};
ghost use Rattle.ras_turn.specs.Entries.{made_by};
ghost use Rattle.ras_turn.specs.Rule.{idle};

use crate::chronicle::Chronicle;
use crate::view::View;
use atomic_table::Seat;

/// The right to enter one turn under one number. It takes no bytes but the number's. Contracts see
/// its number, its charter, the list that it has seen and its own entries, which are just those of
/// its number in that list.
pub struct Pass<S: Chronicle> {
    pub(crate) number: u32,
    pub(crate) seat: Seat<Option<S>, View<S::Entry, S::Charter>>,
    ghost idle: { seat.me.0 ≡ idle number seat.me.0.seen seat.me.0.own seat.me.0.charter },
    ghost carries_nothing: { seat.me.1 ≡ [] },
    pub ghost own_is: { seat.me.0.own ≡ made_by number seat.me.0.seen },
}

impl<S: Chronicle> Drop for Pass<S> {
    fn drop(self) {
        let Pass { number: _, seat } = self;
        drop(seat);
    }
}

impl<S: Chronicle> Pass<S> {
    ghost use Rattle.ras_turn.specs.Words.{pass_number};

    /// The number, below the number of the turn's passes.
    pub fn number(&self) -> u32
        ensures { result ≡ pass_number self.now }
    {
        self.number
    }

    /// A pass of a seat that was dealt under the number.
    pub(crate) fn of(number: u32, seat: Seat<Option<S>, View<S::Entry, S::Charter>>) -> Pass<S>
        requires view { seat.me.0 ≡ idle number [] [] seat.me.0.charter }
        requires slots { seat.me.1 ≡ [] }
        ensures { (result.number ≡ number) × (result.seat ≡ seat) }
    {
        Pass { number, seat }
    }

    /// The pass in its parts.
    pub(crate) fn into_parts(self) -> (u32, Seat<Option<S>, View<S::Entry, S::Charter>>)
        ensures { (result.0 ≡ self.number) × (result.1 ≡ self.seat) }
    {
        let Pass { number, seat } = self;
        (number, seat)
    }
}
