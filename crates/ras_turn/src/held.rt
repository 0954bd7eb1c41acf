ghost use Rattle.std.specs.Prelude.{◌≡◌, length, [], ◌∷◌, None};
ghost use Rattle.ras_turn.specs.Entries.{made_by};
ghost use Rattle.ras_turn.specs.Rule.{holding};

use crate::chronicle::Chronicle;
use crate::pass::Pass;
use crate::turn::Turn;
use crate::view::View;
use atomic_table::Seat;

/// A turn that is held, and the pass that holds it. It has to be left.
pub struct Held<'a, S: Chronicle> {
    pub(crate) turn: &'a Turn<S>,
    pub(crate) number: u32,
    /// The number of entries that were found.
    pub(crate) found: u64,
    pub(crate) seat: Seat<Option<S>, View<S::Entry, S::Charter>>,
    ghost of_turn: { seat.table_id ≡ turn.now.table.shared.table_id },
    ghost holding: { seat.me.0 ≡ holding number seat.me.0.seen seat.me.0.own seat.me.0.charter },
    ghost carries_none: { seat.me.1 ≡ (0, None) ∷ [] },
    pub ghost own_is: { seat.me.0.own ≡ made_by number seat.me.0.seen },
    ghost found_all: { length seat.me.0.seen ≡ found },
}

impl<'a, S: Chronicle> Held<'a, S> {
    ghost use Rattle.std.specs.Prelude.{◌++◌, Some, drop, length};
    ghost use Rattle.ras_turn.specs.Entries.{Extends};
    ghost use Rattle.ras_turn.specs.Words.{pass_turn, pass_number, pass_charter, pass_seen, pass_own, held_turn, held_number, held_charter, held_seen, held_own};

    /// Leaves the turn. The state comes back with the list that was taken, followed by entries of
    /// this pass alone, and the pass has then seen them.
    pub fn leave(self, state: S) -> Pass<S>
        requires list { Extends (held_number self) (held_seen self) (S.entries state) }
        requires charter { held_charter self ≡ Some (S.charter state) }
        ensures turn { pass_turn result ≡ held_turn self.entry }
        ensures number { pass_number result ≡ held_number self.entry }
        ensures charter { pass_charter result ≡ held_charter self.entry }
        ensures seen { pass_seen result ≡ S.entries state }
        ensures own { pass_own result ≡ made_by (held_number self.entry) (S.entries state) }
        ensures extended { pass_own result ≡ held_own self.entry ++ drop (length (held_seen self.entry)) (S.entries state) }
    {
        let Held {
            turn,
            number,
            found,
            seat,
        } = self;
        let seat = turn.put_back(seat, found, state);
        let seat = turn.let_go(seat);
        Pass { number, seat }
    }
}
