//! The rule of the table, and the kinds of steps on it.
use crate::chronicle::Chronicle;
use crate::view::View;
use atomic_table::{Join, Play, Split, TableRule};
use std::snapshot::Snapshot;

/// What a table is made with: the number of passes, and the state at the start.
#[derive(Drop)]
pub struct Brief<S> {
    pub passes: u32,
    pub start: Snapshot<S>,
}

pub struct Rule;

impl<S: Chronicle> TableRule<Option<S>, View<S::Entry, S::Charter>, Brief<S>> for Rule {
    ghost use Rattle.std.specs.Prelude.{Some};
    ghost use Rattle.ras_turn.specs.Rule.{IsTurned, dealer};

    ghost holds = { λ brief. IsTurned S.entries S.charter brief.passes (S.charter brief.start.value) };

    ghost first = { λ brief. dealer 0 (Some (S.charter brief.start.value)) };
}

/// A pass is given out: a seat with the next number, which has seen nothing.
pub struct Deal;

impl<E, C> Split<View<E, C>> for Deal {
    ghost use Rattle.std.specs.Prelude.{◌+◌, []};
    ghost use Rattle.ras_turn.specs.Rule.{dealer, idle};

    ghost left = { λ v. dealer (v.number + 1) v.charter };

    ghost right = { λ v. idle v.number [] [] v.charter };
}

/// The turn is taken where it is free.
pub struct Take;

impl<S: Chronicle> Play<Option<S>, View<S::Entry, S::Charter>> for Take {
    ghost use Rattle.ras_turn.specs.Rule.{TakesTurn};

    ghost then = { λ _. TakesTurn S.entries S.charter };
}

/// The length of the list is read by who holds the turn.
pub struct FindLength;

impl<S, E, C> Play<S, View<E, C>> for FindLength {
    ghost use Rattle.ras_turn.specs.Rule.{FindsLength};

    ghost then = { λ _. FindsLength };
}

/// The entries of the state at hand enter the list of all.
pub struct Add;

impl<S: Chronicle> Play<Option<S>, View<S::Entry, S::Charter>> for Add {
    ghost use Rattle.ras_turn.specs.Rule.{Adds};

    ghost then = { λ _ before _ after. Adds S.entries before after };
}

/// The turn is let go, with the state in its slot.
pub struct Release;

impl<S, E, C> Play<S, View<E, C>> for Release {
    ghost use Rattle.ras_turn.specs.Rule.{Releases};

    ghost then = { λ _ before _ after. Releases before after };
}

/// The seat that takes the passes in comes to the table.
pub struct Collect;

impl<S, E, C> Play<S, View<E, C>> for Collect {
    ghost use Rattle.std.specs.Prelude.{◌≡◌, []};
    ghost use Rattle.ras_turn.specs.Rule.{collector};

    ghost then = { λ _ _ _ after. after.0 ≡ collector [] };
}

/// A pass is taken in.
pub struct Gather;

impl<E, C> Join<View<E, C>> for Gather {
    ghost use Rattle.std.specs.Prelude.{◌∷◌};
    ghost use Rattle.ras_turn.specs.Rule.{collector, known, spent};

    ghost both = { λ v w. collector (known w ∷ v.joined) };

    ghost spent = { spent };
}
