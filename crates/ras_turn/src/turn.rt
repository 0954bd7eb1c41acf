ghost use Rattle.std.specs.Prelude.{◌≡◌, [], ◌∷◌, Some, IfOk, IfErr};

use crate::chronicle::Chronicle;
use crate::held::Held;
use crate::pass::Pass;
use crate::rule::{Add, Brief, Collect, Deal, FindLength, Gather, Release, Rule, Take};
use crate::view::View;
use atomic_table::{Refused, Seat, Table};
use std::alloc::Global;
use std::snapshot::Snapshot;
use std::sync::Wait;
use std::thread::Threads;

/// The word of the turn: 0 where it is free, else the number of the pass that holds it and one.
const TURN: usize = 0;

/// The word of the list's length.
const LENGTH: usize = 1;

/// The slot of the state.
const STATE: usize = 0;

/// The word of the turn where no pass holds it.
const FREE: u64 = 0;

/// A state that passes take one after another.
#[derive(Drop)]
pub struct Turn<S: Chronicle> {
    pub(crate) table: Table<Option<S>, View<S::Entry, S::Charter>, Brief<S>, Rule, Global>,
    ghost two_words: { table.shared.table_id.words ≡ 2 },
    ghost one_slot: { table.shared.table_id.slots ≡ 1 },
}

impl<S: Chronicle> Turn<S> {
    ghost use Rattle.std.specs.Prelude.{◌<◌, ◌≤◌, ℕ, length, map, None, All, vec_len};
    ghost use Rattle.std.specs.Vec.{vec_capacity};
    ghost use mathlib.Core.List.{IsPrefix};
    ghost use Rattle.ras_turn.specs.Entries.{made_by, Extends};
    ghost use Rattle.ras_turn.specs.Rule.{dealer, idle, holding, collector};
    ghost use Rattle.ras_turn.specs.Words.{turn_id, turn_passes, turn_start, pass_turn, pass_number, pass_charter, pass_seen, pass_own, known_of, AreNew, HasNumber, held_turn, held_number, held_charter, held_seen, held_own};

    /// A turn over a state with an empty list, and its passes, from number 0 to `n - 1`. Where
    /// memory is wanting, the state comes back.
    pub fn new(alloc: Global, state: S, n: u32) -> Result<(Turn<S>, Vec<Pass<S>>), S>
        requires some { 1 ≤ n }
        requires empty { S.entries state ≡ [] }
        ensures turn { IfOk result (λ r. (turn_passes r.0 ≡ n) × (turn_start r.0 ≡ state)) }
        ensures count { IfOk result (λ r. vec_len r.1 ≡ n) }
        ensures passes { IfOk result (λ r. AreNew (turn_id r.0) (S.charter state) r.1.items) }
        ensures err { IfErr result (λ s. s ≡ state) }
    {
        let Ok(passes) = Vec::with_capacity(alloc, n as usize) else {
            return Err(state);
        };
        let (turn, dealer) = Turn::lay(alloc, state, n)?;
        let passes = turn.deal(dealer, passes, n);
        Ok((turn, passes))
    }

    /// The turn with no pass, and the seat that gives out the passes.
    fn lay(
        alloc: Global,
        state: S,
        n: u32,
    ) -> Result<(Turn<S>, Seat<Option<S>, View<S::Entry, S::Charter>>), S>
        requires { S.entries state ≡ [] }
        ensures turn { IfOk result (λ r. (turn_passes r.0 ≡ n) × (turn_start r.0 ≡ state)) }
        ensures seat { IfOk result (λ r. (r.1.table_id ≡ turn_id r.0) × (r.1.me.0 ≡ dealer 0 (Some (S.charter state)))) }
        ensures err { IfErr result (λ s. s ≡ state) }
    {
        let brief = Brief {
            passes: n,
            start: Snapshot::of(&state),
        };
        let slots = one_slot(alloc, state)?;
        match Table::new(alloc, &[FREE, 0], slots, &brief) {
            Ok((table, seat)) => Ok((Turn { table }, seat)),
            Err(Refused { slots }) => Err(only_state(slots)),
        }
    }

    /// Gives out as many passes as are asked for.
    fn deal(
        &self,
        mut seat: Seat<Option<S>, View<S::Entry, S::Charter>>,
        mut passes: Vec<Pass<S>>,
        n: u32,
    ) -> Vec<Pass<S>>
        requires turn { seat.table_id ≡ turn_id self.now }
        requires view { seat.me.0 ≡ dealer 0 seat.me.0.charter }
        requires few { n ≤ turn_passes self.now }
        requires empty { passes.items ≡ [] }
        requires room { n ≤ vec_capacity passes }
        ensures count { vec_len result ≡ n }
        ensures each { (charter : S.Charter) → seat.me.0.charter ≡ Some charter → AreNew (turn_id self.now) charter result.items }
    {
        for number in 0..n {
            let dealt = self.table.shared.split_seat::<Deal>(&mut seat);
            passes.push_reserved(Pass::of(number, dealt));
        }
        passes
    }

    /// Ends the turn once all its passes are at hand. The state comes out, and has each pass's own
    /// entries, and no others of its number.
    pub fn close(self, passes: Vec<Pass<S>>) -> S
        requires turn { All (λ p. pass_turn p ≡ turn_id self) passes.items }
        requires numbers { (k : ℕ) → k < turn_passes self → HasNumber passes.items k }
        ensures charter { S.charter result ≡ S.charter (turn_start self) }
        ensures own { All (λ p. made_by (pass_number p) (S.entries result) ≡ pass_own p) passes.items }
        ensures seen { All (λ p. IsPrefix (pass_seen p) (S.entries result)) passes.items }
        ensures makers { (k : ℕ) → turn_passes self ≤ k → made_by k (S.entries result) ≡ [] }
    {
        let seat = self.gather(passes);
        let Turn { table } = self;
        let mut closed = table.close_with(seat);
        let home = closed.take(STATE);
        closed.free();
        home.unwrap()
    }

    /// Takes the passes in. The seat knows all that they knew.
    fn gather(&self, mut passes: Vec<Pass<S>>) -> Seat<Option<S>, View<S::Entry, S::Charter>>
        requires { All (λ p. pass_turn p ≡ turn_id self.now) passes.items }
        ensures turn { result.table_id ≡ turn_id self.now }
        ensures view { result.me.0 ≡ collector (map known_of passes.items) }
    {
        let (_, mut seat) = self.table.shared.load_new_seat::<Collect>(TURN);
        while let Some(pass) = passes.pop() {
            let (_, other) = pass.into_parts();
            self.table.shared.join_seat::<Gather>(&mut seat, other);
        }
        seat
    }

    /// Takes the turn, and waits while another pass holds it. The state comes with the turn.
    pub fn enter<R: Threads + Wait + Sync>(&self, rt: &R, pass: Pass<S>) -> (Held<'_, S>, S)
        requires { pass_turn pass ≡ turn_id self.now }
        ensures turn { held_turn result.0 ≡ pass_turn pass }
        ensures number { held_number result.0 ≡ pass_number pass }
        ensures list { held_seen result.0 ≡ S.entries result.1 }
        ensures kept { (held_charter result.0 ≡ pass_charter pass) × (held_own result.0 ≡ pass_own pass) }
        ensures charter { pass_charter pass ≡ Some (S.charter result.1) }
        ensures prefix { IsPrefix (pass_seen pass) (S.entries result.1) }
        ensures own { made_by (pass_number pass) (S.entries result.1) ≡ pass_own pass }
    {
        let (number, mut seat) = pass.into_parts();
        let holder = number as u64 + 1;
        for _ in rt.forever() {
            let found = self
                .table
                .shared
                .compare_exchange::<Take>(&mut seat, TURN, FREE, holder);
            if found == FREE {
                return self.take_out(number, seat);
            }
            self.table.shared.park(rt, TURN, (found % (1 << 32)) as u32);
        }
        unreachable!()
    }

    /// The state leaves its slot.
    fn take_out(
        &self,
        number: u32,
        mut seat: Seat<Option<S>, View<S::Entry, S::Charter>>,
    ) -> (Held<'_, S>, S)
        requires turn { seat.table_id ≡ turn_id self.now }
        requires view { seat.me.0 ≡ holding number seat.me.0.seen seat.me.0.own seat.me.0.charter }
        requires own { seat.me.0.own ≡ made_by number seat.me.0.seen }
        requires slot { (state : S) × (seat.me.1 ≡ (0, Some state) ∷ []) × (S.entries state ≡ seat.me.0.seen) }
        ensures turn { held_turn result.0 ≡ seat.table_id }
        ensures number { held_number result.0 ≡ number }
        ensures list { held_seen result.0 ≡ seat.me.0.seen }
        ensures kept { (held_charter result.0 ≡ seat.me.0.charter) × (held_own result.0 ≡ seat.me.0.own) }
        ensures slot { seat.me.1 ≡ (0, Some result.1) ∷ [] }
    {
        let found = self.table.shared.load::<FindLength>(&mut seat, LENGTH);
        let taken = self.table.shared.exchange(&mut seat, STATE, None);
        let held = Held {
            turn: self,
            number,
            found,
            seat,
        };
        (held, taken.unwrap())
    }

    /// The state comes home, and its new entries become part of the list of all.
    pub(crate) fn put_back(
        &self,
        mut seat: Seat<Option<S>, View<S::Entry, S::Charter>>,
        found: u64,
        state: S,
    ) -> Seat<Option<S>, View<S::Entry, S::Charter>>
        requires turn { seat.table_id ≡ turn_id self.now }
        requires view { seat.me.0 ≡ holding seat.me.0.number seat.me.0.seen seat.me.0.own seat.me.0.charter }
        requires own { seat.me.0.own ≡ made_by seat.me.0.number seat.me.0.seen }
        requires slot { seat.me.1 ≡ (0, None) ∷ [] }
        requires count { length seat.me.0.seen ≡ found }
        requires list { Extends seat.me.0.number seat.me.0.seen (S.entries state) }
        ensures turn { result.table_id ≡ seat.table_id }
        ensures view { result.me.0 ≡ holding seat.me.0.number (S.entries state) (made_by seat.me.0.number (S.entries state)) seat.me.0.charter }
        ensures slot { result.me.1 ≡ (0, Some state) ∷ [] }
    {
        let entries = state.len();
        let empty = self.table.shared.exchange(&mut seat, STATE, Some(state));
        let None = empty else { unreachable!() };
        if entries == found {
            return seat;
        }
        self.table.shared.store::<Add>(&mut seat, LENGTH, entries);
        seat
    }

    /// The turn is free again, and a pass that waits for it is woken.
    pub(crate) fn let_go(
        &self,
        mut seat: Seat<Option<S>, View<S::Entry, S::Charter>>,
    ) -> Seat<Option<S>, View<S::Entry, S::Charter>>
        requires turn { seat.table_id ≡ turn_id self.now }
        requires view { seat.me.0 ≡ holding seat.me.0.number seat.me.0.seen seat.me.0.own seat.me.0.charter }
        requires slot { (state : S) × (seat.me.1 ≡ (0, Some state) ∷ []) × (S.entries state ≡ seat.me.0.seen) × (seat.me.0.charter ≡ Some (S.charter state)) }
        ensures turn { result.table_id ≡ seat.table_id }
        ensures view { result.me.0 ≡ idle seat.me.0.number seat.me.0.seen seat.me.0.own seat.me.0.charter }
        ensures slot { result.me.1 ≡ [] }
    {
        self.table.shared.store::<Release>(&mut seat, TURN, FREE);
        self.table.shared.wake_one(TURN);
        seat
    }
}

/// The one slot, with the state in it. Where memory is wanting, the state comes back.
fn one_slot<S>(alloc: Global, state: S) -> Result<Vec<Option<S>>, S>
    ensures ok { IfOk result (λ v. v.items ≡ Some state ∷ []) }
    ensures err { IfErr result (λ s. s ≡ state) }
{
    let Ok(mut slots) = Vec::with_capacity(alloc, 1) else {
        return Err(state);
    };
    slots.push_reserved(Some(state));
    Ok(slots)
}

/// The state in the one slot.
fn only_state<S>(mut slots: Vec<Option<S>>) -> S
    requires { (state : S) × (slots.items ≡ Some state ∷ []) }
    ensures { slots.items ≡ Some result ∷ [] }
{
    let last = slots.pop().unwrap();
    slots.destroy_empty();
    last.unwrap()
}
