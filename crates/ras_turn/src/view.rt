//! What each seat of the table knows. No value of these types is made but in proofs.
use std::collections::LinkedList;

/// What a seat is there for.
pub enum Stage {
    /// Gives out the passes.
    Dealer,
    /// A pass outside the turn.
    Idle,
    /// A pass that holds the turn.
    Holding,
    /// Takes the passes in at the end.
    Collector,
    /// A pass that was taken in.
    Spent,
}

/// What a pass knew when it was taken in.
pub struct Known<E> {
    pub number: u32,
    pub seen: LinkedList<(u32, E)>,
    pub own: LinkedList<(u32, E)>,
}

/// The number of a pass, the list that it has seen, its own entries, and the charter.
pub struct View<E, C> {
    pub stage: Stage,
    pub number: u32,
    pub seen: LinkedList<(u32, E)>,
    pub own: LinkedList<(u32, E)>,
    pub charter: Option<C>,
    pub joined: LinkedList<Known<E>>,
}
