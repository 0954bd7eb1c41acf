/// Where a thread passes a gate. Sessions, statements and pieces of work are counted from 1.
#[derive(Clone, Copy, Debug, PartialEq, Eq)]
pub enum GatePlace {
    /// Before a statement is evaluated.
    Evaluate { session: u32, statement: u32 },
    /// After a statement's answer is recorded.
    Answered { session: u32, statement: u32 },
    /// Before a piece of work.
    PieceStart { piece: u32 },
    /// After a piece of work.
    PieceDone { piece: u32 },
}

/// What threads pass at the places of [`GatePlace`], so that a test can hold them there. It has no
/// meaning: no contract depends on what a gate does.
pub trait Gate: Sync {
    fn pass(&self, place: GatePlace);
}

/// A gate that holds nobody.
#[derive(Clone, Copy, Debug)]
pub struct OpenGate;

impl Gate for OpenGate {
    fn pass(&self, _place: GatePlace) {}
}
