//! The laws. `specs/` of the crate of statements has the words that they use. Both say that two databases
//! that agree on what a statement locks cannot be told apart by it.
ghost use Rattle.spec_statements.specs.ReachLaw.{LawOfAnswers, LawOfNeeds};

/// Two databases that agree on what a statement asks locks for in its earlier phases cannot be told apart
/// by its next phase: it asks for the same locks over both.
pub fn agreement_fixes_the_lists()
    ensures { LawOfNeeds }
{}

/// Two databases that agree on what a statement locks, in all of its four phases, cannot be told apart by
/// it: it has the same answer over both, and leaves databases that agree again.
pub fn agreement_fixes_the_answer()
    ensures { LawOfAnswers }
{}
