//! What expressions mean. `specs/` has the definitions: the check of an expression, its shape, its
//! cell at each point, and the boxes that it reads. The modules have worked rows, which show what
//! the definitions give.
#![tactic(auto)]

pub mod worked_expressions;
pub mod worked_kinds;
pub mod worked_reach;
