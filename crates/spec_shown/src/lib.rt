//! What holdings show of the arrays of a statement's rows. `specs/` has the definitions; there is no code.
#![tactic(auto)]
