//! Reading tokens: the functions that a parser computes, and that they read the grammar, all of it and nothing else.
#![tactic(auto)]

pub mod laws;
