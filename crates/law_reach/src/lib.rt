//! The law of reach: an expression's cells depend on nothing but the stored numbers that it is said to reach.
#![tactic(auto)]

pub mod laws;
