//! Laws of shapes: what the shape of an expression says of the expression's parts, and what shapes there are.
#![tactic(auto)]

pub mod laws;
