//! Laws of forms: what the kind and the shape of an expression say of its parts.
#![tactic(auto)]

pub mod laws;
