//! The query language: what is a statement, of which tree, and which fault a text has.
#![tactic(auto)]

pub mod laws;
pub mod worked_texts;
