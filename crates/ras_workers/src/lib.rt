//! Pieces of work that are shared out among threads, with their answers in the pieces' order.
#![tactic(auto)]

mod pieces;
#[cfg(test)]
mod tests;

pub use pieces::map_pieces;
