//! Lemmas on lists, orders and finite maps that the library lacks, and that several crates cite.
//! There is no code: `proofs/` has the lemmas.
#![tactic(auto)]
