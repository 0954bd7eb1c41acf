//! Tests of `ras_rows` through its public calls alone. They stand in a crate of their own, since a crate's own
//! tests have all of it proved once more.
#![tactic(auto)]

#[cfg(test)]
mod plans;
#[cfg(test)]
mod rows;
