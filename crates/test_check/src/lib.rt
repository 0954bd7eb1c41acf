//! Tests of `ras_check` through public calls alone: texts that are parsed and then checked. They stand in a crate of
//! their own, since a crate's own tests have all of it proved once more.
#![tactic(auto)]

#[cfg(test)]
mod accepted;
#[cfg(test)]
mod told;
#[cfg(test)]
mod whole_way;
