//! Tests of the shape of expressions through public calls alone: texts that are parsed and checked, and then looked at over
//! the domains of arrays. They stand in a crate of their own, since a crate's own tests have all of it proved once more.
#![tactic(auto)]

#[cfg(test)]
mod faults;
#[cfg(test)]
mod first_faults;
#[cfg(test)]
mod stands;
#[cfg(test)]
mod told;
