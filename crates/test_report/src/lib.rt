//! Tests of `ras_report` through its public calls alone.
#![tactic(auto)]

#[cfg(test)]
mod cases;
#[cfg(test)]
mod faults;
#[cfg(test)]
mod made;
#[cfg(test)]
mod once;
#[cfg(test)]
mod reports;
