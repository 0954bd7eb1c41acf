//! Views: what a transaction holds of a database, what its statements write, and how its own work
//! lies over the committed database. `specs/` has the definitions; there is no code.
#![tactic(auto)]
