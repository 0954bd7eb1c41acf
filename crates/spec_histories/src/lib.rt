//! Histories of transactions: which lists of events are legal, and which are serializable in the
//! order of their commits. `specs/` has the definitions, and the module a worked history.
#![tactic(auto)]

pub mod worked_events;
