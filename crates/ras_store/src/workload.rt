use crate::store::Store;
use ras_domain::List;
use ras_syntax::{Script, Types};

/// What is to be run: the types, the database at the start, and the sessions' scripts.
#[derive(Drop)]
pub struct Workload {
    pub types: Types,
    pub base: Store,
    pub scripts: List<Script>,
}
