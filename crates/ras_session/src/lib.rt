//! Sessions: what each asks of the core, and what is served.
#![tactic(auto)]

mod asking;
pub mod laws;
mod reading;
mod replies;
mod request;
mod serving;
mod session;
mod steps;

pub use request::{CoreReply, Request};
pub use serving::serve;
pub use session::Session;
