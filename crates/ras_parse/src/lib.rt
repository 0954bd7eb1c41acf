//! Reads the text of a statement.
#![tactic(auto)]

pub mod bytes;
pub mod cursor;
mod domains;
mod fault;
mod forms;
mod grammar;
pub mod laws;
pub mod lexer;
pub mod lists;
mod operators;
mod parts;
mod primary;
pub mod reading;
mod session;
mod statement;
pub mod stop;
pub mod tables;
pub mod token;
mod verdict;
mod whole;

pub use fault::ParseFault;
pub use reading::tokens;
pub use session::session_word;
pub use statement::parse_statement;
pub use token::{Token, TokenKind};
