//! The statement that a text of a setup is.
ghost use Rattle.std.specs.Prelude.{◌≡◌, ◌<◌, ◌^◌, length};
ghost use Rattle.ras_setup.specs.Runs.{ReadsText, is_word, stop_of_parse};

use crate::fault::{SetupFault, Stop};
use ras_parse::{ParseFault, parse_statement};
use ras_syntax::{Statement, StatementForm};
use std::alloc::Global;

/// Whether a statement is a session word.
fn is_word(statement: &Statement) -> bool
    ensures { result ≡ is_word statement.now.form }
{
    matches!(&statement.form, StatementForm::Word(_))
}

/// Why the statement of a text that wasn't read isn't run.
fn stop_of(fault: ParseFault) -> Stop
    ensures { result ≡ stop_of_parse fault }
{
    match fault {
        ParseFault::Fault(fault) => Stop::Fault(SetupFault::Syntax(fault)),
        ParseFault::Memory => Stop::Memory,
    }
}

/// The statement that a text of fewer than 2^32 bytes is. A session word is none of a setup.
pub(crate) fn statement_of(alloc: Global, text: &[u8]) -> Result<Statement, Stop>
    requires { length text.now < 2 ^ 32 }
    ensures { ReadsText text.now result }
{
    match parse_statement(alloc, text) {
        Ok(statement) => {
            if is_word(&statement) {
                drop(statement);
                return Err(Stop::Fault(SetupFault::Word));
            }
            Ok(statement)
        }
        Err(fault) => Err(stop_of(fault)),
    }
}
