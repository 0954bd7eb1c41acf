//! From what reading the tokens at a text's front gave to the verdict on the text.
ghost use Rattle.std.specs.Prelude.{◌≡◌, ◌<◌, ◌^◌, length};
ghost use Rattle.ras_parse.specs.Told.{told_whole, told_cut, told_by};

use crate::reading::Behind;
use ras_syntax::{Statement, StatementForm, SyntaxFault};

/// What the tokens at a text's front are.
#[derive(Drop)]
pub enum Outcome {
    /// A statement of this form.
    Whole(StatementForm),
    /// The beginning of a statement, and none.
    Cut,
    /// The token at this place is the first with which no statement begins.
    Wrong { place: u32 },
}

/// What is told where all tokens are right and a statement.
fn told_whole(text: &[u8], behind: Behind, form: StatementForm) -> Result<Statement, SyntaxFault>
    requires { length text.now < 2 ^ 32 }
    ensures { result ≡ told_whole text.now behind form }
{
    match behind {
        Behind::End => Ok(Statement {
            form,
            length: text.len() as u32,
        }),
        Behind::Fault(fault) => Err(fault),
        Behind::TooHeavy { place } => Err(SyntaxFault::TooDeep { place }),
    }
}

/// What is told where all tokens are right, and more have to follow.
fn told_cut(text: &[u8], behind: Behind) -> SyntaxFault
    requires { length text.now < 2 ^ 32 }
    ensures { told_cut text.now behind ≡ Err result }
{
    match behind {
        Behind::End => SyntaxFault::Unexpected {
            place: text.len() as u32,
        },
        Behind::Fault(fault) => fault,
        Behind::TooHeavy { place } => SyntaxFault::TooDeep { place },
    }
}

/// The verdict on a text, of what the tokens at its front are and what stands behind them.
pub fn told(text: &[u8], behind: Behind, outcome: Outcome) -> Result<Statement, SyntaxFault>
    requires { length text.now < 2 ^ 32 }
    ensures { result ≡ told_by text.now behind outcome }
{
    match outcome {
        Outcome::Whole(form) => told_whole(text, behind, form),
        Outcome::Cut => Err(told_cut(text, behind)),
        Outcome::Wrong { place } => Err(SyntaxFault::Unexpected { place }),
    }
}
