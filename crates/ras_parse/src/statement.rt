//! A text, whole.
ghost use Rattle.std.specs.Prelude.{◌≡◌, ◌<◌, ◌^◌, length, IfOk, IfErr, All, List, Result, Ok};
ghost use Rattle.ras_syntax.specs.declared.faults.SyntaxFault.{SyntaxFault};
ghost use Rattle.ras_syntax.specs.declared.statement.Statement.{Statement};
ghost use Rattle.spec_grammar.specs.Verdict.{IsVerdict};
ghost use Rattle.law_grammar.specs.Reading.{form_read, reads};
ghost use Rattle.spec_grammar.specs.Tokens.{Token as TokenSeen};
ghost use Rattle.ras_parse.specs.Inputs.{first_place};
ghost use Rattle.ras_parse.specs.Seen.{tokens_in, StandsIn};
ghost use Rattle.ras_parse.specs.Told.{form_before, wrong_from, outcome_read, IsToldFault, IsTold};

use crate::cursor::Cursor;
use crate::fault::ParseFault;
use crate::forms::{DEPTH, form};
use crate::reading::front_of;
use crate::stop::Stop;
use crate::token::Token;
use crate::verdict::{Outcome, told};
use ras_syntax::{Statement, StatementForm};
use std::alloc::{AllocError, Global};

/// What is read where a form was read and the next token begins at this place.
fn before(place: Option<u32>, form: StatementForm) -> Outcome
    ensures { (rest : List TokenSeen) → place ≡ first_place rest → result ≡ form_before form rest }
{
    match place {
        None => Outcome::Whole(form),
        Some(place) => Outcome::Wrong { place },
    }
}

/// What is read where the next token, which begins at this place, is wrong.
fn wrong(place: Option<u32>) -> Outcome
    ensures { (rest : List TokenSeen) → place ≡ first_place rest → result ≡ wrong_from rest }
{
    match place {
        None => Outcome::Cut,
        Some(place) => Outcome::Wrong { place },
    }
}

/// What the tokens at a text's front are.
fn outcome(alloc: Global, text: &[u8], tokens: &[Token]) -> Result<Outcome, AllocError>
    requires { All (StandsIn text.now) tokens.now }
    ensures { IfOk result (λ outcome. outcome ≡ outcome_read (form_read (reads DEPTH) (tokens_in text.now tokens.now))) }
{
    let mut cursor = Cursor::new(text, tokens);
    match form(alloc, &mut cursor) {
        Ok(form) => Ok(before(cursor.place(), form)),
        Err(Stop::Unexpected) => Ok(wrong(cursor.place())),
        Err(Stop::Memory) => Err(AllocError),
    }
}

/// The statement that a text of fewer than 2^32 bytes is, or its fault: the first that it has. The
/// error is that fault, or want of memory.
pub fn parse_statement(alloc: Global, text: &[u8]) -> Result<Statement, ParseFault>
    requires { length text.now < 2 ^ 32 }
    ensures tree { IfOk result (λ statement. IsVerdict text.now (Ok statement)) }
    ensures fault { IfErr result (IsToldFault text.now) }
    // So a text that is a statement is answered its tree, and any other its fault, unless memory is wanting.
    ensures only { (verdict : Result Statement SyntaxFault) → IsVerdict text.now verdict → IsTold verdict result }
{
    let front = front_of(alloc, text)?;
    let outcome = outcome(alloc, text, &front.tokens)?;
    match told(text, front.behind, outcome) {
        Ok(statement) => Ok(statement),
        Err(fault) => Err(ParseFault::Fault(fault)),
    }
}
