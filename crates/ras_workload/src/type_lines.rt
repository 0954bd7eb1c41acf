//! The type of a type line.
ghost use Rattle.std.specs.Prelude.{◌≡◌, ◌<◌, ◌^◌, length, All, IfOk, Ok};
ghost use Rattle.spec_workloads.specs.TypeLines.{type_of_line, type_read, if_whole};
ghost use Rattle.ras_parse.specs.Inputs.{left};
ghost use Rattle.ras_parse.specs.Seen.{tokens_in, StandsIn};
ghost use Rattle.ras_workload.specs.Texts.{declared_behind};

use crate::drafts::Draft;
use crate::type_parts::draft;
use ras_parse::cursor::Cursor;
use ras_parse::stop::Stop;
use ras_parse::{ParseFault, Token, tokens};
use ras_syntax::{SetType, Types};
use std::alloc::{AllocError, Global};

/// What was read, if nothing is left.
fn if_whole(cursor: &Cursor<'_>, draft: Draft) -> Option<Draft>
    ensures { result ≡ if_whole (Ok (draft, left cursor.now)) }
{
    match cursor.peek() {
        None => Some(draft),
        Some(_) => None,
    }
}

/// The type that these tokens of a line tell, if they are a type line.
fn draft_in(alloc: Global, line: &[u8], tokens: &[Token]) -> Result<Option<Draft>, AllocError>
    requires { All (StandsIn line.now) tokens.now }
    ensures { IfOk result (λ found. found ≡ if_whole (type_read (tokens_in line.now tokens.now))) }
{
    let mut cursor = Cursor::new(line, tokens);
    match draft(alloc, &mut cursor) {
        Ok(draft) => Ok(if_whole(&cursor, draft)),
        Err(Stop::Unexpected) => Ok(None),
        Err(Stop::Memory) => Err(AllocError),
    }
}

/// The type that a line tells, if it has the form of a type line.
fn draft_of(alloc: Global, line: &[u8]) -> Result<Option<Draft>, AllocError>
    requires { length line.now < 2 ^ 32 }
    ensures { IfOk result (λ found. found ≡ type_of_line line.now) }
{
    match tokens(alloc, line) {
        Ok(tokens) => draft_in(alloc, line, &tokens),
        Err(ParseFault::Fault(_)) => Ok(None),
        Err(ParseFault::Memory) => Err(AllocError),
    }
}

/// The type that a line declares, if it has the form of a type line and its type may be declared
/// behind the earlier ones. The error is want of memory.
pub fn read_type_line(
    alloc: Global,
    earlier: &Types,
    line: &[u8],
) -> Result<Option<SetType>, AllocError>
    requires { length line.now < 2 ^ 32 }
    ensures { IfOk result (λ found. found ≡ declared_behind earlier.now (type_of_line line.now)) }
{
    match draft_of(alloc, line)? {
        Some(draft) => draft.declared(alloc, earlier),
        None => Ok(None),
    }
}
