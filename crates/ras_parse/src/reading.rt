ghost use Rattle.std.specs.Prelude.{◌≡◌, ◌<◌, ◌^◌, length, IfOk, IfErr, None, All};
ghost use Rattle.spec_grammar.specs.Tokens.{lexed};
ghost use Rattle.ras_parse.specs.Seen.{tokens_in, StandsIn};
ghost use Rattle.ras_parse.specs.Reading.{IsOwnFault, IsFront};

use crate::fault::ParseFault;
use crate::lexer::next_token;
use crate::token::{Next, Token};
use ras_syntax::SyntaxFault;
use std::alloc::{AllocError, Global};

/// The most that a statement's tokens may weigh.
const MAX_WEIGHT: u32 = ras_syntax::MAX_WEIGHT as u32;

/// The tokens of a text of fewer than 2^32 bytes. An error is the first fault of a token's own, or
/// want of memory.
pub fn tokens(alloc: Global, text: &[u8]) -> Result<Vec<Token>, ParseFault>
    requires { length text.now < 2 ^ 32 }
    ensures tokens { IfOk result (λ tokens. lexed text.now ≡ record { tokens = tokens_in text.now tokens.items; fault = None }) }
    ensures within { IfOk result (λ tokens. All (StandsIn text.now) tokens.items) }
    // Where there is a fault of a token's own, there are no tokens, and no fault but this one.
    ensures fault { IfErr result (IsOwnFault text.now) }
{
    let mut tokens = Vec::new(alloc);
    let mut next = next_token(text, 0);
    while let Next::Token(token) = next {
        tokens.push(token)?;
        next = next_token(text, token.span.to as usize);
    }
    match next {
        Next::Fault(fault) => Err(ParseFault::Fault(fault)),
        _ => Ok(tokens),
    }
}

/// What stands behind the tokens at a text's front.
#[derive(Clone, Copy, Debug, PartialEq, Eq)]
pub enum Behind {
    /// The text's end.
    End,
    /// A fault of a token's own.
    Fault(SyntaxFault),
    /// Anything: with the last of the tokens, which stands at this place, they weigh too much.
    TooHeavy { place: u32 },
}

/// The tokens at a text's front, up to and with the first with which they weigh too much.
#[derive(Drop)]
pub struct Front {
    pub tokens: Vec<Token>,
    pub behind: Behind,
}

/// The tokens of a text of fewer than 2^32 bytes, up to and with the first with which they weigh
/// more than `MAX_WEIGHT`, or up to the first fault of a token's own.
pub fn front_of(alloc: Global, text: &[u8]) -> Result<Front, AllocError>
    requires { length text.now < 2 ^ 32 }
    ensures front { IfOk result (λ front. IsFront text.now (tokens_in text.now front.tokens.items) front.behind) }
    ensures within { IfOk result (λ front. All (StandsIn text.now) front.tokens.items) }
{
    let mut tokens = Vec::new(alloc);
    let mut weight = 0u32;
    let mut next = next_token(text, 0);
    while let Next::Token(token) = next {
        tokens.push(token)?;
        weight += token.weight(text);
        if MAX_WEIGHT < weight {
            let place = token.span.from;
            return Ok(Front {
                tokens,
                behind: Behind::TooHeavy { place },
            });
        }
        next = next_token(text, token.span.to as usize);
    }
    let behind = match next {
        Next::Fault(fault) => Behind::Fault(fault),
        _ => Behind::End,
    };
    Ok(Front { tokens, behind })
}
