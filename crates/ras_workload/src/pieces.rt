//! Statements and type lines, between the semicolons of a section's body.
ghost use Rattle.std.specs.Prelude.{◌≡◌, ◌∷◌, ◌+◌, ◌<◌, ◌^◌, [], length, MatchOption};
ghost use Rattle.spec_workloads.specs.Sections as spec;
ghost use Rattle.ras_workload.specs.Pieces.{pieces_on};
ghost use Rattle.ras_workload.specs.PieceViews.{piece_seen};

use crate::lines::{line_feeds, part_len};
use crate::piece::Piece;
use ras_parse::bytes::space_len;
use std::marker::Model;

/// What is left of a section's body.
#[derive(Drop)]
pub struct Pieces<'t> {
    body: &'t [u8],
    at: usize,
    /// The line of the place.
    line: u64,
}

impl<'t> Model for Pieces<'t> {
    ghost use Rattle.spec_workloads.specs.Sections as spec;

    ghost Value = { spec.Pieces };

    ghost use Rattle.ras_workload.specs.PieceViews.{pieces_in, ArePieces};

    ghost view = { pieces_in };

    ghost invariant = { ArePieces };
}

/// The piece in a part that begins on this line.
fn piece_of<'t>(line: u64, part: &'t [u8]) -> Piece<'t>
    requires few { line + length part.now < 2 ^ 34 }
    requires short { length part.now < 2 ^ 32 }
    ensures { piece_seen result ≡ spec.piece_of line part.now }
{
    let skipped = space_len(part);
    Piece {
        line: line + line_feeds(&part[..skipped]),
        text: &part[skipped..],
    }
}

impl<'t> Pieces<'t> {
    /// The pieces of a body that begins on this line.
    pub fn new(line: u64, body: &'t [u8]) -> Pieces<'t>
        requires few { line + length body.now < 2 ^ 34 }
        requires short { length body.now < 2 ^ 32 }
        ensures { result ≡ pieces_on line body.now }
    {
        Pieces { body, at: 0, line }
    }

    /// The next piece that ends with a semicolon.
    pub fn next(&mut self) -> Option<Piece<'t>>
        ensures closed { MatchOption result ((self.old.closed ≡ []) × (self.new.closed ≡ []))
            (λ piece. self.old.closed ≡ piece_seen piece ∷ self.new.closed) }
        ensures rest { self.new.rest ≡ self.old.rest }
    {
        let end = self.at + part_len(&self.body[self.at..]);
        if end >= self.body.len() {
            return None;
        }
        let part = &self.body[self.at..end];
        let piece = piece_of(self.line, part);
        self.line += line_feeds(part);
        self.at = end + 1;
        Some(piece)
    }

    /// What stands behind the last semicolon.
    pub fn last(&self) -> Piece<'t>
        requires { self.now.closed ≡ [] }
        ensures { piece_seen result ≡ self.now.rest }
    {
        piece_of(self.line, &self.body[self.at..])
    }
}
