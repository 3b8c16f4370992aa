// Positions in a text.
ghost use Rattle.std.specs.Prelude.{◌≡◌, ◌≤◌, ◌<◌, ◌+◌, ◌-◌, ◌^◌, max};
ghost use Rattle.spx_lexer.specs.Positions as spec;

use crate::lexer::pieces::{Piece, What};
use spx_text::Place;

/// A place of a text, and whether annotation text stands there.
#[derive(Clone, Copy, PartialEq, Eq)]
pub(super) struct Position {
    /// Its bytes from the first one of the text.
    pub offset: usize,
    pub place: Place,
    pub marked: bool,
}

fn place_after(what: What, place: Place, len: usize) -> Place
    requires line { place.line < 2 ^ 32 - 1 }
    requires column { place.column + len < 2 ^ 32 }
    ensures value { result ≡ spec.place_after what place len }
    ensures line { result.line ≤ place.line + 1 }
    ensures column { result.column ≤ max 1 (place.column + len) }
{
    match what {
        What::LineEnd => Place {
            file: place.file,
            line: place.line + 1,
            column: 1,
        },
        _ => Place {
            file: place.file,
            line: place.line,
            column: place.column + len as u32,
        },
    }
}

fn marked_after(what: What, marked: bool) -> bool
    ensures { result ≡ spec.marked_after what marked }
{
    match what {
        What::LineEnd => false,
        What::Head => true,
        _ => marked,
    }
}

// The position after a piece.
pub(super) fn after(at: Position, piece: Piece) -> Position
    requires offset { at.offset + piece.len < 2 ^ 64 }
    requires line { at.place.line < 2 ^ 32 - 1 }
    requires column { at.place.column + piece.len < 2 ^ 32 }
    ensures value { result ≡ spec.after at piece }
    ensures offset { result.offset ≡ at.offset + piece.len }
    ensures line { result.place.line ≤ at.place.line + 1 }
    ensures column { result.place.column ≤ max 1 (at.place.column + piece.len) }
{
    Position {
        offset: at.offset + piece.len,
        place: place_after(piece.what, at.place, piece.len),
        marked: marked_after(piece.what, at.marked),
    }
}
