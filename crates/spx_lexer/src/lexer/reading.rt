// The tokens of a text up to where it ends or is stopped.
ghost use Rattle.std.specs.Prelude.{◌≡◌, ◌≤◌, ◌<◌, ◌+◌, ◌++◌, ◌^◌, nat_lt, length, OnOk, IfOk, IfErr};
ghost use Rattle.spx_text.specs.Limits.{most_bytes};
ghost use Rattle.spx_tree.specs.Stops.{HasMoreTokens, most_tokens};
ghost use Rattle.spx_lexer.specs.Faults.{IsLimitOf};
ghost use Rattle.spx_lexer.specs.Positions as spec;
ghost use Rattle.spx_lexer.specs.Reading.{HasRead, IsEnd};

use crate::lexer::pieces::{Cause, Piece, What, piece_at};
use crate::lexer::positions::{Position, after};
use crate::lexer::{LexFault, MOST_TOKENS};
use spx_text::Place;
use spx_tree::Token;
use std::alloc::{AllocError, Global};

/// What was read of a text.
#[derive(Drop)]
pub(super) struct Reading<'a> {
    pub list: Vec<Token>,
    /// Where the text ends or is stopped.
    pub at: Position,
    /// The text from there on.
    pub rest: &'a [u8],
    /// Why the text is stopped there, if it does not end.
    pub stop: Option<Cause>,
}

// Whether a piece is a token, and one too many after `count` others.
fn is_too_many(count: usize, piece: Piece) -> bool
    requires { count ≤ most_tokens }
    ensures { result ≡ nat_lt most_tokens (count + spec.count_of piece.what) }
{
    match piece.what {
        What::Lexeme(..) => count >= MOST_TOKENS,
        _ => false,
    }
}

// Adds the token that a piece is, if it is one.
fn add(tokens: &mut Vec<Token>, at: Position, piece: Piece) -> Result<(), AllocError>
    requires { at.offset + piece.len < 2 ^ 64 }
    ensures { OnOk result (tokens.new.items ≡ tokens.old.items ++ spec.tokens_at at piece) }
{
    match piece.what {
        What::Lexeme(kind, number) => {
            tokens.push(Token {
                kind,
                number,
                first: at.offset,
                after: at.offset + piece.len,
                place: at.place,
                marked: at.marked,
            })?;
            Ok(())
        }
        _ => Ok(()),
    }
}

/// The tokens of the text of a file up to where it ends or is stopped.
pub(super) fn read_tokens(alloc: Global, file: u32, source: &[u8]) -> Result<Reading<'_>, LexFault>
    requires { length source.now ≤ most_bytes }
    ensures read { IfOk result (λ reading. HasRead file source.now reading.list.items reading.at reading.rest.now) }
    ensures end { IfOk result (λ reading. IsEnd reading.stop reading.at.marked reading.rest.now) }
    ensures few { IfOk result (λ _. ¬ HasMoreTokens most_tokens file source.now) }
    ensures refused { IfErr result (IsLimitOf file source.now) }
{
    let mut list = Vec::with_capacity(alloc, source.len().min(MOST_TOKENS))?;
    let mut at = Position {
        offset: 0,
        place: Place {
            file,
            line: 1,
            column: 1,
        },
        marked: false,
    };
    let mut rest = source;
    while let [_, ..] = rest {
        let piece = match piece_at(at.marked, rest) {
            Ok(piece) => piece,
            Err(cause) => {
                return Ok(Reading {
                    list,
                    at,
                    rest,
                    stop: Some(cause),
                });
            }
        };
        if is_too_many(list.len(), piece) {
            return Err(LexFault::TooMany);
        }
        add(&mut list, at, piece)?;
        at = after(at, piece);
        let (_, following) = rest.split_at(piece.len);
        rest = following;
    }
    Ok(Reading {
        list,
        at,
        rest,
        stop: None,
    })
}
