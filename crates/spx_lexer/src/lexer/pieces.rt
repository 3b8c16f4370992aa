// What stands at a place of a text: a lexeme, or a piece of a gap.
ghost use Rattle.std.specs.Prelude.{◌≡◌, ◌≤◌, ◌+◌, length, IfOk};
ghost use Rattle.spx_lexer.specs.Pieces as spec;

use crate::lexer::delimiters::delimiter_at;
use crate::lexer::numbers::{as_integer, number_in, spoils_number};
use crate::lexer::words::{kind_of_word, word_rest_len};
use spx_tree::Kind;

/// What a piece of a text is.
#[derive(Clone, Copy, PartialEq, Eq)]
pub(super) enum What {
    LineEnd,
    Separator,
    Comment,
    /// `--#`, which begins annotation text.
    Head,
    /// Its kind, and the value of a number, or 0.
    Lexeme(Kind, i128),
}

#[derive(Clone, Copy, PartialEq, Eq)]
pub(super) struct Piece {
    pub what: What,
    /// How many bytes it has.
    pub len: usize,
}

/// Why nothing stands at a place.
#[derive(Clone, Copy, PartialEq, Eq)]
pub(super) enum Cause {
    BadByte,
    BadNumber,
    TooWide,
}

// How many bytes stand before the end of the line.
fn line_len(bytes: &[u8]) -> usize
    ensures value { result ≡ spec.line_len bytes.now }
    ensures within { result ≤ length bytes.now }
{
    let mut rest = bytes;
    while let [b, after @ ..] = rest {
        if *b == b'\n' {
            break;
        }
        rest = after;
    }
    bytes.len() - rest.len()
}

// What two hyphens begin, which this text follows.
fn comment_at(marked: bool, text: &[u8]) -> Piece
    ensures value { result ≡ spec.comment_at marked text.now }
    ensures within { (1 ≤ result.len) × (result.len ≤ length text.now + 2) }
{
    match text {
        [b'#', ..] if !marked => Piece {
            what: What::Head,
            len: 3,
        },
        _ => Piece {
            what: What::Comment,
            len: line_len(text) + 2,
        },
    }
}

fn word_at(marked: bool, bytes: &[u8], len: usize) -> Piece
    requires { len ≤ length bytes.now }
    ensures value { result ≡ spec.word_at marked bytes.now len }
    ensures within { result.len ≡ len }
{
    let kind = kind_of_word(marked, &bytes[..len]);
    Piece {
        what: What::Lexeme(kind, 0),
        len,
    }
}

#[tactic(auto, unfolding(crate::specs::Pieces::number_at))]
fn number_at(bytes: &[u8]) -> Result<Piece, Cause>
    ensures value { result ≡ spec.number_at bytes.now }
    ensures within { IfOk result (λ piece. (piece.len ≡ (spec.number_in bytes.now).len) × (piece.len ≤ length bytes.now)) }
{
    let number = number_in(bytes);
    let (_, rest) = bytes.split_at(number.len);
    if spoils_number(rest) {
        return Err(Cause::BadNumber);
    }
    match as_integer(number.value) {
        Some(value) => Ok(Piece {
            what: What::Lexeme(Kind::Number, value),
            len: number.len,
        }),
        None => Err(Cause::TooWide),
    }
}

fn mark_at(marked: bool, first: u8, rest: &[u8]) -> Result<Piece, Cause>
    ensures value { result ≡ spec.mark_by (spec.delimiter_at marked first rest.now) }
    ensures within { IfOk result (λ piece. (1 ≤ piece.len) × (piece.len ≤ length rest.now + 1)) }
{
    match delimiter_at(marked, first, rest) {
        Some((kind, len)) => Ok(Piece {
            what: What::Lexeme(kind, 0),
            len,
        }),
        None => Err(Cause::BadByte),
    }
}

#[tactic(auto, unfolding(crate::specs::Pieces::lexeme_at))]
fn lexeme_at(marked: bool, bytes: &[u8]) -> Result<Piece, Cause>
    ensures value { result ≡ spec.lexeme_in marked bytes.now }
    ensures within { IfOk result (λ piece. (1 ≤ piece.len) × (piece.len ≤ length bytes.now)) }
{
    let [first, rest @ ..] = bytes else {
        return Err(Cause::BadByte);
    };
    if first.is_ascii_alphabetic() {
        Ok(word_at(marked, bytes, word_rest_len(rest) + 1))
    } else if first.is_ascii_digit() {
        number_at(bytes)
    } else {
        mark_at(marked, *first, rest)
    }
}

/// What stands before a text, of which the rest of a line may be annotation text.
#[tactic(auto, unfolding(crate::specs::Pieces::piece_at))]
pub(super) fn piece_at(marked: bool, bytes: &[u8]) -> Result<Piece, Cause>
    ensures value { result ≡ spec.piece_at marked bytes.now }
    ensures within { IfOk result (λ piece. (1 ≤ piece.len) × (piece.len ≤ length bytes.now)) }
{
    match bytes {
        [b'\n', ..] => Ok(Piece {
            what: What::LineEnd,
            len: 1,
        }),
        [b' ' | b'\t' | 11 | 12 | b'\r', ..] => Ok(Piece {
            what: What::Separator,
            len: 1,
        }),
        [b'-', b'-', text @ ..] => Ok(comment_at(marked, text)),
        _ => lexeme_at(marked, bytes),
    }
}
