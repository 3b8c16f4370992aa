// From bytes to tokens.
ghost use Rattle.std.specs.Prelude.{◌≡◌, ◌⊎◌, ◌≤◌, List, [], length, IfOk, IfErr, IfSome, IsErrAnd, MatchBool, MatchOption, MatchResult};
ghost use Rattle.std.specs.List.{All};
ghost use Rattle.spx_text.specs.Limits.{most_bytes};
ghost use Rattle.spx_text.specs.declared.place.Place.{Place};
ghost use Rattle.spx_tree.specs.declared.token.Token.{Token};
ghost use Rattle.spx_tree.specs.Places.{place_after_bytes};
ghost use Rattle.spx_tree.specs.Spells.{Spells};
ghost use Rattle.spx_tree.specs.Mirror.{IsWithin};
ghost use Rattle.spx_tree.specs.Stops.{Cause as Reason, StopsAt};
ghost use Rattle.spx_lexer.specs.declared.lexer.LexFault.TheVariants.{TooMany, Memory};
ghost use Rattle.spx_lexer.specs.Faults as faults;
ghost use Rattle.spx_lexer.specs.Faults.{IsFaultOf, IsLimitOf};
ghost use Rattle.spx_tree.specs.Stops.{HasMoreTokens, most_tokens};
ghost use Rattle.spx_lexer.specs.Least.{EndsInLeast};
ghost use Rattle.spx_lexer.specs.Pieces as pieces;

mod delimiters;
mod numbers;
mod pieces;
mod positions;
mod reading;
mod words;

use crate::lexer::numbers::least_len;
use crate::lexer::pieces::Cause;
use crate::lexer::reading::read_tokens;
use spx_text::Place;
use spx_tree::Token;
use std::alloc::{AllocError, Global};
use thiserror::Error;

/// The greatest number of tokens of one text.
pub const MOST_TOKENS: usize = 1_000_000;

/// The tokens of a text, which lend their spelling from it.
#[derive(Drop)]
pub struct Tokens<'a> {
    pub source: &'a [u8],
    pub list: Vec<Token>,
    /// The place after the last byte.
    pub end: Place,
}

/// Why a text has no tokens.
#[derive(Clone, Copy, Debug, PartialEq, Eq, Error)]
pub enum LexFault {
    /// The byte at this place begins no lexeme.
    #[error("bad byte")]
    BadByte(Place),
    /// A digit, a letter, `_`, `#`, or `.` and a digit stand after the number at this place.
    #[error("bad number")]
    BadNumber(Place),
    /// The value of the number at this place is greater than `2**127 - 1`.
    #[error("number too wide")]
    TooWide(Place),
    /// More than `MOST_TOKENS` tokens stand before the place where the text ends or is stopped.
    #[error("too many tokens")]
    TooMany,
    #[error("out of memory")]
    Memory,
}

impl From<AllocError> for LexFault {
    ghost from_gives = { λ _ fault. fault ≡ Memory };

    fn from(_: AllocError) -> LexFault {
        LexFault::Memory
    }
}

fn fault_of(cause: Cause, place: Place) -> LexFault
    ensures { result ≡ faults.fault_of (faults.reason_of cause) place }
{
    match cause {
        Cause::BadByte => LexFault::BadByte(place),
        Cause::BadNumber => LexFault::BadNumber(place),
        Cause::TooWide => LexFault::TooWide(place),
    }
}

/// The tokens that spell the text of a file.
pub fn lex(alloc: Global, file: u32, source: &[u8]) -> Result<Tokens<'_>, LexFault>
    requires { length source.now ≤ most_bytes }
    ensures source { IfOk result (λ answer. answer.source.now ≡ source.now) }

    // The answer is the tokens of the text, which are not too many.
    ensures tokens { IfOk result (λ answer. Spells file source.now answer.list.items) }
    ensures within { IfOk result (λ answer. All (IsWithin (length source.now)) answer.list.items) }
    ensures few { IfOk result (λ answer. ¬ HasMoreTokens most_tokens file source.now) }
    ensures end { IfOk result (λ answer. answer.end ≡ place_after_bytes file source.now) }

    // Where tokens spell the text and are not too many, they are the answer, unless memory runs out.
    ensures spelled { (tokens : List Token) → Spells file source.now tokens → ¬ HasMoreTokens most_tokens file source.now → MatchResult result (λ answer. answer.list.items ≡ tokens) (λ fault. fault ≡ Memory) }

    // A fault says where and why the text is stopped, or that it has too many tokens, and such a text gives that fault.
    ensures refused { IfErr result (IsFaultOf file source.now) }
    ensures stopped { (reason : Reason) (place : Place) → StopsAt file source.now reason place → ¬ HasMoreTokens most_tokens file source.now → IsErrAnd result (λ fault. (fault ≡ faults.fault_of reason place) ⊎ (fault ≡ Memory)) }
    ensures crowded { HasMoreTokens most_tokens file source.now → IsErrAnd result (λ fault. (fault ≡ TooMany) ⊎ (fault ≡ Memory)) }
{
    let reading = read_tokens(alloc, file, source)?;
    match reading.stop {
        Some(cause) => Err(fault_of(cause, reading.at.place)),
        None => Ok(Tokens {
            source,
            list: reading.list,
            end: reading.at.place,
        }),
    }
}

// How many bytes the number `2**127` has with which the rest of a text begins, if it stops the text outside of annotation text.
fn least_at(stop: Option<Cause>, marked: bool, rest: &[u8]) -> Option<usize>
    ensures value { result ≡ pieces.least_at stop marked rest.now }
    ensures within { IfSome result (λ len. len ≤ length rest.now) }
{
    match stop {
        Some(Cause::TooWide) if !marked => least_len(rest),
        _ => None,
    }
}

// Whether a text has no tokens.
fn is_blank(alloc: Global, file: u32, source: &[u8]) -> Result<bool, AllocError>
    requires { length source.now ≤ most_bytes }
    ensures { IfOk result (λ blank. MatchBool blank (Spells file source.now []) (¬ Spells file source.now [])) }
{
    match lex(alloc, file, source) {
        Ok(tokens) => Ok(tokens.list.is_empty()),
        Err(LexFault::BadByte(_)) => Ok(false),
        Err(LexFault::BadNumber(_)) => Ok(false),
        Err(LexFault::TooWide(_)) => Ok(false),
        Err(LexFault::TooMany) => Ok(false),
        Err(LexFault::Memory) => Err(AllocError),
    }
}

/// The tokens before the number `2**127` in which the text of a file ends, if it ends in this number.
pub fn lex_least(alloc: Global, file: u32, source: &[u8]) -> Result<Option<Vec<Token>>, LexFault>
    requires { length source.now ≤ most_bytes }
    ensures least { IfOk result (λ found. MatchOption found ((tokens : List Token) → ¬ EndsInLeast file source.now tokens) (λ list. EndsInLeast file source.now list.items)) }
    ensures within { IfOk result (λ found. IfSome found (λ list. All (IsWithin (length source.now)) list.items)) }

    // A fault says that too many tokens come before the place where the text ends or is stopped, and such a text gives that fault.
    ensures refused { IfErr result (IsLimitOf file source.now) }
    ensures crowded { HasMoreTokens most_tokens file source.now → IsErrAnd result (λ fault. (fault ≡ TooMany) ⊎ (fault ≡ Memory)) }
{
    let reading = read_tokens(alloc, file, source)?;
    let Some(len) = least_at(reading.stop, reading.at.marked, reading.rest) else {
        return Ok(None);
    };
    let (_, following) = reading.rest.split_at(len);
    if is_blank(alloc, file, following)? {
        Ok(Some(reading.list))
    } else {
        Ok(None)
    }
}
