// From the bytes of a file to its units, or to what keeps it from having any.
ghost use Rattle.std.specs.Prelude.{◌≡◌, ◌≤◌, length, IfOk};
ghost use Rattle.spx_text.specs.Limits.{most_bytes};
ghost use Rattle.spx_tree.specs.Mirror.{AreWithin};
ghost use Rattle.spx_tree.specs.Places.{place_after_bytes};
ghost use Rattle.spx_examiner.specs.Reading.{AreTokens, IsRead, expected_at};
ghost use Rattle.spx_examiner.specs.declared.reading.Reading.TheVariants.{Broken};

use spx_core::RuleName;
use spx_lexer::{LexFault, Tokens, lex};
use spx_parse_unit::{ParseFault, parse_units};
use spx_report::Finding;
use spx_text::{Place, Text};
use spx_tree::Unit;
use sqlite_items::Items;
use std::alloc::{AllocError, Global};

/// What lexis and syntax say of the text of a file.
#[derive(Drop)]
pub enum Reading {
    /// It is these units.
    Units(Items<Unit>),
    /// It is stopped where the finding stands.
    Broken(Finding),
    /// It has too many tokens.
    TooManyTokens,
    /// It is none within so many levels.
    TooNested,
}

/// The finding on a text that does not go on at this place.
fn expected(alloc: Global, place: Place) -> Result<Finding, AllocError>
    ensures { IfOk result (λ found. found ≡ expected_at place) }
{
    Ok(Finding {
        place,
        rule: RuleName::P1,
        text: Text::new(alloc, b"expected another token")?,
    })
}

/// What syntax says of the tokens of a text.
fn parsed(alloc: Global, tokens: &Tokens<'_>) -> Result<Reading, AllocError>
    requires within { AreWithin (length tokens.now.source.now) tokens.now.list.items }
    requires tokens { AreTokens tokens.now.source.now tokens.now.list.items }
    requires end { tokens.now.end ≡ place_after_bytes 0 tokens.now.source.now }
    ensures { IfOk result (IsRead tokens.now.source.now) }
{
    match parse_units(alloc, tokens) {
        Ok(units) => Ok(Reading::Units(units)),
        Err(ParseFault::Expected(place)) => Ok(Reading::Broken(expected(alloc, place)?)),
        Err(ParseFault::TooDeep(_)) => Ok(Reading::TooNested),
        Err(ParseFault::Memory) => Err(AllocError),
    }
}

/// A text that is stopped at this place.
fn stopped(alloc: Global, place: Place, rule: RuleName, text: &[u8]) -> Result<Reading, AllocError>
    ensures { IfOk result (λ reading. reading ≡ Broken (record { place = place; rule = rule; text = text.now })) }
{
    Ok(Reading::Broken(Finding {
        place,
        rule,
        text: Text::new(alloc, text)?,
    }))
}

/// What lexis and syntax say of the text of a file.
pub fn read(alloc: Global, source: &[u8]) -> Result<Reading, AllocError>
    requires { length source.now ≤ most_bytes }
    ensures { IfOk result (IsRead source.now) }
{
    match lex(alloc, 0, source) {
        Ok(tokens) => parsed(alloc, &tokens),
        Err(LexFault::BadByte(at)) => stopped(alloc, at, RuleName::L1, b"bad byte"),
        Err(LexFault::BadNumber(at)) => stopped(alloc, at, RuleName::L2, b"bad number"),
        Err(LexFault::TooWide(at)) => stopped(alloc, at, RuleName::L3, b"number too wide"),
        Err(LexFault::TooMany) => Ok(Reading::TooManyTokens),
        Err(LexFault::Memory) => Err(AllocError),
    }
}
