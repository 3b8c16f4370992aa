// Lines of inputs, as the lexemes of the language.
ghost use Rattle.std.specs.Prelude.{◌≡◌, ◌≤◌, List, length, IfOk};
ghost use Rattle.spx_text.specs.Limits.{most_bytes};
ghost use Rattle.spx_tree.specs.Form.{spelling};
ghost use Rattle.spx_tree.specs.Mirror.{AreWithin, IsWithin};
ghost use Rattle.spx_tree.specs.Spells.{Spells};
ghost use Rattle.spx_tree.specs.Stops.{HasMoreTokens, most_tokens};
ghost use Rattle.spx_tree.specs.declared.token.Token.{Token};
ghost use Rattle.spx_run.specs.Mirror as spec;
ghost use Rattle.spx_run.specs.Mirror.{AreNatural, IsReadAs};

use crate::inputs::{InputLine, InputValue};
use crate::tokens::{is_token, spelled};
use crate::values::value_in;
use spx_lexer::{LexFault, lex, lex_least, one_least};
use spx_tree::{Kind, Token, one_spelling};
use std::alloc::{AllocError, Global};

/// The line of this number whose name and value these are.
fn line_of(
    alloc: Global,
    number: u32,
    source: &[u8],
    name: &Token,
    value: &[Token],
) -> Result<Option<InputLine>, AllocError>
    requires name { IsWithin (length source.now) name.now }
    requires within { AreWithin (length source.now) value.now }
    requires natural { AreNatural value.now }
    ensures { IfOk result (λ found. found ≡ spec.named_value number (spelling source.now name.now) (spec.value_in source.now value.now)) }
{
    let Some(value) = value_in(alloc, source, value)? else {
        return Ok(None);
    };
    let name = spelled(alloc, source, name)?;
    Ok(Some(InputLine {
        line: number,
        name,
        value,
    }))
}

/// The line of this number that tokens are.
fn line_in(
    alloc: Global,
    number: u32,
    source: &[u8],
    tokens: &[Token],
) -> Result<Option<InputLine>, AllocError>
    requires within { AreWithin (length source.now) tokens.now }
    requires natural { AreNatural tokens.now }
    ensures { IfOk result (λ found. found ≡ spec.line_in number source.now tokens.now) }
{
    let [name, equal, value @ ..] = tokens else {
        return Ok(None);
    };
    if is_token(Kind::Identifier, name) && is_token(Kind::Equal, equal) {
        line_of(alloc, number, source, name, value)
    } else {
        Ok(None)
    }
}

/// The line of this number that tokens before the number `2**127` are.
fn least_line(
    alloc: Global,
    number: u32,
    source: &[u8],
    tokens: &[Token],
) -> Result<Option<InputLine>, AllocError>
    requires { AreWithin (length source.now) tokens.now }
    ensures { IfOk result (λ found. found ≡ spec.least_line number source.now tokens.now) }
{
    let [name, equal, minus] = tokens else {
        return Ok(None);
    };
    if is_token(Kind::Identifier, name)
        && is_token(Kind::Equal, equal)
        && is_token(Kind::Minus, minus)
    {
        let name = spelled(alloc, source, name)?;
        Ok(Some(InputLine {
            line: number,
            name,
            value: InputValue::Number(i128::MIN),
        }))
    } else {
        Ok(None)
    }
}

/// The line of this number that bytes are, or none, where no tokens spell them.
fn read_least(alloc: Global, number: u32, bytes: &[u8]) -> Result<Option<InputLine>, AllocError>
    requires size { length bytes.now ≤ most_bytes }
    requires unspelled { (tokens : List Token) → ¬ Spells 0 bytes.now tokens }
    requires few { ¬ HasMoreTokens most_tokens 0 bytes.now }
    ensures { IfOk result (IsReadAs number bytes.now) }
{
    one_least();
    // There are not too many tokens, so that the only fault is that memory ran out.
    let Ok(found) = lex_least(alloc, 0, bytes) else {
        return Err(AllocError);
    };
    let Some(tokens) = found else {
        return Ok(None);
    };
    least_line(alloc, number, bytes, tokens.as_slice())
}

/// The line of this number that bytes are, or none.
pub(crate) fn read_line(
    alloc: Global,
    number: u32,
    bytes: &[u8],
) -> Result<Option<InputLine>, AllocError>
    requires { length bytes.now ≤ most_bytes }
    ensures { IfOk result (IsReadAs number bytes.now) }
{
    one_spelling();
    one_least();
    match lex(alloc, 0, bytes) {
        Ok(tokens) => line_in(alloc, number, bytes, tokens.list.as_slice()),
        Err(LexFault::BadByte(_)) => Ok(None),
        Err(LexFault::BadNumber(_)) => Ok(None),
        Err(LexFault::TooWide(_)) => read_least(alloc, number, bytes),
        Err(LexFault::TooMany) => Ok(None),
        Err(LexFault::Memory) => Err(AllocError),
    }
}
