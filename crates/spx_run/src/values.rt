// Values of inputs, token by token. Parentheses are counted, so that their depth costs no stack.
ghost use Rattle.std.specs.Prelude.{◌≡◌, ◌<◌, ◌≤◌, ◌+◌, length, IfOk, IfSome};
ghost use Rattle.spx_tree.specs.Mirror.{AreWithin, IsWithin};
ghost use Rattle.spx_run.specs.declared.values.Reading.{Reading};
ghost use Rattle.spx_run.specs.Inputs.{value_of};
ghost use Rattle.spx_run.specs.Mirror as spec;
ghost use Rattle.spx_run.specs.Mirror.{AreNatural, IsNatural};

use crate::inputs::{InputPart, InputValue};
use crate::tokens::{is_token, spelled};
use spx_tree::{Kind, Token};
use sqlite_items::Items;
use std::alloc::{AllocError, Global};

/// What comes next in a value.
#[derive(Clone, Copy, PartialEq, Eq)]
enum Expected {
    Value,
    /// The number after `-`.
    Number,
    /// `,` or `)`, after a value.
    Mark,
}

/// What is read of a value.
#[derive(Drop)]
struct Reading {
    parts: Items<InputPart>,
    /// How many parentheses are open.
    depth: usize,
    expected: Expected,
}

/// A reading with this part more.
fn with_part(
    reading: Reading,
    part: InputPart,
    depth: usize,
    expected: Expected,
) -> Result<Reading, AllocError>
    ensures { IfOk result (λ longer. longer ≡ spec.with_part reading part depth expected) }
{
    let mut parts = reading.parts;
    parts.push(part)?;
    Ok(Reading {
        parts,
        depth,
        expected,
    })
}

/// The reading after this token, where a value begins.
fn begin_value(
    alloc: Global,
    source: &[u8],
    reading: Reading,
    token: &Token,
) -> Result<Option<Reading>, AllocError>
    requires within { IsWithin (length source.now) token.now }
    requires room { reading.depth < usize.MAX }
    ensures value { IfOk result (λ found. found ≡ spec.begin_value source.now reading token.now) }
    ensures depth { IfOk result (λ found. IfSome found (λ (next : Reading). next.depth ≤ reading.depth + 1)) }
{
    let depth = reading.depth;
    if is_token(Kind::LeftParenthesis, token) {
        return Ok(Some(with_part(reading, InputPart::Open, depth + 1, Expected::Value)?));
    }
    if is_token(Kind::Minus, token) {
        return Ok(Some(Reading {
            parts: reading.parts,
            depth,
            expected: Expected::Number,
        }));
    }
    if is_token(Kind::Number, token) {
        let part = InputPart::Number(token.number);
        return Ok(Some(with_part(reading, part, depth, Expected::Mark)?));
    }
    if is_token(Kind::Identifier, token) {
        let part = InputPart::Word(spelled(alloc, source, token)?);
        return Ok(Some(with_part(reading, part, depth, Expected::Mark)?));
    }
    Ok(None)
}

/// The reading after this token, after `-`.
fn negate_number(reading: Reading, token: &Token) -> Result<Option<Reading>, AllocError>
    requires { IsNatural token.now }
    ensures value { IfOk result (λ found. found ≡ spec.negate_number reading token.now) }
    ensures depth { IfOk result (λ found. IfSome found (λ (next : Reading). next.depth ≤ reading.depth + 1)) }
{
    if !is_token(Kind::Number, token) {
        return Ok(None);
    }
    let depth = reading.depth;
    let part = InputPart::Number(0 - token.number);
    Ok(Some(with_part(reading, part, depth, Expected::Mark)?))
}

/// The reading after this token, after a value.
fn end_value(reading: Reading, token: &Token) -> Result<Option<Reading>, AllocError>
    ensures value { IfOk result (λ found. found ≡ spec.end_value reading token.now) }
    ensures depth { IfOk result (λ found. IfSome found (λ (next : Reading). next.depth ≤ reading.depth + 1)) }
{
    let depth = reading.depth;
    if depth == 0 {
        return Ok(None);
    }
    if is_token(Kind::Comma, token) {
        return Ok(Some(Reading {
            parts: reading.parts,
            depth,
            expected: Expected::Value,
        }));
    }
    if is_token(Kind::RightParenthesis, token) {
        return Ok(Some(with_part(reading, InputPart::Close, depth - 1, Expected::Mark)?));
    }
    Ok(None)
}

/// The reading after this token.
fn step(
    alloc: Global,
    source: &[u8],
    reading: Reading,
    token: &Token,
) -> Result<Option<Reading>, AllocError>
    requires within { IsWithin (length source.now) token.now }
    requires natural { IsNatural token.now }
    requires room { reading.depth < usize.MAX }
    ensures value { IfOk result (λ found. found ≡ spec.step source.now reading.expected reading token.now) }
    ensures depth { IfOk result (λ found. IfSome found (λ (next : Reading). next.depth ≤ reading.depth + 1)) }
{
    match reading.expected {
        Expected::Value => begin_value(alloc, source, reading, token),
        Expected::Number => negate_number(reading, token),
        Expected::Mark => end_value(reading, token),
    }
}

/// The parts that are read, if a value is at its end.
fn finish(reading: Reading) -> Option<Items<InputPart>>
    ensures { result ≡ spec.finish reading }
{
    match reading.expected {
        Expected::Value => None,
        Expected::Number => None,
        Expected::Mark => (reading.depth == 0).then_some(reading.parts),
    }
}

/// The parts of the value that tokens are.
fn parts_in(
    alloc: Global,
    source: &[u8],
    tokens: &[Token],
) -> Result<Option<Items<InputPart>>, AllocError>
    requires within { AreWithin (length source.now) tokens.now }
    requires natural { AreNatural tokens.now }
    ensures { IfOk result (λ found. found ≡ spec.parts_in source.now tokens.now) }
{
    let mut reading = Reading {
        parts: Items::new(alloc),
        depth: 0,
        expected: Expected::Value,
    };
    for token in tokens {
        let Some(next) = step(alloc, source, reading, token)? else {
            return Ok(None);
        };
        reading = next;
    }
    Ok(finish(reading))
}

/// The value of these parts.
fn value_of(alloc: Global, parts: Items<InputPart>) -> Result<InputValue, AllocError>
    ensures { IfOk result (λ value. value ≡ value_of parts) }
{
    match parts.as_slice() {
        [InputPart::Number(number)] => Ok(InputValue::Number(*number)),
        [InputPart::Word(word)] => Ok(InputValue::Word(word.copy(alloc)?)),
        _ => Ok(InputValue::Parts(parts)),
    }
}

/// The value that tokens are.
pub(crate) fn value_in(
    alloc: Global,
    source: &[u8],
    tokens: &[Token],
) -> Result<Option<InputValue>, AllocError>
    requires within { AreWithin (length source.now) tokens.now }
    requires natural { AreNatural tokens.now }
    ensures { IfOk result (λ found. found ≡ spec.value_in source.now tokens.now) }
{
    match parts_in(alloc, source, tokens)? {
        Some(parts) => Ok(Some(value_of(alloc, parts)?)),
        None => Ok(None),
    }
}
