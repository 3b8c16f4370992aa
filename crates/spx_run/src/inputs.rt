// Reading of inputs.
ghost use Rattle.std.specs.Prelude.{◌≡◌, ◌<◌, ◌≤◌, ℕ, ◌==◌, length, take, Ok, Err, IfOk, IfSome, IsErrOf};
ghost use Rattle.std.specs.List.{position};
ghost use Rattle.spx_text.specs.Limits.{most_bytes};
ghost use Rattle.spx_text.specs.declared.place.Place.{Place};
ghost use Rattle.spx_run.specs.Inputs.{AreInputs};
ghost use Rattle.spx_run.specs.Mirror.{line_len};
ghost use Rattle.spx_run.specs.declared.inputs.InputFault.TheVariants.{BadLine};

use crate::reading::read_line;
use spx_text::{Place, Text};
use sqlite_items::Items;
use std::alloc::{AllocError, Global};
use thiserror::Error;

/// A part of a value in parentheses. Commas are left out, and a number after `-` is one part.
#[derive(Drop)]
pub enum InputPart {
    Open,
    Number(i128),
    Word(Text),
    Close,
}

/// A value as it is written.
#[derive(Drop)]
pub enum InputValue {
    Number(i128),
    /// `True`, `False`, or another word as it is spelled.
    Word(Text),
    /// Values in parentheses, for elements or fields.
    Parts(Items<InputPart>),
}

/// A line of an inputs file.
#[derive(Drop)]
pub struct InputLine {
    /// Its number, from 1.
    pub line: u32,
    /// The name before `=`, as it is spelled.
    pub name: Text,
    pub value: InputValue,
}

/// What an inputs file says, line by line.
#[derive(Drop)]
pub struct Inputs {
    pub lines: Items<InputLine>,
}

/// Why a text has no inputs.
#[derive(Clone, Copy, Debug, PartialEq, Eq, Error)]
pub enum InputFault {
    /// The line that begins at this place is not `NAME = VALUE`; it is the first such line.
    #[error("bad input line")]
    BadLine(Place),
    #[error("out of memory")]
    Memory,
}

impl From<AllocError> for InputFault {
    ghost use Rattle.std.specs.Prelude.{◌≡◌};
    ghost use Rattle.spx_run.specs.Mirror.{line_len};
    ghost use Rattle.spx_run.specs.declared.inputs.InputFault.TheVariants.{Memory};

    ghost from_gives = { λ _ fault. fault ≡ Memory };

    fn from(_: AllocError) -> Self {
        InputFault::Memory
    }
}

/// Where a line begins.
fn first_column(file: u32, line: u32) -> Place
    ensures { result ≡ record { file = file; line = line; column = 1 } }
{
    Place {
        file,
        line,
        column: 1,
    }
}

/// Where the first line ends.
fn line_end(bytes: &[u8]) -> Option<usize>
    ensures value { result ≡ position (λ b. b == 10) bytes.now }
    ensures within { IfSome result (λ at. at < length bytes.now) }
{
    bytes.iter().position(|byte| *byte == b'\n')
}

/// How many bytes come before the end of the first line.
fn line_len(bytes: &[u8]) -> usize
    ensures value { result ≡ line_len bytes.now }
    ensures within { result ≤ length bytes.now }
{
    match line_end(bytes) {
        Some(at) => at,
        None => bytes.len(),
    }
}

/// The first line.
fn first_line(bytes: &[u8]) -> &[u8]
    ensures value { result.now ≡ take (line_len bytes.now) bytes.now }
    ensures size { length result.now ≡ line_len bytes.now }
    ensures within { length result.now ≤ length bytes.now }
{
    &bytes[..line_len(bytes)]
}

/// The inputs that the text of a file gives.
pub fn read_inputs(alloc: Global, file: u32, source: &[u8]) -> Result<Inputs, InputFault>
    requires { length source.now ≤ most_bytes }
    ensures lines { IfOk result (λ inputs. AreInputs source.now (Ok inputs.lines)) }
    ensures bad { (place : Place) → IsErrOf result (BadLine place) → AreInputs source.now (Err place.line) × (place ≡ record { file = file; line = place.line; column = 1 }) }
{
    let mut lines = Items::new(alloc);
    let mut at = 0;
    let mut number = 1;
    while at < source.len() {
        let text = first_line(&source[at..]);
        let Some(line) = read_line(alloc, number, text)? else {
            return Err(InputFault::BadLine(first_column(file, number)));
        };
        lines.push(line)?;
        at += text.len() + 1;
        number += 1;
    }
    Ok(Inputs { lines })
}
