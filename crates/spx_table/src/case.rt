// The cases of a table.
ghost use Rattle.std.specs.Prelude.{◌≡◌, ◌≢◌, ◌⊎◌, ◌++◌, ◌∷◌, [], ℕ, List, codes, IfSome, IsNone, if◌then◌else◌, true, false};
ghost use Rattle.spx_table.specs.declared.case.Kind.TheVariants.{Asked, Second, Text};

use std::alloc::{AllocError, Global};

/// What a header begins.
#[derive(Clone, Copy, PartialEq, Eq)]
pub enum Kind {
    /// A text that is checked.
    Text,
    /// A text, with the words that ask of it.
    Asked,
    /// A second file for the text above it.
    Second,
}

/// The line that begins a text or a second file.
#[derive(Clone, Copy)]
pub struct Header<'a> {
    pub kind: Kind,
    /// Whether the line end before the next header belongs to the text.
    pub ended: bool,
    /// The name of the file. For `Asked` the words follow, each after one space.
    pub label: &'a [u8],
    /// The whole line.
    pub line: &'a [u8],
}

/// A header and the text below it.
#[derive(Drop)]
pub struct Case<'a> {
    pub header: Header<'a>,
    lines: Vec<u8>,
}

/// The header that a line is: `%% NAME`, `%? NAME WORD..` or `%+ NAME`; or where the last line of the text has no end, `%- NAME` or
/// `%= NAME`.
fn read_header(line: &[u8]) -> Option<Header<'_>>
    ensures line { IfSome result (λ header. header.line.now ≡ line.now) }
    ensures text { IfSome result (λ header. header.kind ≡ Text → line.now ≡ (if header.ended then codes "%% " else codes "%- ") ++ header.label.now) }
    ensures asked { IfSome result (λ header. header.kind ≡ Asked → (header.ended ≡ true) × (line.now ≡ codes "%? " ++ header.label.now)) }
    ensures second { IfSome result (λ header. header.kind ≡ Second → line.now ≡ (if header.ended then codes "%+ " else codes "%= ") ++ header.label.now) }
    ensures no_text { IsNone result → (label : List ℕ) → (line.now ≢ codes "%% " ++ label) × (line.now ≢ codes "%- " ++ label) }
    ensures no_other { IsNone result → (label : List ℕ) → (line.now ≢ codes "%? " ++ label) × (line.now ≢ codes "%+ " ++ label) × (line.now ≢ codes "%= " ++ label) }
{
    let (kind, ended, label) = match line {
        [b'%', b'%', b' ', label @ ..] => (Kind::Text, true, label),
        [b'%', b'-', b' ', label @ ..] => (Kind::Text, false, label),
        [b'%', b'?', b' ', label @ ..] => (Kind::Asked, true, label),
        [b'%', b'+', b' ', label @ ..] => (Kind::Second, true, label),
        [b'%', b'=', b' ', label @ ..] => (Kind::Second, false, label),
        _ => return None,
    };
    Some(Header {
        kind,
        ended,
        label,
        line,
    })
}

/// The line without the line end after it.
fn without_end(line: &[u8]) -> &[u8]
    ensures ended { (front : List ℕ) → line.now ≡ front ++ 10 ∷ [] → result.now ≡ front }
    ensures rest { (line.now ≡ result.now) ⊎ (line.now ≡ result.now ++ 10 ∷ []) }
{
    match line {
        [front @ .., b'\n'] => front,
        _ => line,
    }
}

impl<'a> Case<'a> {
    /// The bytes of the text.
    pub fn text(&self) -> &[u8]
        ensures whole { self.now.header.ended ≡ true → result.now ≡ self.now.lines.items }
        ensures cut { self.now.header.ended ≡ false → (front : List ℕ) → self.now.lines.items ≡ front ++ 10 ∷ [] → result.now ≡ front }
    {
        let lines = self.lines.as_slice();
        if self.header.ended {
            lines
        } else {
            without_end(lines)
        }
    }
}

/// The cases of a table with their second files, in order. Lines before the first header are passed over.
pub fn cases(alloc: Global, table: &[u8]) -> Result<Vec<Case<'_>>, AllocError> {
    let mut found: Vec<Case<'_>> = Vec::new(alloc);
    for line in table.split_inclusive(|byte| *byte == b'\n') {
        if let Some(header) = read_header(without_end(line)) {
            let lines = Vec::new(alloc);
            found.push(Case { header, lines })?;
        } else if let Some(case) = found.last_mut() {
            case.lines.extend_from_slice(line)?;
        }
    }
    Ok(found)
}
