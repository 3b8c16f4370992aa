// Text that is kept.
ghost use Rattle.std.specs.Prelude.{◌≡◌, ◌≤◌, ◌↔◌, fold, length, IfOk, IsTrue};
ghost use Rattle.std.proofs.Common.{ap};
ghost use Rattle.std.specs.Cmp.{partial_equiv_from_equiv};
ghost use Rattle.std.specs.Cmp.Lexicographic.{bytes_decides, on_texts_equal};
ghost use Rattle.std.specs.Str.{str_eq_ignore_ascii_case, str_to_ascii_lowercase};
ghost use Rattle.spx_text.specs.Hashed.{pieces};

use smallvec::SmallVec;
use std::alloc::{AllocError, Global};
use std::hash::{Hash, Hasher};
use std::marker::Model;

/// How many bytes of a text need no allocation: most identifiers have fewer.
const INLINE: usize = 24;

/// How many bytes go to a hasher in one write: most identifiers have fewer.
const PIECE: usize = 32;

/// A text that contracts see as the list of its bytes.
#[derive(Drop)]
pub struct Text {
    bytes: SmallVec<u8, INLINE>,
}

impl Model for Text {
    ghost use Rattle.std.specs.Prelude.{ℕ, List};

    ghost Value = { List ℕ };

    ghost view = { λ text. text.bytes.items };
}

impl Text {
    /// A text of these bytes.
    pub fn new(alloc: Global, bytes: &[u8]) -> Result<Text, AllocError>
        ensures { IfOk result (λ text. text ≡ bytes.now) }
    {
        Ok(Text {
            bytes: SmallVec::from_slice(alloc, bytes)?,
        })
    }

    /// Its bytes.
    pub fn as_bytes(&self) -> &[u8]
        ensures { result.now ≡ self.now }
    {
        self.bytes.as_slice()
    }

    /// An equal text.
    pub fn copy(&self, alloc: Global) -> Result<Text, AllocError>
        ensures { IfOk result (λ text. text ≡ self.now) }
    {
        Text::new(alloc, self.as_bytes())
    }

    /// Whether both have the same bytes; letter case counts.
    pub fn same(&self, other: &Text) -> bool
        ensures { IsTrue result ↔ (self.now ≡ other.now) }
    {
        self.as_bytes() == other.as_bytes()
    }

    /// Whether two texts are one identifier: letter case does not count (Ada 95 RM 2.3).
    pub fn is_same_word(&self, other: &Text) -> bool
        ensures { result ≡ str_eq_ignore_ascii_case self.now other.now }
    {
        self.same(other) || self.as_bytes().eq_ignore_ascii_case(other.as_bytes())
    }
}

/// Texts are equal where they are one identifier, so that tables of names ignore letter case.
impl PartialEq for Text {
    ghost eq = { str_eq_ignore_ascii_case };

    ghost laws = { partial_equiv_from_equiv (on_texts_equal str_to_ascii_lowercase) };

    fn eq(&self, other: &Text) -> bool {
        self.is_same_word(other)
    }
}

impl Eq for Text {
    ghost laws = { on_texts_equal str_to_ascii_lowercase };
}

/// One write of these bytes in lower case.
fn write_lowercase<H: Hasher>(bytes: &[u8], state: &mut H)
    requires { length bytes.now ≤ PIECE }
    ensures { state.new ≡ H.write state.old (str_to_ascii_lowercase bytes.now) }
{
    let mut lower = [0; PIECE];
    for (i, byte) in bytes.iter().enumerate() {
        lower[i] = byte.to_ascii_lowercase();
    }
    state.write(&lower[..bytes.len()]);
}

/// A write of each piece, and one of what is left.
fn hash_lowercase<H: Hasher>(bytes: &[u8], state: &mut H)
    ensures { state.new ≡ fold H.write state.old (pieces PIECE (str_to_ascii_lowercase bytes.now)) }
{
    let (whole, rest) = bytes.as_chunks::<PIECE>();
    for piece in whole {
        write_lowercase(piece, state);
    }
    write_lowercase(rest, state);
}

impl Hash for Text {
    ghost use Rattle.spx_text.specs.declared.text.TheConstants.{PIECE};

    ghost hash_input = { λ text. pieces PIECE (str_to_ascii_lowercase text) };

    ghost respects_eq = { λ a b same. ap (pieces PIECE) ((bytes_decides (str_to_ascii_lowercase a) (str_to_ascii_lowercase b)).0 same) };

    fn hash<H: Hasher>(&self, state: &mut H) {
        hash_lowercase(self.as_bytes(), state);
    }
}
