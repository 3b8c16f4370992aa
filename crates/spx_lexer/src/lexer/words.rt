// Identifiers and reserved words.
ghost use Rattle.std.specs.Prelude.{◌≡◌, ◌≤◌, length, map};
ghost use Rattle.std.specs.Str.{str_eq_ignore_ascii_case};
ghost use Rattle.spx_tree.specs.Lexemes as lexemes;
ghost use Rattle.spx_lexer.specs.Pieces as spec;

use spx_tree::{ANNOTATION_WORDS, Kind, RESERVED_WORDS};

// How many bytes the longest reserved word has, which is `main_program`.
const MOST_RESERVED_LEN: usize = 12;

// How many bytes go on with a word: letters and digits, with single underscores between them.
pub(super) fn word_rest_len(bytes: &[u8]) -> usize
    ensures value { result ≡ spec.word_rest_len bytes.now }
    ensures within { result ≤ length bytes.now }
{
    let mut rest = bytes;
    loop {
        match rest {
            [b, after @ ..] if b.is_ascii_alphanumeric() => rest = after,
            [b'_', b, after @ ..] if b.is_ascii_alphanumeric() => rest = after,
            _ => return bytes.len() - rest.len(),
        }
    }
}

fn is_same_word(a: &[u8], b: &[u8]) -> bool
    ensures { result ≡ str_eq_ignore_ascii_case a.now b.now }
{
    a.eq_ignore_ascii_case(b)
}

fn kind_among(mut table: &[(&[u8], Kind)], word: &[u8], otherwise: Kind) -> Kind
    ensures { result ≡ lexemes.kind_among (map (λ w. (w.0.now, w.1)) table.entry.now) word.now otherwise }
{
    while let [(spelling, kind), rest @ ..] = table {
        if is_same_word(spelling, word) {
            return *kind;
        }
        table = rest;
    }
    otherwise
}

#[tactic(auto, unfolding(spx_tree::specs::Lexemes::unreserved))]
fn unreserved(marked: bool, word: &[u8]) -> Kind
    ensures { result ≡ lexemes.unreserved marked word.now }
{
    if marked {
        kind_among(&ANNOTATION_WORDS, word, Kind::Identifier)
    } else {
        Kind::Identifier
    }
}

#[tactic(auto, unfolding(spx_tree::specs::Lexemes::kind_of_word))]
pub(super) fn kind_of_word(marked: bool, word: &[u8]) -> Kind
    ensures { result ≡ lexemes.kind_of_word marked word.now }
{
    if word.len() > MOST_RESERVED_LEN {
        return Kind::Identifier;
    }
    kind_among(&RESERVED_WORDS, word, unreserved(marked, word))
}
