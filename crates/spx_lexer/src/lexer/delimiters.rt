// Delimiters.
ghost use Rattle.std.specs.Prelude.{◌≡◌, ◌≤◌, ◌+◌, length, IfSome, IsTrue};
ghost use Rattle.spx_lexer.specs.Pieces as spec;

use spx_tree::Kind;

fn single(marked: bool, a: u8) -> Option<Kind>
    ensures { result ≡ spec.single marked a }
{
    match a {
        b'&' => Some(Kind::Ampersand),
        b'\'' => Some(Kind::Apostrophe),
        b'(' => Some(Kind::LeftParenthesis),
        b')' => Some(Kind::RightParenthesis),
        b'*' => Some(Kind::Asterisk),
        b'+' => Some(Kind::Plus),
        b',' => Some(Kind::Comma),
        b'-' => Some(Kind::Minus),
        b'.' => Some(Kind::Dot),
        b'/' => Some(Kind::Slash),
        b':' => Some(Kind::Colon),
        b';' => Some(Kind::Semicolon),
        b'<' => Some(Kind::Less),
        b'=' => Some(Kind::Equal),
        b'>' => Some(Kind::Greater),
        b'|' => Some(Kind::Bar),
        b'~' if marked => Some(Kind::Tilde),
        b'[' if marked => Some(Kind::LeftBracket),
        b']' if marked => Some(Kind::RightBracket),
        _ => None,
    }
}

fn pair(marked: bool, a: u8, b: u8) -> Option<Kind>
    ensures { result ≡ spec.pair marked a b }
{
    match (a, b) {
        (b'=', b'>') => Some(Kind::Arrow),
        (b'.', b'.') => Some(Kind::DoubleDot),
        (b'*', b'*') => Some(Kind::DoubleAsterisk),
        (b':', b'=') => Some(Kind::Assignment),
        (b'/', b'=') => Some(Kind::NotEqual),
        (b'>', b'=') => Some(Kind::GreaterOrEqual),
        (b'<', b'=') => Some(Kind::LessOrEqual),
        (b'<', b'>') => Some(Kind::Diamond),
        (b'-', b'>') if marked => Some(Kind::Implication),
        _ => None,
    }
}

fn pair_at(marked: bool, first: u8, rest: &[u8]) -> Option<Kind>
    ensures value { result ≡ spec.pair_at marked first rest.now }
    ensures within { IfSome result (λ _. 1 ≤ length rest.now) }
{
    match rest {
        [second, ..] => pair(marked, first, *second),
        [] => None,
    }
}

fn is_equivalence(marked: bool, first: u8, rest: &[u8]) -> bool
    ensures value { result ≡ spec.is_equivalence marked first rest.now }
    ensures within { IsTrue result → 2 ≤ length rest.now }
{
    match rest {
        [second, third, ..] => marked && first == b'<' && *second == b'-' && *third == b'>',
        _ => false,
    }
}

// The longest delimiter at the front, and its length.
#[tactic(auto, unfolding(crate::specs::Pieces::delimiter_at))]
pub(super) fn delimiter_at(marked: bool, first: u8, rest: &[u8]) -> Option<(Kind, usize)>
    ensures value { result ≡ spec.delimiter_at marked first rest.now }
    ensures within { IfSome result (λ found. (1 ≤ found.1) × (found.1 ≤ length rest.now + 1)) }
{
    if is_equivalence(marked, first, rest) {
        return Some((Kind::Equivalence, 3));
    }
    if let Some(kind) = pair_at(marked, first, rest) {
        return Some((kind, 2));
    }
    let kind = single(marked, first)?;
    Some((kind, 1))
}
