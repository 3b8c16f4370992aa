// The tokens that are left, and the steps that take one of them.
ghost use Rattle.std.specs.Prelude.{◌≡◌, ◌∷◌, ℕ, List, length, IfSome, is_some, true};
ghost use Rattle.spx_tree.specs.Form.{forms_of, keeps, KindAlone, ItsPlace};
ghost use Rattle.spx_tree.specs.Mirror.{AreWithin};
ghost use Rattle.spx_cursor.specs.Reading as read;
ghost use Rattle.spx_cursor.specs.Answers.{Reads};
ghost use Rattle.spx_cursor.specs.declared.cursor.Stop.TheVariants.{Memory};

use spx_text::{Place, Text};
use spx_tree::{Identifier, Kind, Token};
use std::alloc::{AllocError, Global};
use std::marker::Model;

/// The mark of the tokens of a program's own text.
pub const PROGRAM: bool = false;

/// The mark of the tokens of annotations.
pub const ANNOTATION: bool = true;

/// Why reading stops, and how many tokens are left there.
#[derive(Clone, Copy, PartialEq, Eq)]
pub enum Stop {
    /// No text of the grammar goes on.
    Expected(usize),
    /// No text of so few levels goes on.
    TooDeep(usize),
    Memory,
}

impl From<AllocError> for Stop {
    ghost from_gives = { λ _ stop. stop ≡ Memory };

    fn from(_: AllocError) -> Stop {
        Stop::Memory
    }
}

/// The tokens that are left of a text, seen as what a tree keeps of them.
#[derive(Drop)]
pub struct Cursor<'a> {
    source: &'a [u8],
    rest: &'a [Token],
}

impl<'a> Model for Cursor<'a> {
    ghost use Rattle.std.specs.Prelude.{List, length};
    ghost use Rattle.spx_tree.specs.Form.{Form, forms_of};
    ghost use Rattle.spx_tree.specs.Mirror.{AreWithin};

    ghost Value = { List Form };

    ghost view = { λ c. forms_of c.source.now c.rest.now };

    ghost invariant = { λ c. AreWithin (length c.source.now) c.rest.now };
}

/// Whether two kinds are one.
#[tactic(auto, unfolding(crate::specs::Reading::same_kind))]
fn same_kind(a: Kind, b: Kind) -> bool
    ensures value { result ≡ read.same_kind a b }
    ensures same { result ≡ true → a ≡ b }
{
    a == b
}

/// The first token, if it has this mark and kind, and those after it.
fn split_next(tokens: &[Token], marked: bool, kind: Kind) -> Option<(Token, &[Token])>
    ensures seen { (source : List ℕ) → read.sees marked kind (forms_of source tokens.now) ≡ is_some result }
    ensures parts { IfSome result (λ next. tokens.now ≡ next.0 ∷ next.1.now) }
    ensures same { IfSome result (λ next. next.0.kind ≡ kind) }
{
    let [token, rest @ ..] = tokens else {
        return None;
    };
    if token.marked == marked && same_kind(token.kind, kind) {
        return Some((*token, rest));
    }
    None
}

impl<'a> Cursor<'a> {
    /// Before these tokens of the source.
    pub fn new(source: &'a [u8], tokens: &'a [Token]) -> Cursor<'a>
        requires { AreWithin (length source.now) tokens.now }
        ensures { result ≡ forms_of source.now tokens.now }
    {
        Cursor {
            source,
            rest: tokens,
        }
    }

    /// How many tokens are left.
    pub fn left(&self) -> usize
        ensures { result ≡ length self.now }
    {
        self.rest.len()
    }

    /// No text of the grammar goes on here.
    pub fn expected(&self) -> Stop
        ensures { result ≡ Stop.Expected (length self.now) }
    {
        Stop::Expected(self.left())
    }

    /// No text of so few levels goes on here.
    pub fn too_deep(&self) -> Stop
        ensures { result ≡ Stop.TooDeep (length self.now) }
    {
        Stop::TooDeep(self.left())
    }

    /// The kind of the next token, if it has this mark.
    pub fn peek(&self, marked: bool) -> Option<Kind>
        ensures { result ≡ read.peek marked self.now }
    {
        match self.rest {
            [token, ..] if token.marked == marked => Some(token.kind),
            _ => None,
        }
    }

    /// Whether the next token has this mark and kind.
    pub fn sees(&self, marked: bool, kind: Kind) -> bool
        ensures { result ≡ read.sees marked kind self.now }
    {
        split_next(self.rest, marked, kind).is_some()
    }

    /// Takes a token of this mark and kind.
    pub fn expect(&mut self, marked: bool, kind: Kind) -> Result<(), Stop>
        requires { keeps kind ≡ KindAlone }
        ensures { Reads (read.expect marked kind self.old) result self.new }
    {
        let Some((_, rest)) = split_next(self.rest, marked, kind) else {
            return Err(self.expected());
        };
        self.rest = rest;
        Ok(())
    }

    /// Takes a token of this mark and kind, and answers its place.
    pub fn expect_place(&mut self, marked: bool, kind: Kind) -> Result<Place, Stop>
        requires { keeps kind ≡ ItsPlace }
        ensures { Reads (read.expect_place marked kind self.old) result self.new }
    {
        let Some((token, rest)) = split_next(self.rest, marked, kind) else {
            return Err(self.expected());
        };
        self.rest = rest;
        Ok(token.place)
    }

    /// Takes a number, and answers its value and its place.
    pub fn number(&mut self, marked: bool) -> Result<(i128, Place), Stop>
        ensures { Reads (read.number marked self.old) result self.new }
    {
        let Some((token, rest)) = split_next(self.rest, marked, Kind::Number) else {
            return Err(self.expected());
        };
        self.rest = rest;
        Ok((token.number, token.place))
    }

    /// Takes an identifier.
    pub fn identifier(&mut self, alloc: Global, marked: bool) -> Result<Identifier, Stop>
        ensures { Reads (read.identifier marked self.old) result self.new }
    {
        let Some((token, rest)) = split_next(self.rest, marked, Kind::Identifier) else {
            return Err(self.expected());
        };
        let text = Text::new(alloc, &self.source[token.first..token.after])?;
        self.rest = rest;
        Ok(Identifier {
            text,
            place: token.place,
        })
    }
}
