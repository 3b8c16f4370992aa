// The operators that tokens are, and the layers of their operands (Ada 95 RM 4.4 and 4.5).
ghost use Rattle.std.specs.Prelude.{◌≡◌};
ghost use Rattle.spx_tree.specs.Form.{keeps, ItsPlace};
ghost use Rattle.spx_tree.specs.Grammar.{layer_of, right_layer as layer_on_right, operand_layer as layer_of_operand};
ghost use Rattle.spx_tree.specs.Written.{sign_kind, operator_kind};
ghost use Rattle.spx_cursor.specs.Operators as read;
ghost use Rattle.spx_cursor.specs.Reading as reading;
ghost use Rattle.spx_cursor.specs.Answers.{Reads};

use crate::cursor::{Cursor, Stop};
use spx_text::Place;
use spx_tree::{InfixOp, Kind, Layer, PrefixOp};

/// The operators with which a chain of operands goes on.
#[derive(Clone, Copy, PartialEq, Eq)]
pub enum Chain {
    Multiplying,
    Adding,
    /// One logical operator or short-circuit form.
    Logical(InfixOp),
}

/// What follows the first operand of a relation.
#[derive(Clone, Copy, PartialEq, Eq)]
pub enum Relator {
    Compare(InfixOp),
    In,
    NotIn,
}

/// The sign that a token is.
pub fn sign_of(kind: Option<Kind>) -> Option<PrefixOp>
    ensures { result ≡ read.sign_of kind }
{
    match kind {
        Some(Kind::Plus) => Some(PrefixOp::Plus),
        Some(Kind::Minus) => Some(PrefixOp::Minus),
        _ => None,
    }
}

/// The word `abs` or `not` that a token is.
pub fn abs_or_not(kind: Option<Kind>) -> Option<PrefixOp>
    ensures { result ≡ read.abs_or_not kind }
{
    match kind {
        Some(Kind::Abs) => Some(PrefixOp::Abs),
        Some(Kind::Not) => Some(PrefixOp::Not),
        _ => None,
    }
}

/// The operator `**` that a token is.
pub fn power_of(kind: Option<Kind>) -> Option<InfixOp>
    ensures { result ≡ read.power_of kind }
{
    match kind {
        Some(Kind::DoubleAsterisk) => Some(InfixOp::Power),
        _ => None,
    }
}

fn multiplying(kind: Option<Kind>) -> Option<InfixOp>
    ensures { result ≡ read.multiplying kind }
{
    match kind {
        Some(Kind::Asterisk) => Some(InfixOp::Multiply),
        Some(Kind::Slash) => Some(InfixOp::Divide),
        Some(Kind::Mod) => Some(InfixOp::Mod),
        Some(Kind::Rem) => Some(InfixOp::Rem),
        _ => None,
    }
}

fn adding(kind: Option<Kind>) -> Option<InfixOp>
    ensures { result ≡ read.adding kind }
{
    match kind {
        Some(Kind::Plus) => Some(InfixOp::Add),
        Some(Kind::Minus) => Some(InfixOp::Subtract),
        _ => None,
    }
}

/// What follows the first operand of a relation, by its first token.
pub fn relator_of(kind: Option<Kind>) -> Option<Relator>
    ensures { result ≡ read.relator_of kind }
{
    match kind {
        Some(Kind::Equal) => Some(Relator::Compare(InfixOp::Equal)),
        Some(Kind::NotEqual) => Some(Relator::Compare(InfixOp::NotEqual)),
        Some(Kind::Less) => Some(Relator::Compare(InfixOp::Less)),
        Some(Kind::LessOrEqual) => Some(Relator::Compare(InfixOp::LessOrEqual)),
        Some(Kind::Greater) => Some(Relator::Compare(InfixOp::Greater)),
        Some(Kind::GreaterOrEqual) => Some(Relator::Compare(InfixOp::GreaterOrEqual)),
        Some(Kind::In) => Some(Relator::In),
        Some(Kind::Not) => Some(Relator::NotIn),
        _ => None,
    }
}

/// The logical operator that a token is.
pub fn logical(kind: Option<Kind>) -> Option<InfixOp>
    ensures { result ≡ read.logical kind }
{
    match kind {
        Some(Kind::And) => Some(InfixOp::And),
        Some(Kind::Or) => Some(InfixOp::Or),
        Some(Kind::Xor) => Some(InfixOp::Xor),
        _ => None,
    }
}

/// The connective of annotation text that a token is.
pub fn connective_of(kind: Option<Kind>) -> Option<InfixOp>
    ensures { result ≡ read.connective_of kind }
{
    match kind {
        Some(Kind::Implication) => Some(InfixOp::Implies),
        Some(Kind::Equivalence) => Some(InfixOp::Equivalent),
        _ => None,
    }
}

fn if_then(kind: Option<Kind>) -> Option<InfixOp>
    ensures { result ≡ read.if_then kind }
{
    match kind {
        Some(Kind::Then) => Some(InfixOp::AndThen),
        _ => None,
    }
}

fn if_else(kind: Option<Kind>) -> Option<InfixOp>
    ensures { result ≡ read.if_else kind }
{
    match kind {
        Some(Kind::Else) => Some(InfixOp::OrElse),
        _ => None,
    }
}

/// The short-circuit form that a logical operator begins, by the token after it.
fn short_circuit(op: InfixOp, kind: Option<Kind>) -> Option<InfixOp>
    ensures { result ≡ read.short_circuit op kind }
{
    match op {
        InfixOp::And => if_then(kind),
        InfixOp::Or => if_else(kind),
        _ => None,
    }
}

fn if_and(op: InfixOp, kind: Option<Kind>) -> Option<InfixOp>
    ensures { result ≡ read.if_and op kind }
{
    match kind {
        Some(Kind::And) => Some(op),
        _ => None,
    }
}

fn if_or(op: InfixOp, kind: Option<Kind>) -> Option<InfixOp>
    ensures { result ≡ read.if_or op kind }
{
    match kind {
        Some(Kind::Or) => Some(op),
        _ => None,
    }
}

fn if_xor(op: InfixOp, kind: Option<Kind>) -> Option<InfixOp>
    ensures { result ≡ read.if_xor op kind }
{
    match kind {
        Some(Kind::Xor) => Some(op),
        _ => None,
    }
}

/// The same logical operator once more, by its first token.
fn same_logical(op: InfixOp, kind: Option<Kind>) -> Option<InfixOp>
    ensures { result ≡ read.same_logical op kind }
{
    match op {
        InfixOp::And | InfixOp::AndThen => if_and(op, kind),
        InfixOp::Or | InfixOp::OrElse => if_or(op, kind),
        InfixOp::Xor => if_xor(op, kind),
        _ => None,
    }
}

impl Chain {
    /// The operator with which the chain goes on, by its first token.
    pub fn operator(self, kind: Option<Kind>) -> Option<InfixOp>
        ensures { result ≡ read.goes_on self kind }
    {
        match self {
            Chain::Multiplying => multiplying(kind),
            Chain::Adding => adding(kind),
            Chain::Logical(op) => same_logical(op, kind),
        }
    }
}

/// The token that an operator is, or its first one.
pub fn kind_of(op: InfixOp) -> Kind
    ensures kind { result ≡ operator_kind op }
    ensures placed { keeps result ≡ ItsPlace }
{
    match op {
        InfixOp::Add => Kind::Plus,
        InfixOp::Subtract => Kind::Minus,
        InfixOp::Multiply => Kind::Asterisk,
        InfixOp::Divide => Kind::Slash,
        InfixOp::Mod => Kind::Mod,
        InfixOp::Rem => Kind::Rem,
        InfixOp::Power => Kind::DoubleAsterisk,
        InfixOp::Equal => Kind::Equal,
        InfixOp::NotEqual => Kind::NotEqual,
        InfixOp::Less => Kind::Less,
        InfixOp::LessOrEqual => Kind::LessOrEqual,
        InfixOp::Greater => Kind::Greater,
        InfixOp::GreaterOrEqual => Kind::GreaterOrEqual,
        InfixOp::And | InfixOp::AndThen => Kind::And,
        InfixOp::Or | InfixOp::OrElse => Kind::Or,
        InfixOp::Xor => Kind::Xor,
        InfixOp::Implies => Kind::Implication,
        InfixOp::Equivalent => Kind::Equivalence,
    }
}

/// The token that an operator before its operand is.
pub fn kind_before(op: PrefixOp) -> Kind
    ensures kind { result ≡ sign_kind op }
    ensures placed { keeps result ≡ ItsPlace }
{
    match op {
        PrefixOp::Plus => Kind::Plus,
        PrefixOp::Minus => Kind::Minus,
        PrefixOp::Abs => Kind::Abs,
        PrefixOp::Not => Kind::Not,
    }
}

/// The layer that an operator has on its right.
pub fn right_layer(op: InfixOp) -> Layer
    ensures { result ≡ layer_on_right (layer_of op) }
{
    match op {
        InfixOp::Power => Layer::Primary,
        InfixOp::Multiply | InfixOp::Divide | InfixOp::Mod | InfixOp::Rem => Layer::Factor,
        InfixOp::Add | InfixOp::Subtract => Layer::Term,
        InfixOp::Equal | InfixOp::NotEqual => Layer::Sum,
        InfixOp::Less | InfixOp::LessOrEqual => Layer::Sum,
        InfixOp::Greater | InfixOp::GreaterOrEqual => Layer::Sum,
        InfixOp::And | InfixOp::Or | InfixOp::Xor => Layer::Relation,
        InfixOp::AndThen | InfixOp::OrElse => Layer::Relation,
        InfixOp::Implies | InfixOp::Equivalent => Layer::Expression,
    }
}

/// The last layer of expressions of text with this mark.
pub fn last_layer(marked: bool) -> Layer
    ensures { result ≡ read.last_layer marked }
{
    if marked {
        return Layer::Predicate;
    }
    Layer::Expression
}

/// The layer of what an operator stands before.
pub fn operand_layer(op: PrefixOp) -> Layer
    ensures { result ≡ layer_of_operand op }
{
    match op {
        PrefixOp::Plus | PrefixOp::Minus => Layer::Term,
        PrefixOp::Abs | PrefixOp::Not => Layer::Primary,
    }
}

/// Takes an operator before its operand, and answers its place.
pub fn place_before(cursor: &mut Cursor<'_>, marked: bool, op: PrefixOp) -> Result<Place, Stop>
    ensures { Reads (reading.expect_place marked (sign_kind op) cursor.old) result cursor.new }
{
    cursor.expect_place(marked, kind_before(op))
}

/// Takes the first token of an operator, and answers its place.
pub fn operator_place(cursor: &mut Cursor<'_>, marked: bool, op: InfixOp) -> Result<Place, Stop>
    ensures { Reads (reading.expect_place marked (operator_kind op) cursor.old) result cursor.new }
{
    cursor.expect_place(marked, kind_of(op))
}

/// Takes the second word of an operator of two.
pub fn second_word(cursor: &mut Cursor<'_>, marked: bool, op: InfixOp) -> Result<(), Stop>
    ensures { Reads (read.second marked op cursor.old) result cursor.new }
{
    match op {
        InfixOp::AndThen => cursor.expect(marked, Kind::Then),
        InfixOp::OrElse => cursor.expect(marked, Kind::Else),
        _ => Ok(()),
    }
}

/// The operator that a logical operator begins, with its second word.
#[tactic(auto, unfolding(crate::specs::Operators::whole_operator))]
pub fn whole_operator(cursor: &mut Cursor<'_>, marked: bool, op: InfixOp) -> Result<InfixOp, Stop>
    ensures { Reads (read.whole_operator marked op cursor.old) result cursor.new }
{
    match short_circuit(op, cursor.peek(marked)) {
        None => Ok(op),
        Some(whole) => {
            second_word(cursor, marked, whole)?;
            Ok(whole)
        }
    }
}
