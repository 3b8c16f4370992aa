// Folds of terms by their ids.
ghost use Rattle.std.specs.Prelude.{◌≡◌, ◌<◌, length, IfOk, OnErr};
ghost use Rattle.spx_term.specs.declared.term.Term.TheVariants as term;
ghost use Rattle.spx_term.specs.declared.term.TermPrefix.TheVariants as sign;
ghost use Rattle.spx_term.specs.Equality.{same_term};
ghost use Rattle.spx_term.specs.Negation.{form_of, negated};
ghost use Rattle.spx_term.specs.Folding.{literal_of, term_of, prefixed, taken, element_or, simplified, simplified_unary, simplified_binary, simplified_ternary, folded};
ghost use Rattle.spx_arena.specs.Sharing.{tree_at, Grows};
ghost use Rattle.spx_simplify.specs.Folds.{AreFolds, Ends, Leads, id_at};
ghost use Rattle.spx_term.specs.declared.reading.Reading.TheVariants as reading;
ghost use Rattle.spx_arena.specs.Sharing.{Adds};

use spx_arena::{Node, TermId, Terms};
use spx_term::{
    ArrayType, BinaryOp, Component, FieldName, Found, Literal, Reading, Simplification, TermForm,
    TermOp, TermPrefix, TernaryOp, UnaryOp, binary_form, compute_prefix, found_in_binary,
    found_in_ternary, found_in_unary, is_empty, of_none, opposite, simpler_form, unary_form,
};
use sqlite_items::Items;
use std::alloc::{AllocError, Global};

/// The value of a term that is a literal.
#[tactic(auto, using(crate::proofs::Folds::literal_forms))]
pub fn literal_at(terms: &Terms, id: TermId) -> Option<Literal>
    requires { id.0 < length terms.now }
    ensures { result ≡ literal_of (tree_at terms.now id) }
{
    match terms.node(id) {
        Node::Number(value) => Some(Literal::Number(value)),
        Node::Truth(value) => Some(Literal::Truth(value)),
        _ => None,
    }
}

/// Whether two terms are equal.
fn is_same(terms: &Terms, left: TermId, right: TermId) -> bool
    requires { (left.0 < length terms.now) × (right.0 < length terms.now) }
    ensures { result ≡ same_term (tree_at terms.now left) (tree_at terms.now right) }
{
    terms.distinct();
    left.0 == right.0
}

/// Whether the right term is the negation of the left one.
fn is_negation(terms: &Terms, left: TermId, right: TermId) -> bool
    requires { (left.0 < length terms.now) × (right.0 < length terms.now) }
    ensures { result ≡ same_term (term.Prefix sign.Not (tree_at terms.now left)) (tree_at terms.now right) }
{
    match terms.node(right) {
        Node::Prefix(op, operand) => match op {
            TermPrefix::Not => is_same(terms, left, operand),
            TermPrefix::Minus => false,
            TermPrefix::Abs => false,
        },
        Node::Number(_) => false,
        Node::Truth(_) => false,
        Node::Variable(_) => false,
        Node::Infix(_, _, _) => false,
        Node::Blank(_) => false,
        Node::Unary(_, _) => false,
        Node::Binary(_, _, _) => false,
        Node::Ternary(_, _, _, _) => false,
    }
}

/// The form of a term.
#[tactic(auto, using(spx_term::proofs::NegationLaws::forms))]
fn form_at(terms: &Terms, id: TermId) -> TermForm
    requires { id.0 < length terms.now }
    ensures { result ≡ form_of (tree_at terms.now id) }
{
    match terms.node(id) {
        Node::Number(_) => TermForm::Number,
        Node::Truth(_) => TermForm::Truth,
        Node::Variable(name) => TermForm::Variable(name.sort),
        Node::Prefix(op, _) => TermForm::Prefix(op),
        Node::Infix(op, _, _) => TermForm::Infix(op),
        Node::Blank(_) => TermForm::Other,
        Node::Unary(op, _) => unary_form(op),
        Node::Binary(op, _, _) => binary_form(op),
        Node::Ternary(_, _, _, _) => TermForm::Other,
    }
}

/// The negation of a term that is folded and no literal.
#[tactic(auto, using(spx_term::proofs::NegationLaws::negated_forms, crate::proofs::Folds::adds_laws))]
fn negated(terms: &mut Terms, operand: TermId) -> Result<TermId, AllocError>
    requires { operand.0 < length terms.old }
    ensures added { IfOk result (λ id. Adds terms.old terms.new id (negated (tree_at terms.old operand))) }
    ensures refused { OnErr result (terms.new ≡ terms.old) }
{
    match terms.node(operand) {
        Node::Number(_) => terms.make(Node::Prefix(TermPrefix::Not, operand)),
        Node::Truth(_) => terms.make(Node::Prefix(TermPrefix::Not, operand)),
        Node::Variable(_) => terms.make(Node::Prefix(TermPrefix::Not, operand)),
        Node::Prefix(op, inner) => match op {
            TermPrefix::Not => Ok(inner),
            TermPrefix::Minus => terms.make(Node::Prefix(TermPrefix::Not, operand)),
            TermPrefix::Abs => terms.make(Node::Prefix(TermPrefix::Not, operand)),
        },
        Node::Infix(op, left, right) => match opposite(op, form_at(terms, left)) {
            Some(op) => terms.infix(op, left, right),
            None => terms.make(Node::Prefix(TermPrefix::Not, operand)),
        },
        Node::Blank(_) => terms.make(Node::Prefix(TermPrefix::Not, operand)),
        Node::Unary(_, _) => terms.make(Node::Prefix(TermPrefix::Not, operand)),
        Node::Binary(_, _, _) => terms.make(Node::Prefix(TermPrefix::Not, operand)),
        Node::Ternary(_, _, _, _) => terms.make(Node::Prefix(TermPrefix::Not, operand)),
    }
}

/// An operation on one operand, which is folded.
#[tactic(auto, unfolding(spx_term::specs::Folding::prefixed), using(crate::proofs::Folds::adds_laws))]
fn prefixed(terms: &mut Terms, op: TermPrefix, operand: TermId) -> Result<TermId, AllocError>
    requires { operand.0 < length terms.old }
    ensures added { IfOk result (λ id. Adds terms.old terms.new id (prefixed op (tree_at terms.old operand))) }
    ensures refused { OnErr result (terms.new ≡ terms.old) }
{
    match (op, literal_at(terms, operand)) {
        (_, Some(value)) => match compute_prefix(op, value) {
            Some(value) => terms.literal(value),
            None => terms.make(Node::Prefix(op, operand)),
        },
        (TermPrefix::Minus, None) => terms.make(Node::Prefix(op, operand)),
        (TermPrefix::Abs, None) => terms.make(Node::Prefix(op, operand)),
        (TermPrefix::Not, None) => negated(terms, operand),
    }
}

/// An operation whose operands are folded.
#[tactic(auto, unfolding(spx_term::specs::Folding::simplified), using(crate::proofs::Folds::adds_laws))]
fn simplified(
    terms: &mut Terms,
    op: TermOp,
    left: TermId,
    right: TermId,
) -> Result<TermId, AllocError>
    requires { (left.0 < length terms.old) × (right.0 < length terms.old) }
    ensures added { IfOk result (λ id. Adds terms.old terms.new id (simplified op (tree_at terms.old left) (tree_at terms.old right))) }
    ensures refused { OnErr result (terms.new ≡ terms.old) }
{
    match simpler_form(op, literal_at(terms, left), literal_at(terms, right)) {
        Simplification::Left => Ok(left),
        Simplification::Right => Ok(right),
        Simplification::Known(value) => terms.literal(value),
        Simplification::NotLeft => prefixed(terms, TermPrefix::Not, left),
        Simplification::NotRight => prefixed(terms, TermPrefix::Not, right),
        Simplification::OfItself(value) => {
            if is_same(terms, left, right) {
                terms.make(Node::Truth(value))
            } else {
                terms.infix(op, left, right)
            }
        }
        Simplification::OfNegation => {
            if is_negation(terms, left, right) {
                terms.make(Node::Truth(true))
            } else {
                terms.infix(op, left, right)
            }
        }
        Simplification::Operation => terms.infix(op, left, right),
    }
}

/// What reading a term comes to at its own operation.
#[derive(Clone, Copy)]
enum Next {
    /// It is this part.
    Part(TermId),
    /// It is what is read of this earlier term.
    Before(TermId),
    /// It is a term that reads.
    Whole,
}

/// What reading a term comes to.
#[derive(Clone, Copy)]
enum End {
    /// It is this term.
    Part(TermId),
    /// It is a term that reads this one.
    Whole(TermId),
}

/// What reading a term comes to at its own operation.
#[tactic(auto, using(spx_term::specs::Folding::taken_forms))]
fn own_step(terms: &Terms, reading: Reading, at: TermId) -> Next
    requires { at.0 < length terms.now }
    ensures { Leads terms.now reading at result }
{
    match terms.node(at) {
        Node::Number(_) => Next::Whole,
        Node::Truth(_) => Next::Whole,
        Node::Variable(_) => Next::Whole,
        Node::Blank(_) => Next::Whole,
        Node::Prefix(_, _) => Next::Whole,
        Node::Infix(_, _, _) => Next::Whole,
        Node::Unary(op, operand) => match found_in_unary(reading, op) {
            Found::Last => Next::Part(operand),
            Found::Before => Next::Whole,
            Found::Unseen => Next::Whole,
        },
        Node::Binary(op, left, right) => match found_in_binary(reading, op) {
            Found::Last => Next::Part(right),
            Found::Before => Next::Before(left),
            Found::Unseen => Next::Whole,
        },
        Node::Ternary(op, first, second, third) => {
            match found_in_ternary(reading, op, literal_at(terms, second)) {
                Found::Last => Next::Part(third),
                Found::Before => Next::Before(first),
                Found::Unseen => Next::Whole,
            }
        }
    }
}

/// What reading a term comes to. A chain of updates is followed by a loop, since it may be as long as a body.
fn reached(terms: &Terms, reading: Reading, id: TermId) -> End
    requires { id.0 < length terms.now }
    ensures { Ends terms.now reading id result }
{
    let mut at = id;
    'chain: loop {
        match own_step(terms, reading, at) {
            Next::Part(part) => return End::Part(part),
            Next::Before(before) => {
                at = before;
                continue 'chain;
            }
            Next::Whole => return End::Whole(at),
        }
    }
}

/// A field of a folded record.
#[tactic(auto, using(crate::proofs::Folds::adds_laws))]
fn field_of(
    terms: &mut Terms,
    field: FieldName,
    component: Component,
    id: TermId,
) -> Result<TermId, AllocError>
    requires { id.0 < length terms.old }
    ensures added { IfOk result (λ r. Adds terms.old terms.new r (taken (reading.Field field component) (tree_at terms.old id))) }
    ensures refused { OnErr result (terms.new ≡ terms.old) }
{
    match reached(terms, Reading::Field(field, component), id) {
        End::Part(part) => Ok(part),
        End::Whole(whole) => terms.make(Node::Unary(UnaryOp::Field(field, component), whole)),
    }
}

/// The element of a folded array at an index that is a literal in range.
#[tactic(auto, using(crate::proofs::Folds::adds_laws))]
fn element_of(
    terms: &mut Terms,
    array: ArrayType,
    id: TermId,
    index: TermId,
    at: i128,
) -> Result<TermId, AllocError>
    requires within { (id.0 < length terms.old) × (index.0 < length terms.old) }
    requires literal { tree_at terms.old index ≡ term.Number at }
    ensures added { IfOk result (λ r. Adds terms.old terms.new r (taken (reading.Element array at) (tree_at terms.old id))) }
    ensures refused { OnErr result (terms.new ≡ terms.old) }
{
    match reached(terms, Reading::Element(array, at), id) {
        End::Part(part) => Ok(part),
        End::Whole(whole) => terms.make(Node::Binary(BinaryOp::Element(array), whole, index)),
    }
}

/// An operation on one folded term.
#[tactic(auto, unfolding(spx_term::specs::Folding::simplified_unary), using(crate::proofs::Folds::adds_laws))]
fn simplified_unary(terms: &mut Terms, op: UnaryOp, operand: TermId) -> Result<TermId, AllocError>
    requires { operand.0 < length terms.old }
    ensures added { IfOk result (λ id. Adds terms.old terms.new id (simplified_unary op (tree_at terms.old operand))) }
    ensures refused { OnErr result (terms.new ≡ terms.old) }
{
    match op {
        UnaryOp::Field(field, component) => { field_of(terms, field, component, operand) }
        UnaryOp::In(id) => terms.make(Node::Unary(UnaryOp::In(id), operand)),
        UnaryOp::Others(id) => terms.make(Node::Unary(UnaryOp::Others(id), operand)),
    }
}

/// The element of a folded array at a folded index.
#[tactic(auto, using(crate::proofs::Folds::adds_laws))]
fn element(
    terms: &mut Terms,
    array: ArrayType,
    left: TermId,
    right: TermId,
) -> Result<TermId, AllocError>
    requires { (left.0 < length terms.old) × (right.0 < length terms.old) }
    ensures added { IfOk result (λ id. Adds terms.old terms.new id (element_or (literal_of (tree_at terms.old right)) array (tree_at terms.old left) (tree_at terms.old right))) }
    ensures refused { OnErr result (terms.new ≡ terms.old) }
{
    match literal_at(terms, right) {
        Some(Literal::Number(index)) => {
            if array.has_index(index) {
                return element_of(terms, array, left, right, index);
            }
            terms.make(Node::Binary(BinaryOp::Element(array), left, right))
        }
        Some(Literal::Truth(_)) => {
            terms.make(Node::Binary(BinaryOp::Element(array), left, right))
        }
        None => terms.make(Node::Binary(BinaryOp::Element(array), left, right)),
    }
}

/// An operation on a folded composite value and another folded term.
#[tactic(auto, unfolding(spx_term::specs::Folding::simplified_binary), using(crate::proofs::Folds::adds_laws))]
fn simplified_binary(
    terms: &mut Terms,
    op: BinaryOp,
    left: TermId,
    right: TermId,
) -> Result<TermId, AllocError>
    requires { (left.0 < length terms.old) × (right.0 < length terms.old) }
    ensures added { IfOk result (λ id. Adds terms.old terms.new id (simplified_binary op (tree_at terms.old left) (tree_at terms.old right))) }
    ensures refused { OnErr result (terms.new ≡ terms.old) }
{
    match op {
        BinaryOp::Element(array) => element(terms, array, left, right),
        BinaryOp::Update(field) => terms.make(Node::Binary(BinaryOp::Update(field), left, right)),
        BinaryOp::Elements(id, low, high) => {
            terms.make(Node::Binary(BinaryOp::Elements(id, low, high), left, right))
        }
        BinaryOp::Field(field) => terms.make(Node::Binary(BinaryOp::Field(field), left, right)),
    }
}

/// An operation on three folded terms.
#[tactic(auto, unfolding(spx_term::specs::Folding::simplified_ternary), using(crate::proofs::Folds::adds_laws))]
fn simplified_ternary(
    terms: &mut Terms,
    op: TernaryOp,
    first: TermId,
    second: TermId,
    third: TermId,
) -> Result<TermId, AllocError>
    requires { (first.0 < length terms.old) × (second.0 < length terms.old) × (third.0 < length terms.old) }
    ensures added { IfOk result (λ id. Adds terms.old terms.new id (simplified_ternary op (tree_at terms.old first) (tree_at terms.old second) (tree_at terms.old third))) }
    ensures refused { OnErr result (terms.new ≡ terms.old) }
{
    match op {
        TernaryOp::Update(id) => {
            terms.make(Node::Ternary(TernaryOp::Update(id), first, second, third))
        }
        TernaryOp::Quantified(quantifier, variable) => {
            if is_empty(literal_at(terms, first), literal_at(terms, second)) {
                return terms.make(Node::Truth(of_none(quantifier)));
            }
            let op = TernaryOp::Quantified(quantifier, variable);
            terms.make(Node::Ternary(op, first, second, third))
        }
    }
}

/// The fold of a term, where the folds of all earlier terms are there.
#[tactic(auto, using(crate::proofs::Folds::fold_laws))]
fn fold_node(terms: &mut Terms, folds: &[TermId], at: TermId) -> Result<TermId, AllocError>
    requires folds { AreFolds terms.old folds.now }
    requires next { at.0 ≡ length folds.now }
    requires within { at.0 < length terms.old }
    ensures added { IfOk result (λ id. Adds terms.old terms.new id (folded (tree_at terms.old at))) }
    ensures refused { OnErr result (terms.new ≡ terms.old) }
{
    match terms.node(at) {
        Node::Number(_) => Ok(at),
        Node::Truth(_) => Ok(at),
        Node::Variable(_) => Ok(at),
        Node::Prefix(op, operand) => {
            let id = prefixed(terms, op, folds[operand.0])?;
            Ok(id)
        }
        Node::Infix(op, left, right) => {
            let id = simplified(terms, op, folds[left.0], folds[right.0])?;
            Ok(id)
        }
        Node::Blank(_) => Ok(at),
        Node::Unary(op, operand) => {
            let id = simplified_unary(terms, op, folds[operand.0])?;
            Ok(id)
        }
        Node::Binary(op, left, right) => {
            let id = simplified_binary(terms, op, folds[left.0], folds[right.0])?;
            Ok(id)
        }
        Node::Ternary(op, first, second, third) => {
            let id = simplified_ternary(
                terms,
                op,
                folds[first.0],
                folds[second.0],
                folds[third.0],
            )?;
            Ok(id)
        }
    }
}

/// The fold of each of the terms.
pub fn fold_terms(alloc: Global, terms: &mut Terms) -> Result<Items<TermId>, AllocError>
    ensures grown { Grows terms.old terms.new }
    ensures all { IfOk result (λ folds. length folds ≡ length terms.old) }
    ensures folds { IfOk result (λ folds. AreFolds terms.new folds) }
{
    let count = terms.len();
    let mut folds = Items::new(alloc);
    for at in 0..count {
        let folded = fold_node(terms, folds.as_slice(), TermId(at))?;
        folds.push(folded)?;
    }
    Ok(folds)
}

/// The fold of one of the first terms.
pub fn fold_at(folds: &[TermId], id: TermId) -> TermId
    requires { id.0 < length folds.now }
    ensures { result ≡ id_at folds.now id.0 }
{
    folds[id.0]
}
