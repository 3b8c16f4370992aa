// The names of terms and sequents.
ghost use Rattle.std.specs.Prelude.{◌≡◌, ◌↔◌, suc, IfOk, IsTrue};
ghost use Rattle.std.specs.List.{list_all, list_any, flat_map};
ghost use Rattle.spx_term.specs.declared.term.Term.TheVariants as term;
ghost use Rattle.spx_term.specs.Equality.{same_name, same_sort};
ghost use Rattle.spx_term.specs.Substitution.{is_free};
ghost use Rattle.spx_kernel.specs.Names.{names_of, is_name_of, is_over, number_after, greatest, greatest_in, new_name, gives_truth, is_truth_type, unary_truth, binary_truth, ternary_truth, is_boolean};

use spx_term::{
    BinaryOp, BoundVariable, Component, MOST_LEVELS, Name, OpenedVariable, Sequent, Sort, Symbol,
    Term, TermOp, TermPrefix, TernaryOp, UnaryOp,
};
use std::alloc::AllocError;

/// Whether two names are equal.
fn equals(a: Name, b: Name) -> bool
    ensures { IsTrue result ↔ (a ≡ b) }
{
    a == b
}

/// The same, and as a test.
#[tactic(auto, using(spx_term::proofs::Equality::same_laws))]
pub(crate) fn is_same(a: Name, b: Name) -> bool
    ensures equal { IsTrue result ↔ (a ≡ b) }
    ensures test { result ≡ same_name a b }
{
    equals(a, b)
}

/// Whether a symbol names a value of the program, and not the variable of a quantifier.
fn is_free(symbol: Symbol) -> bool
    ensures { result ≡ is_free symbol }
{
    match symbol {
        Symbol::Now(_) => true,
        Symbol::Entry(_) => true,
        Symbol::First(_) => true,
        Symbol::Last(_) => true,
        Symbol::New(_) => true,
        Symbol::Bound(_) => false,
    }
}

/// Whether a term has this name, where the stack has room for so many levels.
#[cycle(has_name)]
#[tactic(auto, using(crate::proofs::NameForms::any_forms))]
fn has_name(term: &Term, name: Name, room: u32) -> Result<bool, AllocError>
    ensures { IfOk result (λ yes. yes ≡ list_any (same_name name) (names_of term.now)) }
{
    if room == 0 {
        return Err(AllocError);
    }
    match term {
        Term::Number(_) => Ok(false),
        Term::Truth(_) => Ok(false),
        Term::Variable(other) => Ok(is_free(other.symbol) && is_same(name, *other)),
        Term::Blank(_) => Ok(false),
        Term::Prefix(_, operand) => has_name(operand.get(), name, room - 1),
        Term::Infix(_, left, right) => {
            let first = has_name(left.get(), name, room - 1)?;
            let second = has_name(right.get(), name, room - 1)?;
            Ok(first || second)
        }
        Term::Unary(_, operand) => has_name(operand.get(), name, room - 1),
        Term::Binary(_, left, right) => {
            let first = has_name(left.get(), name, room - 1)?;
            let second = has_name(right.get(), name, room - 1)?;
            Ok(first || second)
        }
        Term::Ternary(_, first, second, third) => {
            let first = has_name(first.get(), name, room - 1)?;
            let second = has_name(second.get(), name, room - 1)?;
            let third = has_name(third.get(), name, room - 1)?;
            Ok(first || (second || third))
        }
    }
}

/// Whether one of the terms has this name.
#[tactic(auto, using(crate::proofs::NameForms::several_laws))]
fn one_has(terms: &[Term], name: Name) -> Result<bool, AllocError>
    ensures { IfOk result (λ yes. yes ≡ list_any (same_name name) (flat_map names_of terms.now)) }
{
    for term in terms {
        if has_name(term, name, MOST_LEVELS)? {
            return Ok(true);
        }
    }
    Ok(false)
}

/// Whether a sequent has this name.
#[tactic(auto, using(crate::proofs::NameForms::name_of_is))]
fn is_name_of(sequent: &Sequent, name: Name) -> Result<bool, AllocError>
    ensures { IfOk result (λ yes. yes ≡ is_name_of sequent.now name) }
{
    let here = has_name(&sequent.goal, name, MOST_LEVELS)?;
    let there = one_has(sequent.hyps.as_slice(), name)?;
    Ok(here || there)
}

/// Whether a sequent has this name, if it is not that of a quantifier.
#[tactic(auto, using(crate::proofs::NameForms::all_forms))]
fn allows(sequent: &Sequent, name: Name) -> Result<bool, AllocError>
    ensures { IfOk result (λ yes. yes ≡ list_all (is_name_of sequent.now) (names_of (term.Variable name))) }
{
    if is_free(name.symbol) {
        return is_name_of(sequent, name);
    }
    Ok(true)
}

/// Whether a sequent has each name of a term, where the stack has room for so many levels.
#[cycle(has_names)]
#[tactic(auto, using(crate::proofs::NameForms::all_forms))]
fn has_names(term: &Term, sequent: &Sequent, room: u32) -> Result<bool, AllocError>
    ensures { IfOk result (λ yes. yes ≡ list_all (is_name_of sequent.now) (names_of term.now)) }
{
    if room == 0 {
        return Err(AllocError);
    }
    match term {
        Term::Number(_) => Ok(true),
        Term::Truth(_) => Ok(true),
        Term::Variable(name) => allows(sequent, *name),
        Term::Blank(_) => Ok(true),
        Term::Prefix(_, operand) => has_names(operand.get(), sequent, room - 1),
        Term::Infix(_, left, right) => {
            let first = has_names(left.get(), sequent, room - 1)?;
            let second = has_names(right.get(), sequent, room - 1)?;
            Ok(first && second)
        }
        Term::Unary(_, operand) => has_names(operand.get(), sequent, room - 1),
        Term::Binary(_, left, right) => {
            let first = has_names(left.get(), sequent, room - 1)?;
            let second = has_names(right.get(), sequent, room - 1)?;
            Ok(first && second)
        }
        Term::Ternary(_, first, second, third) => {
            let first = has_names(first.get(), sequent, room - 1)?;
            let second = has_names(second.get(), sequent, room - 1)?;
            let third = has_names(third.get(), sequent, room - 1)?;
            Ok(first && (second && third))
        }
    }
}

/// Whether a term has no other names than a sequent.
#[tactic(auto, unfolding(crate::specs::Names::is_over))]
pub(crate) fn is_over(sequent: &Sequent, term: &Term) -> Result<bool, AllocError>
    ensures { IfOk result (λ yes. yes ≡ is_over sequent.now term.now) }
{
    has_names(term, sequent, MOST_LEVELS)
}

/// The number after `!`; other names have 0.
fn number_after(symbol: Symbol) -> usize
    ensures { result ≡ number_after symbol }
{
    match symbol {
        Symbol::New(opened) => opened.number,
        Symbol::Now(_) => 0,
        Symbol::Entry(_) => 0,
        Symbol::First(_) => 0,
        Symbol::Last(_) => 0,
        Symbol::Bound(_) => 0,
    }
}

/// The greatest number after `!` in a term, where the stack has room for so many levels.
#[cycle(greatest)]
#[tactic(auto, using(crate::proofs::NameForms::greatest_forms))]
fn greatest(term: &Term, room: u32) -> Result<usize, AllocError>
    ensures { IfOk result (λ k. k ≡ greatest term.now) }
{
    if room == 0 {
        return Err(AllocError);
    }
    match term {
        Term::Number(_) => Ok(0),
        Term::Truth(_) => Ok(0),
        Term::Variable(name) => Ok(number_after(name.symbol)),
        Term::Blank(_) => Ok(0),
        Term::Prefix(_, operand) => greatest(operand.get(), room - 1),
        Term::Infix(_, left, right) => {
            let first = greatest(left.get(), room - 1)?;
            let second = greatest(right.get(), room - 1)?;
            Ok(first.max(second))
        }
        Term::Unary(_, operand) => greatest(operand.get(), room - 1),
        Term::Binary(_, left, right) => {
            let first = greatest(left.get(), room - 1)?;
            let second = greatest(right.get(), room - 1)?;
            Ok(first.max(second))
        }
        Term::Ternary(_, first, second, third) => {
            let first = greatest(first.get(), room - 1)?;
            let second = greatest(second.get(), room - 1)?;
            let third = greatest(third.get(), room - 1)?;
            Ok(first.max(second.max(third)))
        }
    }
}

/// The greatest number after `!` in several terms.
#[tactic(auto, using(crate::proofs::NameForms::several_laws))]
fn greatest_in(terms: &[Term]) -> Result<usize, AllocError>
    ensures { IfOk result (λ k. k ≡ greatest_in terms.now) }
{
    let mut most = 0usize;
    for term in terms {
        let here = greatest(term, MOST_LEVELS)?;
        most = most.max(here);
    }
    Ok(most)
}

/// The name for the variable of a quantifier that a sequent does not have yet. Where its number would be past the greatest one,
/// it is refused as where memory runs out.
#[tactic(auto, unfolding(crate::specs::Names::new_name))]
pub(crate) fn new_name(sequent: &Sequent, bound: BoundVariable) -> Result<Name, AllocError>
    ensures { IfOk result (λ name. name ≡ new_name sequent.now bound) }
{
    let here = greatest(&sequent.goal, MOST_LEVELS)?;
    let there = greatest_in(sequent.hyps.as_slice())?;
    let most = here.max(there);
    if most == usize::MAX {
        return Err(AllocError);
    }
    let number = most + 1;
    let variable = bound.variable;
    Ok(Name {
        symbol: Symbol::New(OpenedVariable { number, variable }),
        sort: Sort::Integer,
    })
}

/// Whether an operation on well-sorted operands is a truth value.
fn gives_truth(op: TermOp) -> bool
    ensures { result ≡ gives_truth op }
{
    match op {
        TermOp::Add | TermOp::Subtract | TermOp::Multiply => false,
        TermOp::Divide | TermOp::Rem | TermOp::Mod => false,
        TermOp::Power => false,
        TermOp::Equal | TermOp::NotEqual => true,
        TermOp::Less | TermOp::LessOrEqual => true,
        TermOp::Greater | TermOp::GreaterOrEqual => true,
        TermOp::And | TermOp::Or | TermOp::Implies | TermOp::Equivalent => true,
    }
}

/// Whether the values of this type are truth values.
fn is_truth_type(component: Component) -> bool
    ensures { result ≡ is_truth_type component }
{
    match component {
        Component::Boolean => true,
        Component::Integer(_, _) => false,
        Component::Composite(_) => false,
    }
}

/// Whether an operation on one term is a truth value.
fn unary_truth(op: UnaryOp) -> bool
    ensures { result ≡ unary_truth op }
{
    match op {
        UnaryOp::Field(_, component) => is_truth_type(component),
        UnaryOp::In(_) => true,
        UnaryOp::Others(_) => false,
    }
}

/// Whether an operation on a composite value and another term is a truth value.
fn binary_truth(op: BinaryOp) -> bool
    ensures { result ≡ binary_truth op }
{
    match op {
        BinaryOp::Element(array) => is_truth_type(array.element),
        BinaryOp::Update(_) => false,
        BinaryOp::Elements(_, _, _) => false,
        BinaryOp::Field(_) => false,
    }
}

/// Whether an operation on three terms is a truth value.
fn ternary_truth(op: TernaryOp) -> bool
    ensures { result ≡ ternary_truth op }
{
    match op {
        TernaryOp::Quantified(_, _) => true,
        TernaryOp::Update(_) => false,
    }
}

/// Whether a sort is that of truth values.
fn is_boolean_sort(sort: Sort) -> bool
    ensures { IsTrue result ↔ (sort ≡ Sort.Boolean) }
{
    match sort {
        Sort::Boolean => true,
        Sort::Integer => false,
        Sort::Composite(_) => false,
    }
}

/// The same by the test.
#[tactic(auto, using(crate::proofs::NameForms::sort_laws))]
fn has_truth_sort(sort: Sort) -> bool
    ensures { result ≡ same_sort sort Sort.Boolean }
{
    is_boolean_sort(sort)
}

/// Whether a well-sorted term is a truth value.
#[tactic(auto, using(crate::proofs::Layers::layers), unfolding(crate::specs::Names::is_boolean))]
pub(crate) fn is_boolean(term: &Term) -> bool
    ensures { result ≡ is_boolean term.now }
{
    match term {
        Term::Truth(_) => true,
        Term::Variable(name) => has_truth_sort(name.sort),
        Term::Prefix(TermPrefix::Not, _) => true,
        Term::Prefix(TermPrefix::Minus, _) => false,
        Term::Prefix(TermPrefix::Abs, _) => false,
        Term::Infix(op, _, _) => gives_truth(*op),
        Term::Unary(op, _) => unary_truth(*op.get()),
        Term::Binary(op, _, _) => binary_truth(*op.get()),
        Term::Ternary(op, _, _, _) => ternary_truth(*op.get()),
        Term::Number(_) => false,
        Term::Blank(_) => false,
    }
}
