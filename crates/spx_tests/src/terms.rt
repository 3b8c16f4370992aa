// Terms, sequents, facts and linear forms, with ample memory.
ghost use Rattle.std.specs.Prelude.{◌≢◌, [], IfOk};

use spx_arena::{FactLists, Node, Terms};
use spx_linear::{Form, LinearFault, is_comparison, linear_form, refutes};
use spx_simplify::closes;
use spx_term::{CondKind, Condition, Name, Sequent, Sort, Symbol, Term, TermOp, fold, same, subst};
use spx_text::{Place, Text};
use sqlite_items::{Boxed, Items};
use std::alloc::{AllocError, Global};
use std::test::Fail;

const FIRST: i128 = -2147483648;

const LAST: i128 = 2147483647;

const GREATEST: i128 = 170141183460469231731687303715884105727;

/// What the fold of an operation is.
#[derive(Clone, Copy)]
enum Wanted {
    X,
    Number(i128),
    Truth(bool),
    Itself,
}

const X: Name = Name {
    symbol: Symbol::Now(0),
    sort: Sort::Integer,
};

/// X, or a literal.
fn operand(literal: Option<i128>) -> Term {
    match literal {
        Some(value) => Term::Number(value),
        None => Term::Variable(X),
    }
}

fn operation(
    alloc: Global,
    left: Option<i128>,
    op: TermOp,
    right: Option<i128>,
) -> Result<Boxed<Term>, AllocError> {
    Boxed::new(
        alloc,
        Term::infix(alloc, op, operand(left), operand(right))?,
    )
}

fn is_wanted(folded: &Term, operation: &Term, wanted: Wanted) -> bool {
    match wanted {
        Wanted::X => same(folded, &operand(None)),
        Wanted::Number(value) => same(folded, &Term::Number(value)),
        Wanted::Truth(value) => same(folded, &Term::Truth(value)),
        Wanted::Itself => same(folded, operation),
    }
}

/// Whether the fold of an operation is what is wanted.
fn folds_to(
    alloc: Global,
    (left, op, right): (Option<i128>, TermOp, Option<i128>),
    wanted: Wanted,
) -> Result<bool, AllocError> {
    let operation = operation(alloc, left, op, right)?;
    let folded = fold(alloc, operation.get())?;
    Ok(is_wanted(&folded, operation.get(), wanted))
}

#[test]
fn folds_an_operation(rt: HostRuntime) -> Result<(), Fail> {
    for (operation, wanted) in [
        ((Some(2), TermOp::Add, Some(3)), Wanted::Number(5)),
        ((Some(2), TermOp::Subtract, Some(3)), Wanted::Number(-1)),
        ((Some(GREATEST), TermOp::Add, Some(1)), Wanted::Itself),
        ((None, TermOp::Add, Some(0)), Wanted::X),
        ((Some(0), TermOp::Subtract, None), Wanted::Itself),
        ((Some(2), TermOp::Less, Some(3)), Wanted::Truth(true)),
        ((None, TermOp::NotEqual, None), Wanted::Truth(false)),
    ] {
        assert!(rt; folds_to(rt.alloc(), operation, wanted)?);
    }
    Ok(())
}

#[test]
fn puts_a_number_in_the_place_of_a_name(rt: HostRuntime) -> Result<(), Fail> {
    let alloc = rt.alloc();
    let sum = operation(alloc, None, TermOp::Add, Some(2))?;
    let wanted = operation(alloc, Some(5), TermOp::Add, Some(2))?;
    let result = Boxed::new(alloc, subst(alloc, sum.get(), X, &Term::Number(5))?)?;
    assert!(rt; same(result.get(), wanted.get()));
    Ok(())
}

/// The form of `X op bound`.
fn form(alloc: Global, op: TermOp, bound: i128) -> Result<Form, LinearFault> {
    let comparison = operation(alloc, None, op, Some(bound))?;
    if !is_comparison(comparison.get()) {
        return Err(LinearFault::TooWide);
    }
    linear_form(alloc, comparison.get())
}

/// Whether `X >= low` and `X <= high` are refuted by their sum.
fn refutes_range(alloc: Global, low: i128, high: i128) -> Result<bool, LinearFault> {
    let mut forms = Items::new(alloc);
    forms.push(form(alloc, TermOp::GreaterOrEqual, low)?)?;
    forms.push(form(alloc, TermOp::LessOrEqual, high)?)?;
    refutes(alloc, forms.as_slice(), [1, 1].as_slice())
}

#[test]
fn refutes_by_a_certificate(rt: HostRuntime) {
    assert_eq!(rt; refutes_range(rt.alloc(), 1, 0), Ok(true));
    assert_eq!(rt; refutes_range(rt.alloc(), 0, 1), Ok(false));
}

/// Whether `(X sign operand) op bound` closes under hypotheses `X op value`.
fn closes_comparison(
    alloc: Global,
    facts: &[(TermOp, i128)],
    (sign, operand): (TermOp, i128),
    (op, bound): (TermOp, i128),
) -> Result<bool, AllocError> {
    let mut hyps = Items::new(alloc);
    for (op, value) in facts {
        hyps.push(operation(alloc, None, *op, Some(*value))?.into_inner())?;
    }
    let left = operation(alloc, None, sign, Some(operand))?;
    let goal = Term::infix(alloc, op, left.into_inner(), Term::Number(bound))?;
    closes(alloc, &Sequent { hyps, goal })
}

#[test]
fn closes_by_intervals(rt: HostRuntime) -> Result<(), Fail> {
    use TermOp::{Add, Equal, GreaterOrEqual, Less, LessOrEqual, Subtract};
    let in_range = [(GreaterOrEqual, FIRST), (LessOrEqual, LAST)];
    let below_last = [(GreaterOrEqual, FIRST), (LessOrEqual, LAST), (Less, LAST)];
    for (facts, sum, comparison, closed) in [
        (in_range.as_slice(), (Add, 1), (LessOrEqual, LAST), false),
        (below_last.as_slice(), (Add, 1), (LessOrEqual, LAST), true),
        (below_last.as_slice(), (Subtract, 1), (Less, LAST), true),
        ([(Equal, 5)].as_slice(), (Add, 1), (Equal, 6), true),
        (
            [(LessOrEqual, GREATEST)].as_slice(),
            (Add, 1),
            (LessOrEqual, GREATEST),
            false,
        ),
    ] {
        let answer = closes_comparison(rt.alloc(), facts, sum, comparison)?;
        assert_eq!(rt; answer, closed);
    }
    Ok(())
}

/// A condition with the goals `True` and `False`.
fn condition(alloc: Global) -> Result<Boxed<Condition>, AllocError>
    ensures { IfOk result (λ c. c.goals ≢ []) }
{
    let mut goals = Items::new(alloc);
    goals.push(Term::Truth(true))?;
    goals.push(Term::Truth(false))?;
    let name = Text::new(alloc, b"P.1")?;
    let place = Place {
        file: 0,
        line: 1,
        column: 1,
    };
    let condition = Condition {
        name,
        kind: CondKind::Range,
        place,
        hyps: Items::new(alloc),
        goals,
    };
    Boxed::new(alloc, condition)
}

#[test]
fn joins_the_goals(rt: HostRuntime) -> Result<(), Fail> {
    let alloc = rt.alloc();
    let sequent = condition(alloc)?.get().sequent(alloc)?;
    assert!(rt; matches!(sequent.goal, Term::Infix(TermOp::And, _, _)));
    assert_eq!(rt; sequent.hyps.len(), 0);
    Ok(())
}

#[test]
fn shares_equal_terms(rt: HostRuntime) -> Result<(), Fail> {
    let alloc = rt.alloc();
    let mut terms = Terms::new(alloc);
    let sum = operation(alloc, None, TermOp::Add, Some(2))?;
    let first = terms.intern(sum.get())?;
    let again = terms.intern(sum.get())?;
    assert!(rt; first == again);
    assert_eq!(rt; terms.len(), 3);
    let tree = terms.tree_of(alloc, first)?;
    assert!(rt; same(&tree, sum.get()));
    Ok(())
}

#[test]
fn lists_facts_in_order(rt: HostRuntime) -> Result<(), Fail> {
    let alloc = rt.alloc();
    let mut terms = Terms::new(alloc);
    let first = terms.make(Node::Truth(true))?;
    let second = terms.make(Node::Truth(false))?;
    let mut lists = FactLists::new(alloc);
    let one = lists.more(lists.none(), first)?;
    let two = lists.more(one, second)?;
    let facts = lists.facts(alloc, two)?;
    assert!(rt; facts.as_slice() == [first, second].as_slice());
    Ok(())
}
