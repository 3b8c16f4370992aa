// Calls that no layer above makes.
ghost use Rattle.std.specs.Prelude.{◌≡◌, length, IfOk};

use spx_core::{CoreExpr, Program, UNIVERSAL};
use spx_lexer::lex;
use spx_parse_unit::{parse_expr, parse_stmts};
use spx_text::Place;
use spx_tree::InfixOp;
use spx_types::{static_value, type_of};
use sqlite_items::{Boxed, Items};
use std::alloc::{AllocError, Global};
use std::test::Fail;

const SUM: &[u8] = b"X + 1 > 2;";

const STATEMENTS: &[u8] = b"X := 1; null; end";

const AT: Place = Place {
    file: 0,
    line: 1,
    column: 1,
};

/// How many tokens the expression at the start of the text has.
fn expression_length(alloc: Global) -> Option<usize> {
    let tokens = lex(alloc, 0, SUM).ok()?;
    match parse_expr(alloc, tokens.source, tokens.list.as_slice(), 0, tokens.end) {
        Ok((_, next)) => Some(next),
        Err(_) => None,
    }
}

/// How many statements stand at the start of the text, and how many tokens they have.
fn statements_length(alloc: Global) -> Option<(usize, usize)> {
    let tokens = lex(alloc, 0, STATEMENTS).ok()?;
    match parse_stmts(alloc, tokens.source, tokens.list.as_slice(), 0, tokens.end) {
        Ok((stmts, next)) => Some((stmts.len(), next)),
        Err(_) => None,
    }
}

/// The sum of 2 and 3.
fn sum(alloc: Global) -> Result<CoreExpr, AllocError> {
    let left = Boxed::new(alloc, CoreExpr::Number(2, AT))?;
    let right = Boxed::new(alloc, CoreExpr::Number(3, AT))?;
    Ok(CoreExpr::Infix(InfixOp::Add, AT, left, right))
}

/// A program of nothing.
fn no_program(alloc: Global) -> Program {
    Program {
        units: Items::new(alloc),
        types: Items::new(alloc),
        vars: Items::new(alloc),
        subs: Items::new(alloc),
        bodies: Items::new(alloc),
    }
}

#[test]
fn parts_of_a_text_are_read(rt: HostRuntime) -> Result<(), Fail> {
    assert_eq!(rt; expression_length(rt.alloc()), Some(5));
    assert_eq!(rt; statements_length(rt.alloc()), Some((2, 6)));
    Ok(())
}

#[test]
fn a_sum_has_a_type_and_a_value(rt: HostRuntime) -> Result<(), Fail> {
    let program = no_program(rt.alloc());
    let sum = Boxed::new(rt.alloc(), sum(rt.alloc())?)?;
    assert_eq!(rt; type_of(&program, sum.get(), false), Ok(UNIVERSAL.id));
    assert_eq!(rt; static_value(&program, sum.get(), false), Ok(5));
    Ok(())
}
