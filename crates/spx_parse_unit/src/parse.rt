// The units of a file, and expressions and statements from a token on.
ghost use Rattle.std.specs.Prelude.{◌≡◌, ◌≤◌, ℕ, List, Result, length, drop};
ghost use Rattle.spx_tree.specs.Form.{forms_of};
ghost use Rattle.spx_tree.specs.Mirror.{AreWithin};
ghost use Rattle.spx_tree.specs.Goes.{place_with};
ghost use Rattle.spx_tree.specs.Grammar.{IsFile, IsStmts};
ghost use Rattle.spx_tree.specs.Written.{written, written_expr, written_stmts};
ghost use Rattle.spx_tree.specs.declared.expression.Expr.{Expr};
ghost use Rattle.spx_tree.specs.declared.statement.Stmt.{Stmt};
ghost use Rattle.spx_tree.specs.declared.subprogram.Unit.{Unit};
ghost use Rattle.spx_parse_body.specs.Expressions.{IsExprAt};
ghost use Rattle.spx_parse_unit.specs.Answers.{SaysAll, SaysFrom, StopsWithin, IsUnlessMemory, fault_at, mark_of};

use crate::fault::{MOST_LEVELS, ParseFault};
use crate::subprograms::file;
use spx_cursor::{Cursor, PROGRAM, Stop};
use spx_lexer::Tokens;
use spx_parse_body::{expression_at, stmts};
use spx_text::Place;
use spx_tree::{Expr, Stmt, Token, Unit};
use sqlite_items::Items;
use std::alloc::Global;

/// The place of the token with which so many are left.
fn place_of(tokens: &[Token], left: usize, end: Place) -> Place
    requires { left ≤ length tokens.now }
    ensures { result ≡ place_with end tokens.now left }
{
    let (_, rest) = tokens.split_at(tokens.len() - left);
    match rest {
        [] => end,
        [token, ..] => token.place,
    }
}

/// The fault with its place.
fn fault_of(tokens: &[Token], stop: Stop, end: Place) -> ParseFault
    requires { StopsWithin (length tokens.now) stop }
    ensures { result ≡ fault_at end tokens.now stop }
{
    match stop {
        Stop::Expected(left) => ParseFault::Expected(place_of(tokens, left, end)),
        Stop::TooDeep(left) => ParseFault::TooDeep(place_of(tokens, left, end)),
        Stop::Memory => ParseFault::Memory,
    }
}

/// Reads the units of a file.
pub fn parse_units(alloc: Global, tokens: &Tokens<'_>) -> Result<Items<Unit>, ParseFault>
    requires { AreWithin (length tokens.now.source.now) tokens.now.list.items }

    // What is read is the file that is written with these tokens, within 200 levels;
    // or no file goes on with the token at the place that is named, or none within so few levels.
    ensures answers { SaysAll written IsFile 200 tokens.now.end tokens.now.source.now tokens.now.list.items result }

    // Whatever fits that description is the answer, unless memory runs out.
    ensures only { (r : Result (List Unit) ParseFault)
        → SaysAll written IsFile 200 tokens.now.end tokens.now.source.now tokens.now.list.items r
        → IsUnlessMemory r result }
{
    let list = tokens.list.as_slice();
    let mut cursor = Cursor::new(tokens.source, list);
    match file(alloc, &mut cursor, MOST_LEVELS) {
        Ok(units) => {
            let left = cursor.left();
            if left == 0 {
                return Ok(units);
            }
            Err(ParseFault::Expected(place_of(list, left, tokens.end)))
        }
        Err(stop) => Err(fault_of(list, stop, tokens.end)),
    }
}

/// The mark of the token at this index, or that of program text where there is none.
fn mark_at(tokens: &[Token], from: usize) -> bool
    requires { from ≤ length tokens.now }
    ensures { result ≡ mark_of (drop from tokens.now) }
{
    let (_, rest) = tokens.split_at(from);
    match rest {
        [] => PROGRAM,
        [token, ..] => token.marked,
    }
}

/// Before the token at this index.
fn cursor_at<'a>(source: &'a [u8], tokens: &'a [Token], from: usize) -> Cursor<'a>
    requires index { from ≤ length tokens.now }
    requires within { AreWithin (length source.now) tokens.now }
    ensures { result ≡ forms_of source.now (drop from tokens.now) }
{
    let (_, rest) = tokens.split_at(from);
    Cursor::new(source, rest)
}

/// Reads an expression from the token at an index on, all of it with the mark of that token, and answers it with the index
/// of the first token after it. In annotation text it may be a predicate. Where there is no such token, the mark is that of
/// program text.
pub fn parse_expr(
    alloc: Global,
    source: &[u8],
    tokens: &[Token],
    from: usize,
    end: Place,
) -> Result<(Expr, usize), ParseFault>
    requires index { from ≤ length tokens.now }
    requires within { AreWithin (length source.now) tokens.now }

    // What is read is the expression that is written with these tokens, within 200 levels, and no expression goes on with the next token;
    // or none goes on with the token at the place that is named, or none within so few levels.
    ensures answers { SaysFrom (written_expr (mark_of (drop from tokens.now))) (IsExprAt (mark_of (drop from tokens.now))) 200 end source.now tokens.now from result }

    // Whatever fits that description is the answer, unless memory runs out.
    ensures only { (r : Result (Expr × ℕ) ParseFault)
        → SaysFrom (written_expr (mark_of (drop from tokens.now))) (IsExprAt (mark_of (drop from tokens.now))) 200 end source.now tokens.now from r
        → IsUnlessMemory r result }
{
    let marked = mark_at(tokens, from);
    let mut cursor = cursor_at(source, tokens, from);
    match expression_at(alloc, &mut cursor, MOST_LEVELS, marked) {
        Ok(expr) => Ok((expr, tokens.len() - cursor.left())),
        Err(stop) => Err(fault_of(tokens, stop, end)),
    }
}

/// Reads statements, one or more, from the token at an index on, and answers them with the index of the first token after
/// them.
pub fn parse_stmts(
    alloc: Global,
    source: &[u8],
    tokens: &[Token],
    from: usize,
    end: Place,
) -> Result<(Items<Stmt>, usize), ParseFault>
    requires index { from ≤ length tokens.now }
    requires within { AreWithin (length source.now) tokens.now }

    // What is read are the statements that are written with these tokens, within 200 levels, and no statements go on with the next token;
    // or none go on with the token at the place that is named, or none within so few levels.
    ensures answers { SaysFrom written_stmts IsStmts 200 end source.now tokens.now from result }

    // Whatever fits that description is the answer, unless memory runs out.
    ensures only { (r : Result (List Stmt × ℕ) ParseFault)
        → SaysFrom written_stmts IsStmts 200 end source.now tokens.now from r
        → IsUnlessMemory r result }
{
    let mut cursor = cursor_at(source, tokens, from);
    match stmts(alloc, &mut cursor, MOST_LEVELS) {
        Ok(stmts) => Ok((stmts, tokens.len() - cursor.left())),
        Err(stop) => Err(fault_of(tokens, stop, end)),
    }
}
