// The readers of names and expressions that statements and units call.
ghost use Rattle.std.specs.Prelude.{◌≡◌, ◌<◌};
ghost use Rattle.spx_tree.specs.Form.{keeps, ItsPlace};
ghost use Rattle.spx_tree.specs.Written.{program};
ghost use Rattle.spx_parse_body.specs.Expressions as read;
ghost use Rattle.spx_cursor.specs.Reading as reading;
ghost use Rattle.spx_cursor.specs.Reading.{◌>>=◌ as ◌▷◌};
ghost use Rattle.spx_cursor.specs.Answers.{Reads};

use crate::expressions::{at_layer, below, tall_name};
use spx_cursor::{ANNOTATION, Cursor, PROGRAM, Stop, last_layer};
use spx_tree::{Expr, Kind, Layer, Name, Predicate};
use sqlite_items::Boxed;
use std::alloc::Global;

/// Reads an expression of program text, one level down.
pub fn expr_below(
    alloc: Global,
    cursor: &mut Cursor<'_>,
    levels: u32,
    layer: Layer,
) -> Result<Boxed<Expr>, Stop>
    requires { 0 < levels }
    ensures { Reads ((read.below program levels layer ▷ λ t. reading.pure t.expr) cursor.old) result cursor.new }
{
    Ok(below(alloc, cursor, levels, PROGRAM, layer)?.expr)
}

/// Reads a name.
#[tactic(auto, unfolding(crate::specs::Expressions::name))]
pub fn name(alloc: Global, cursor: &mut Cursor<'_>, levels: u32, marked: bool) -> Result<Name, Stop>
    ensures { Reads (read.name marked levels cursor.old) result cursor.new }
{
    let name = tall_name(alloc, cursor, levels, marked)?;
    Ok(Name {
        path: name.path,
        parts: name.parts,
    })
}

/// Reads an expression.
#[tactic(auto, unfolding(crate::specs::Expressions::expression))]
pub fn expression(
    alloc: Global,
    cursor: &mut Cursor<'_>,
    levels: u32,
    marked: bool,
) -> Result<Expr, Stop>
    ensures { Reads (read.expression marked levels cursor.old) result cursor.new }
{
    let tall = at_layer(alloc, cursor, levels, marked, Layer::Expression)?;
    Ok(tall.expr.into_inner())
}

/// Reads an expression of program text, or a predicate of annotation text.
#[tactic(auto, unfolding(crate::specs::Expressions::expression_at))]
pub fn expression_at(
    alloc: Global,
    cursor: &mut Cursor<'_>,
    levels: u32,
    marked: bool,
) -> Result<Expr, Stop>
    ensures { Reads (read.expression_at marked levels cursor.old) result cursor.new }
{
    let tall = at_layer(alloc, cursor, levels, marked, last_layer(marked))?;
    Ok(tall.expr.into_inner())
}

// predicate_after = word predicate ";", in annotation text
#[tactic(auto, unfolding(crate::specs::Expressions::predicate_after, crate::specs::Expressions::predicate))]
pub fn predicate_after(
    alloc: Global,
    cursor: &mut Cursor<'_>,
    levels: u32,
    word: Kind,
) -> Result<Predicate, Stop>
    requires { keeps word ≡ ItsPlace }
    ensures { Reads (read.predicate_after word levels cursor.old) result cursor.new }
{
    let place = cursor.expect_place(ANNOTATION, word)?;
    let condition = at_layer(alloc, cursor, levels, ANNOTATION, Layer::Predicate)?.expr;
    cursor.expect(ANNOTATION, Kind::Semicolon)?;
    Ok(Predicate { place, condition })
}
