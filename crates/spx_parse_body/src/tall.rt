// Expressions with their heights.
ghost use Rattle.std.specs.Prelude.{◌≡◌, ◌<◌, ◌+◌, ◌-◌, ◌^◌, max, IfOk, List};
ghost use Rattle.spx_tree.specs.Form.{Form};
ghost use Rattle.spx_parse_body.specs.declared.tall.Tall.{Tall as AsTall};
ghost use Rattle.spx_parse_body.specs.Expressions as read;
ghost use Rattle.spx_cursor.specs.Reading as reading;
ghost use Rattle.spx_cursor.specs.Answers.{Reads};

use spx_cursor::{Cursor, Stop};
use spx_text::Place;
use spx_tree::{Expr, InfixOp, MemberOp, Name};
use sqlite_items::Boxed;
use std::alloc::{AllocError, Global};

/// An expression, and how many parentheses, operators and membership tests lie on the longest way down.
#[derive(Drop)]
pub struct Tall {
    pub expr: Boxed<Expr>,
    pub height: u32,
}

/// An expression of this height.
pub fn node(alloc: Global, expr: Expr, height: u32) -> Result<Tall, Stop>
    ensures gives { (fs : List Form) → Reads (reading.pure {A = AsTall} (record { expr = expr; height = height }) fs) result fs }
    ensures low { IfOk result (λ t. t.height ≡ height) }
{
    let expr = Boxed::new(alloc, expr)?;
    Ok(Tall { expr, height })
}

// literal = number
#[tactic(auto, unfolding(crate::specs::Expressions::literal))]
pub fn literal(alloc: Global, cursor: &mut Cursor<'_>, marked: bool) -> Result<Tall, Stop>
    ensures gives { Reads (read.literal marked cursor.old) result cursor.new }
    ensures low { IfOk result (λ t. t.height ≡ 0) }
{
    let (value, place) = cursor.number(marked)?;
    node(alloc, Expr::Number(value, place), 0)
}

/// Two operands under an operator.
pub fn join(
    alloc: Global,
    op: InfixOp,
    place: Place,
    left: Tall,
    right: Tall,
) -> Result<Tall, AllocError>
    requires left_low { left.height < 2 ^ 32 - 1 }
    requires right_low { right.height < 2 ^ 32 - 1 }
    ensures { IfOk result (λ t. t ≡ read.joined op place left right) }
{
    let height = left.height.max(right.height) + 1;
    let expr = Boxed::new(alloc, Expr::Infix(op, place, left.expr, right.expr))?;
    Ok(Tall { expr, height })
}

/// A membership test in the type of this name, where there is one.
pub fn member_type(
    alloc: Global,
    cursor: &Cursor<'_>,
    op: MemberOp,
    place: Place,
    tested: Tall,
    high: u32,
    type_name: Option<Name>,
) -> Result<Tall, Stop>
    requires tested_low { tested.height < 2 ^ 32 - 1 }
    requires low { high < 2 ^ 32 - 1 }
    ensures gives { Reads (read.type_by op place tested high type_name cursor.now) result cursor.now }
    ensures taller { IfOk result (λ t. t.height ≡ max tested.height high + 1) }
{
    let Some(type_name) = type_name else {
        return Err(cursor.expected());
    };
    let height = tested.height.max(high) + 1;
    node(
        alloc,
        Expr::InType(op, place, tested.expr, type_name.path, type_name.parts),
        height,
    )
}
